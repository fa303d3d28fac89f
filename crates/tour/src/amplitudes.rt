// The amplitudes of a register, printed and compared.
use crate::show::say;
use amplitude::amplitudes::AmplitudeRegister;
use matrices::Amplitude;

// A wire for each cell of the machine of 3 columns and 2 rows.
pub(crate) const WIRES: u8 = 6;

// How many amplitudes a register of so many wires has.
const COUNT: usize = 64;

pub(crate) const NOUGHT: Amplitude = Amplitude {
    a: 0,
    b: 0,
    c: 0,
    d: 0,
};

// Prints the amplitudes that are not 0, each by its index, whose bit w is cell w, and its four numbers.
pub(crate) fn print_amplitudes(
    rt: &HostRuntime,
    register: &AmplitudeRegister<'_>,
) -> anyhow::Result<()> {
    say(
        rt,
        "amplitudes a + bω + cω² + dω³ by index, whose bit w is cell w; all others are 0",
    )?;
    for index in 0..COUNT {
        let Amplitude { a, b, c, d } = register.amplitude(index).unwrap_or(NOUGHT);
        if (Amplitude { a, b, c, d }) != NOUGHT {
            println!(rt; "amplitude {index}: {a} {b} {c} {d}")?;
        }
    }
    Ok(())
}

// Whether two registers have the same amplitude at every index.
pub(crate) fn same_amplitudes(
    first: &AmplitudeRegister<'_>,
    second: &AmplitudeRegister<'_>,
) -> bool {
    let mut same = true;
    for index in 0..COUNT {
        same = same && first.amplitude(index) == second.amplitude(index);
    }
    same
}
