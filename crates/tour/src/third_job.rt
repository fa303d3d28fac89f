// A job without H on the same machine: its listing is rehearsed in two orders on the registers that tell numbers, beside the direct run.
use crate::amplitudes::WIRES;
use crate::calls::{judge, list, set_up};
use crate::reorder::reordered;
use crate::second_job::{HOMES, cells};
use crate::show::{print_operations, say};
use crate::task::{Step, Task, cnot, one};
use crate::told::compare_runs;
use parity::parity_register::ParityRegister;
use phase::phase_register::PhaseRegister;

// Label 2 is read while the CNOT from label 0 to label 1 still goes through cell 3.
fn steps() -> [Step; 9] {
    [
        one('X', 0, 0),
        one('X', 2, 0),
        cnot(0, 1, 1, 1),
        cnot(2, 3, 1, 0),
        cnot(3, 1, 27, 0),
        one('R', 0, 27),
        one('R', 1, 30),
        one('R', 2, 5),
        one('R', 3, 30),
    ]
}

pub(crate) fn tour(rt: &HostRuntime) -> anyhow::Result<()> {
    let task = Task {
        columns: 3,
        rows: 2,
        labels: 4,
        cells: &cells(),
        homes: &HOMES,
        steps: &steps(),
    };
    let job = set_up(rt, &task)?;
    judge(rt, &job)?;
    let listing = list(rt, &job)?;
    say(rt, "another allowed order of the listing")?;
    let second = reordered(rt, &listing)?;
    print_operations(rt, &second)?;
    say(rt, "on the phase register a read tells its cell's bit")?;
    compare_runs(rt, &job, &listing, &second, PhaseRegister::new(WIRES))?;
    say(
        rt,
        "on the parity register a read tells the sum of 2^w over its set of starting cells w, and 2^32 if it is flipped",
    )?;
    compare_runs(rt, &job, &listing, &second, ParityRegister::new(WIRES))
}
