// The direct run and the rehearsals of a listing on a register that tells, compared by what they tell.
use crate::show::{print_agreement, print_count, print_readings, say};
use circuit::operation::{Operation, Reading};
use job::closed_job::ClosedJob;
use register::TellingRegister;
use rehearsal::telling::rehearse_telling;

// What stands in a place before a reading is written there.
const NO_READING: Reading = Reading { gate: 0, number: 0 };

// What the program's reads tell when it is run directly.
fn readings_of_run<T: TellingRegister>(
    rt: &HostRuntime,
    job: &ClosedJob,
    register: &mut T,
) -> anyhow::Result<Vec<Reading>> {
    let mut readings = vec![in rt.alloc(); NO_READING; 8]?;
    let count = job.run_telling(register, &mut readings)?;
    readings.truncate(count);
    print_count(rt, "the program is run directly, with reads", count)?;
    print_readings(rt, &readings)?;
    Ok(readings)
}

// What the reads among operations tell when these are rehearsed.
fn readings_of_rehearsal<T: TellingRegister>(
    rt: &HostRuntime,
    operations: &[Operation],
    register: &mut T,
) -> anyhow::Result<Vec<Reading>> {
    let mut readings = vec![in rt.alloc(); NO_READING; 8]?;
    let count = rehearse_telling(register, operations, &mut readings)?;
    readings.truncate(count);
    print_count(rt, "the operations are rehearsed, with reads", count)?;
    print_readings(rt, &readings)?;
    Ok(readings)
}

// Whether each gate that one run read is read in the other, with the same number.
fn same_readings(first: &[Reading], second: &[Reading]) -> bool {
    let mut same = first.len() == second.len();
    for reading in first {
        same = same && second.contains(reading);
    }
    same
}

// Rehearses operations on a blank register, and compares it with the one that ran the program directly.
fn compare_with<T: TellingRegister + Copy + PartialEq>(
    rt: &HostRuntime,
    operations: &[Operation],
    blank: T,
    direct: &T,
    direct_readings: &[Reading],
) -> anyhow::Result<()> {
    let mut register = blank;
    let readings = readings_of_rehearsal(rt, operations, &mut register)?;
    print_agreement(
        rt,
        "each gate reads what it read in the direct run",
        same_readings(&readings, direct_readings),
    )?;
    print_agreement(
        rt,
        "the register is that of the direct run",
        register == *direct,
    )
}

// The direct run, the listing and the listing in another order, each on a copy of a blank register.
pub(crate) fn compare_runs<T: TellingRegister + Copy + PartialEq>(
    rt: &HostRuntime,
    job: &ClosedJob,
    listing: &[Operation],
    second: &[Operation],
    blank: T,
) -> anyhow::Result<()> {
    let mut direct = blank;
    let readings = readings_of_run(rt, job, &mut direct)?;
    say(rt, "the listing in its own order")?;
    compare_with(rt, listing, blank, &direct, &readings)?;
    say(rt, "the listing in the other order")?;
    compare_with(rt, second, blank, &direct, &readings)
}
