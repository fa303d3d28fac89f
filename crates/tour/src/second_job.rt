// A job of four labels on a machine of 3 columns and 2 rows, with H and T: its listing is rehearsed in two orders on the amplitude register, beside the direct run.
use crate::amplitudes::{NOUGHT, WIRES, print_amplitudes, same_amplitudes};
use crate::calls::{judge, list, print_agenda, set_up, try_start};
use crate::reorder::reordered;
use crate::show::{print_agreement, print_count, print_operations, print_refusal, say};
use crate::task::{Step, Task, cnot, links, one};
use amplitude::amplitudes::AmplitudeRegister;
use calibration::values::Calibration;
use circuit::operation::Operation;
use job::closed_job::ClosedJob;
use phase::phase_register::PhaseRegister;
use register::GateRegister;
use rehearsal::rehearse;

// The links along the rows take 2 and 3, those along the columns 4.
pub(crate) fn cells() -> [(u32, Calibration); 6] {
    [
        (0, links(2, 4)),
        (1, links(3, 4)),
        (2, links(0, 4)),
        (3, links(2, 0)),
        (4, links(3, 0)),
        (5, links(0, 0)),
    ]
}

// The homes of labels 0 to 3.
pub(crate) const HOMES: [u32; 4] = [0, 4, 2, 5];

// The CNOT from label 0 to label 1 goes through cell 1; that from label 2 to label 1 goes through cell 5, by the other choice.
fn steps() -> [Step; 11] {
    [
        one('H', 0, 0),
        one('X', 2, 0),
        cnot(0, 1, 1, 0),
        cnot(2, 3, 1, 0),
        one('T', 1, 17),
        cnot(2, 1, 18, 1),
        one('H', 0, 17),
        one('R', 0, 18),
        one('R', 1, 45),
        one('R', 2, 45),
        one('R', 3, 45),
    ]
}

// Starts that the plan cannot have: before the gate that it depends on ends, and while another gate has a cell of its path.
fn refusals(rt: &HostRuntime, job: &mut ClosedJob) -> anyhow::Result<()> {
    say(
        rt,
        "two starts that cannot be: before gate 2 ends, and while gate 5 has the cell",
    )?;
    try_start(rt, job, 4, 16)?;
    try_start(rt, job, 10, 44)?;
    say(rt, "the plan is as before")?;
    judge(rt, job)
}

// The phase register takes no H: the listing is refused, with the position of the first.
fn refused_register(rt: &HostRuntime, listing: &[Operation]) -> anyhow::Result<()> {
    say(
        rt,
        "the listing is rehearsed on the phase register, which takes no H",
    )?;
    let mut register = PhaseRegister::new(WIRES);
    match rehearse(&mut register, listing) {
        Ok(reads) => print_count(rt, "reads", reads),
        Err(refusal) => print_refusal(rt, refusal),
    }
}

// The reads of a run, and the count of H of its register.
fn print_run(
    rt: &HostRuntime,
    reads: usize,
    register: &AmplitudeRegister<'_>,
) -> anyhow::Result<()> {
    println!(rt; "reads: {reads}, H: {}", register.h_done())?;
    Ok(())
}

// Rehearses operations on a blank register, and compares its amplitudes with those of the direct run.
fn rehearse_beside(
    rt: &HostRuntime,
    operations: &[Operation],
    direct: &AmplitudeRegister<'_>,
) -> anyhow::Result<()> {
    let mut places = [NOUGHT; 64];
    let mut register = AmplitudeRegister::new(&mut places, WIRES);
    let reads = rehearse(&mut register, operations)?;
    print_run(rt, reads, &register)?;
    let same = same_amplitudes(&register, direct);
    print_agreement(rt, "all amplitudes are those of the direct run", same)
}

// The direct run, the listing and the listing in another order, each on a register of its own.
fn runs(rt: &HostRuntime, job: &ClosedJob, listing: &[Operation]) -> anyhow::Result<()> {
    say(rt, "the program is run directly on the amplitude register")?;
    let mut places = [NOUGHT; 64];
    let mut direct = AmplitudeRegister::new(&mut places, WIRES);
    let reads = job.run(&mut direct)?;
    print_run(rt, reads, &direct)?;
    print_amplitudes(rt, &direct)?;
    say(rt, "the listing is rehearsed in its own order")?;
    rehearse_beside(rt, listing, &direct)?;
    say(rt, "the listing is rehearsed in another allowed order")?;
    let operations = reordered(rt, listing)?;
    print_operations(rt, &operations)?;
    rehearse_beside(rt, &operations, &direct)
}

pub(crate) fn tour(rt: &HostRuntime) -> anyhow::Result<()> {
    let task = Task {
        columns: 3,
        rows: 2,
        labels: 4,
        cells: &cells(),
        homes: &HOMES,
        steps: &steps(),
    };
    let mut job = set_up(rt, &task)?;
    judge(rt, &job)?;
    refusals(rt, &mut job)?;
    print_agenda(rt, &job)?;
    let listing = list(rt, &job)?;
    runs(rt, &job, &listing)?;
    refused_register(rt, &listing)
}
