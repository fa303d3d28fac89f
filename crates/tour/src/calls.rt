// The calls of a job from opening to listing, each printed with what it answers.
use crate::show::*;
use crate::task::{Step, Task};
use amplitude::amplitudes::AmplitudeRegister;
use calibration::values::Calibration;
use circuit::action::{Action, Single};
use circuit::operation::Operation;
use job::closed_job::ClosedJob;
use job::open_job::OpenJob;
use phase::phase_register::PhaseRegister;
use plan::gate::AgendaEntry;
use rules::one_bend::OneBend;

// What stands in a place before an operation is written there.
const NO_OPERATION: Operation = Operation {
    start: 0,
    length: 0,
    action: Action::One(Single::H, 0),
    gate: 0,
};

// What stands in a place before an entry is written there.
const NO_ENTRY: AgendaEntry = AgendaEntry { start: 0, gate: 0 };

fn add_gates(rt: &HostRuntime, job: &mut OpenJob, steps: &[Step]) -> anyhow::Result<()> {
    for step in steps {
        let gate = job.add(step.letter, step.one, step.two)?;
        print_gate(rt, gate, step)?;
    }
    Ok(())
}

fn calibrate_cells(
    rt: &HostRuntime,
    job: &mut ClosedJob,
    cells: &[(u32, Calibration)],
) -> anyhow::Result<()> {
    for (cell, values) in cells {
        job.calibrate(*cell, *values)?;
        print_cell(rt, *cell, values)?;
    }
    Ok(())
}

fn place_labels(rt: &HostRuntime, job: &mut ClosedJob, homes: &[u32]) -> anyhow::Result<()> {
    for (label, home) in (0u32..32).zip(homes) {
        job.place(label, *home)?;
        print_home(rt, label, *home)?;
    }
    Ok(())
}

fn time_gates(rt: &HostRuntime, job: &mut ClosedJob, steps: &[Step]) -> anyhow::Result<()> {
    for (gate, step) in (0u32..256).zip(steps) {
        job.time(gate, step.start, step.choice)?;
        print_timing(rt, gate, step)?;
    }
    Ok(())
}

// Opens a job.
fn open_job(rt: &HostRuntime, task: &Task<'_>) -> anyhow::Result<OpenJob> {
    let open = OpenJob::new(rt.alloc(), task.columns, task.rows, task.labels)?;
    println!(rt;
        "a job is opened: columns {}, rows {}, labels {}",
        task.columns, task.rows, task.labels
    )?;
    Ok(open)
}

// Sets a job up: opens it, adds its gates, closes it, calibrates its cells, places its labels and times its gates.
pub(crate) fn set_up(rt: &HostRuntime, task: &Task<'_>) -> anyhow::Result<ClosedJob> {
    let mut open = open_job(rt, task)?;
    add_gates(rt, &mut open, task.steps)?;
    let mut job = open.close();
    print_count(rt, "the program is closed, with gates", job.gate_count())?;
    calibrate_cells(rt, &mut job, task.cells)?;
    place_labels(rt, &mut job, task.homes)?;
    time_gates(rt, &mut job, task.steps)?;
    Ok(job)
}

// Judges the plan.
pub(crate) fn judge(rt: &HostRuntime, job: &ClosedJob) -> anyhow::Result<()> {
    print_verdict(rt, "the plan is judged", job.judge(&OneBend))
}

// Tries another start for a gate, by route choice 0.
pub(crate) fn try_start(
    rt: &HostRuntime,
    job: &mut ClosedJob,
    gate: u32,
    start: u32,
) -> anyhow::Result<()> {
    println!(rt; "gate {gate} is tried from {start} on")?;
    let verdict = job.try_timing(&OneBend, gate, start, 0);
    print_verdict(rt, "the trial is judged", verdict)
}

// Prints the agenda.
pub(crate) fn print_agenda(rt: &HostRuntime, job: &ClosedJob) -> anyhow::Result<()> {
    let mut places = [NO_ENTRY; 16];
    let count = job.agenda(&mut places)?;
    print_count(rt, "the agenda has entries", count)?;
    for entry in places.iter().take(count) {
        print_entry(rt, entry)?;
    }
    Ok(())
}

// Lists the job, for registers that may run the listing, and prints each operation.
pub(crate) fn list(rt: &HostRuntime, job: &ClosedJob) -> anyhow::Result<Vec<Operation>> {
    let mut places = vec![in rt.alloc(); NO_OPERATION; 40]?;
    let count = job.list::<OneBend, AmplitudeRegister<'_>, PhaseRegister>(&OneBend, &mut places)?;
    places.truncate(count);
    println!(rt;
        "the listing has operations: {count}; each: start, length, letter, cell, second cell, gate"
    )?;
    print_operations(rt, &places)?;
    Ok(places)
}
