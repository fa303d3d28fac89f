// Jobs of 256 gates that pass judging under one-bend, each gate well after the one before.
use job::closed_job::ClosedJob;
use job::open_job::OpenJob;
use refusal::Refusal;

// How many gates each program has.
const GATES: u32 = 256;

// The letter and the labels of a gate.
type Gate = (char, u32, u32);

// A machine of columns and rows with so many labels, each so many cells after the one before.
#[derive(Clone, Copy)]
pub(crate) struct Size {
    pub(crate) columns: u32,
    pub(crate) rows: u32,
    pub(crate) labels: u32,
    pub(crate) apart: u32,
}

// The programs.
#[derive(Clone, Copy)]
pub(crate) enum Program {
    // A CNOT between the first two labels, to and fro.
    ToAndFro,
    // Three CNOTs, then a gate on one label.
    Mixed,
}

// A CNOT between the first two labels, to and fro.
fn to_and_fro(number: u32) -> Gate {
    if number % 2 == 0 {
        ('C', 0, 1)
    } else {
        ('C', 1, 0)
    }
}

// The letter of a gate on one label.
fn single(number: u32) -> char {
    match number % 8 {
        0 => 'X',
        1 => 'H',
        2 => 'Y',
        3 => 'Z',
        4 => 'S',
        _ => 'T',
    }
}

// Three CNOTs, then a gate on one label.
fn mixed(number: u32, labels: u32) -> Gate {
    let labels = labels.clamp(2, 32);
    let label = number % labels;
    if number % 4 == 3 {
        (single(number / 4), label, 0)
    } else {
        ('C', label, (label + 1 + number % (labels - 1)) % labels)
    }
}

impl Program {
    // The gate with a number.
    fn gate(self, number: u32, labels: u32) -> Gate {
        match self {
            Program::ToAndFro => to_and_fro(number),
            Program::Mixed => mixed(number, labels),
        }
    }
}

// Places each label.
fn place_all(job: &mut ClosedJob, size: Size) -> Result<(), Refusal> {
    for label in 0..size.labels {
        job.place(label, label.wrapping_mul(size.apart))?;
    }
    Ok(())
}

// Times each gate.
fn time_all(job: &mut ClosedJob, program: Program, labels: u32) -> Result<(), Refusal> {
    for number in 0..GATES {
        let choice = match program.gate(number, labels) {
            ('C', _, _) => number / 2 % 2,
            _ => 0,
        };
        job.time(number, 100 * number, choice)?;
    }
    Ok(())
}

// The job of a program, timed.
pub(crate) fn job_of(rt: &HostRuntime, size: Size, program: Program) -> Result<ClosedJob, Refusal> {
    let mut open = OpenJob::new(rt.alloc(), size.columns, size.rows, size.labels)?;
    for number in 0..GATES {
        let (letter, one, two) = program.gate(number, size.labels);
        open.add(letter, one, two)?;
    }
    let mut job = open.close();
    place_all(&mut job, size)?;
    time_all(&mut job, program, size.labels)?;
    Ok(job)
}
