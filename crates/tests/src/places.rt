// Lent places: where one is wanting they stay as they were, and one that is not needed stays as it was.
use crate::steps::{job_of, list};
use agenda::write_agenda;
use circuit::action::{Action, Single};
use circuit::operation::{Operation, Reading};
use job::closed_job::ClosedJob;
use parity::parity_register::ParityRegister;
use plan::gate::{AgendaEntry, Gate};
use refusal::Refusal;
use register::TellingRegister;

// What stands in the places before.
const NOTHING: Operation = Operation {
    start: 9,
    length: 9,
    action: Action::Cnot(9, 9),
    gate: 9,
};

const UNREAD: Reading = Reading { gate: 9, number: 9 };

fn entry(start: u32, gate: u16) -> AgendaEntry {
    AgendaEntry { start, gate }
}

// An operation of the CNOT below.
fn cnot_at(start: u32, from: u8, to: u8) -> Operation {
    Operation {
        start,
        length: 1,
        action: Action::Cnot(from, to),
        gate: 0,
    }
}

// What listing answers that is lent so many of 8 places, and the places then.
fn listed(job: &ClosedJob, count: usize) -> (Result<usize, Refusal>, [Operation; 8]) {
    let mut places = [NOTHING; 8];
    let answer = list(job, &mut places[..count.min(8)]);
    (answer, places)
}

// A CNOT over two links has seven operations.
#[test]
fn for_operations(rt: HostRuntime) -> Result<(), Refusal> {
    let mut job = job_of(rt.alloc(), &[('C', 0, 1)], &[0, 2])?;
    job.time(0, 5, 0)?;
    let want = [
        cnot_at(5, 0, 1),
        cnot_at(6, 1, 0),
        cnot_at(7, 0, 1),
        cnot_at(8, 1, 2),
        cnot_at(9, 0, 1),
        cnot_at(10, 1, 0),
        cnot_at(11, 0, 1),
        NOTHING,
    ];
    let few = (Err(Refusal::TooFewPlaces), [NOTHING; 8]);
    for (count, answer) in [(6, few), (7, (Ok(7), want)), (8, (Ok(7), want))] {
        assert_eq!(rt; listed(&job, count), answer, "{count} places");
    }
    Ok(())
}

// What the agenda answers that is lent so many of 3 places, and the places then.
fn entered(job: &ClosedJob, count: usize) -> (Result<usize, Refusal>, [AgendaEntry; 3]) {
    let mut places = [entry(1, 1); 3];
    let answer = job.agenda(&mut places[..count.min(3)]);
    (answer, places)
}

// Two of three gates have a timing.
#[test]
fn for_entries(rt: HostRuntime) -> Result<(), Refusal> {
    let mut job = job_of(rt.alloc(), &[('H', 0, 0), ('H', 1, 0), ('H', 2, 0)], &[])?;
    job.time(0, 9, 0)?;
    job.time(2, 4, 0)?;
    let want = (Ok(2), [entry(4, 2), entry(9, 0), entry(1, 1)]);
    let few = (Err(Refusal::TooFewPlaces), [entry(1, 1); 3]);
    for (count, answer) in [(1, few), (2, want), (3, want)] {
        assert_eq!(rt; entered(&job, count), answer, "{count} places");
    }
    Ok(())
}

// No program has more than 256 gates.
#[test]
fn too_many_gates(rt: HostRuntime) {
    let gate = Gate {
        action: Action::One(Single::H, 0),
        timing: None,
    };
    let gates = [gate; 257];
    let answers = [
        write_agenda(&gates, &mut []),
        write_agenda(&gates[..256], &mut []),
    ];
    assert_eq!(rt; answers, [Err(Refusal::ProgramFull), Ok(0)]);
}

// What a direct run on parities answers that is lent so many of 3 places, the places, and what cell 2 tells then.
fn told(job: &ClosedJob, count: usize) -> (Result<usize, Refusal>, [Reading; 3], Option<u64>) {
    let mut register = ParityRegister::new(3);
    let mut places = [UNREAD; 3];
    let answer = job.run_telling(&mut register, &mut places[..count.min(3)]);
    (answer, places, register.tell(2))
}

// Two of four gates read; the register too stays as it was.
#[test]
fn for_readings(rt: HostRuntime) -> Result<(), Refusal> {
    let gates = [('C', 0, 1), ('X', 0, 0), ('R', 1, 0), ('R', 0, 0)];
    let job = job_of(rt.alloc(), &gates, &[0, 2])?;
    let first = Reading { gate: 2, number: 5 };
    let second = Reading {
        gate: 3,
        number: 4294967297,
    };
    let few = (Err(Refusal::TooFewPlaces), [UNREAD; 3], Some(4));
    let want = (Ok(2), [first, second, UNREAD], Some(5));
    for (count, answer) in [(1, few), (2, want), (3, want)] {
        assert_eq!(rt; told(&job, count), answer, "{count} places");
    }
    Ok(())
}
