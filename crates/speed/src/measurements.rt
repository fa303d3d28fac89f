// The calls that are measured.
use crate::programs::{Program, Size, job_of};
use amplitude::amplitudes::AmplitudeRegister;
use circuit::action::{Action, Plain, Single};
use circuit::operation::Operation;
use job::closed_job::ClosedJob;
use matrices::Amplitude;
use parity::parity_register::ParityRegister;
use phase::phase_register::PhaseRegister;
use refusal::Refusal;
use register::{GateRegister, TellingRegister};
use rehearsal::rehearse;
use rules::one_bend::OneBend;

// Room for the longest listing: 256 CNOTs from corner to corner.
const PLACES: usize = 20_224;

const NO_OPERATION: Operation = Operation {
    start: 0,
    length: 0,
    action: Action::Cnot(0, 0),
    gate: 0,
};

const NOUGHT: Amplitude = Amplitude {
    a: 0,
    b: 0,
    c: 0,
    d: 0,
};

// From corner to corner of the greatest machine.
const GREATEST: Size = Size {
    columns: 8,
    rows: 8,
    labels: 2,
    apart: 63,
};

fn list(job: &ClosedJob, places: &mut [Operation]) -> Result<usize, Refusal> {
    job.list::<OneBend, AmplitudeRegister<'_>, PhaseRegister>(&OneBend, places)
}

// A sum with one more number.
fn plus(sum: u64, number: usize, start: u32) -> u64 {
    sum.wrapping_add(number as u64).wrapping_add(start as u64)
}

// A sum with what a register tells.
fn with_told(sum: u64, told: Option<u64>) -> u64 {
    sum.wrapping_mul(3).wrapping_add(told.unwrap_or(7))
}

// A sum with an amplitude.
fn with_amplitude(sum: u64, amplitude: Option<Amplitude>) -> u64 {
    let x = amplitude.unwrap_or(NOUGHT);
    let parts = x.b.unsigned_abs().wrapping_mul(5);
    sum.wrapping_mul(3)
        .wrapping_add(x.a.unsigned_abs())
        .wrapping_add(parts)
}

// The start of an operation.
fn start_at(places: &[Operation], round: u32) -> u32 {
    places
        .get(round as usize % PLACES)
        .map_or(0, |operation| operation.start)
}

// Judging 256 gates on 32 labels.
fn judging(rt: &HostRuntime, rounds: u32) -> anyhow::Result<u64> {
    let size = Size {
        columns: 8,
        rows: 8,
        labels: 32,
        apart: 2,
    };
    let job = job_of(rt, size, Program::Mixed)?;
    let mut sum = 0u64;
    for _ in 0..rounds {
        sum = sum.wrapping_add(job.judge(&OneBend)?);
    }
    Ok(sum)
}

// Listing 20,224 operations.
fn listing(rt: &HostRuntime, rounds: u32) -> anyhow::Result<u64> {
    let job = job_of(rt, GREATEST, Program::ToAndFro)?;
    let mut places = vec![in rt.alloc(); NO_OPERATION; PLACES]?;
    let mut sum = 0u64;
    for round in 0..rounds {
        let count = list(&job, &mut places)?;
        sum = plus(sum, count, start_at(&places, round));
    }
    Ok(sum)
}

// The listing of a program's job.
fn listed(rt: &HostRuntime, size: Size, program: Program) -> anyhow::Result<Vec<Operation>> {
    let job = job_of(rt, size, program)?;
    let mut places = vec![in rt.alloc(); NO_OPERATION; PLACES]?;
    let count = list(&job, &mut places)?;
    places.truncate(count);
    Ok(places)
}

// Rehearsing on the phase register, after an X on its first wire.
fn on_phase(rt: &HostRuntime, rounds: u32) -> anyhow::Result<u64> {
    let operations = listed(rt, GREATEST, Program::ToAndFro)?;
    let mut register = PhaseRegister::new(64);
    let mut sum = 0u64;
    for _ in 0..rounds {
        register.apply(Action::One(Single::Plain(Plain::X), 0))?;
        rehearse(&mut register, &operations)?;
        sum = with_told(sum, register.tell(63));
    }
    Ok(sum)
}

// Rehearsing on the parity register.
fn on_parity(rt: &HostRuntime, rounds: u32) -> anyhow::Result<u64> {
    let size = Size {
        columns: 8,
        rows: 4,
        labels: 2,
        apart: 31,
    };
    let operations = listed(rt, size, Program::ToAndFro)?;
    let mut register = ParityRegister::new(32);
    let mut sum = 0u64;
    for _ in 0..rounds {
        rehearse(&mut register, &operations)?;
        sum = with_told(sum, register.tell(31));
    }
    Ok(sum)
}

// An amplitude after operations on a blank register in the places.
fn amplitude_after(
    places: &mut [Amplitude],
    operations: &[Operation],
    index: usize,
) -> Result<Option<Amplitude>, Refusal> {
    let mut register = AmplitudeRegister::new(places, 10);
    rehearse(&mut register, operations)?;
    Ok(register.amplitude(index))
}

// Rehearsing on the amplitude register, a blank one each time.
fn on_amplitude(rt: &HostRuntime, rounds: u32) -> anyhow::Result<u64> {
    let size = Size {
        columns: 5,
        rows: 2,
        labels: 10,
        apart: 1,
    };
    let operations = listed(rt, size, Program::Mixed)?;
    let mut places = [NOUGHT; 1024];
    let mut sum = 0u64;
    for round in 0..rounds {
        let amplitude = amplitude_after(&mut places, &operations, round as usize % 1024)?;
        sum = with_amplitude(sum, amplitude);
    }
    Ok(sum)
}

// The measurement with this name, if there is one.
pub(crate) fn measure(rt: &HostRuntime, name: &str, rounds: u32) -> anyhow::Result<Option<u64>> {
    Ok(match name {
        "judge" => Some(judging(rt, rounds)?),
        "list" => Some(listing(rt, rounds)?),
        "phase" => Some(on_phase(rt, rounds)?),
        "parity" => Some(on_parity(rt, rounds)?),
        "amplitude" => Some(on_amplitude(rt, rounds)?),
        _ => None,
    })
}
