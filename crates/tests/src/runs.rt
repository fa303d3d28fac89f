// Direct runs and rehearsals at their edges: homes, wires, kinds and the count of H.
use crate::steps::{job_of, letters_at, repeated};
use amplitude::amplitudes::AmplitudeRegister;
use circuit::action::{Action, Plain, Single};
use circuit::operation::Operation;
use job::closed_job::ClosedJob;
use matrices::Amplitude;
use parity::parity_register::ParityRegister;
use phase::phase_register::PhaseRegister;
use refusal::Refusal;
use register::{GateRegister, TellingRegister};
use rehearsal::rehearse;

const NOUGHT: Amplitude = Amplitude {
    a: 0,
    b: 0,
    c: 0,
    d: 0,
};

// What running as many H answers, and then the count of H and the amplitude at 0.
fn more_h(
    register: &mut AmplitudeRegister<'_>,
    job: &ClosedJob,
) -> (Result<usize, Refusal>, u32, Option<i64>) {
    let answer = job.run(register);
    let amplitude = register.amplitude(0);
    (answer, register.h_done(), amplitude.map(|x| x.a))
}

// An amplitude register does 60 H, and no more, in one run or in more; a refused run does none.
#[test]
fn sixty_h(rt: HostRuntime) -> Result<(), Refusal> {
    let mut places = [NOUGHT; 2];
    let mut register = AmplitudeRegister::new(&mut places, 1);
    let refused = Err(Refusal::TooManyH);
    for (count, want) in [
        (61, (refused, 0, Some(1))),
        (59, (Ok(0), 59, Some(1 << 29))),
        (2, (refused, 59, Some(1 << 29))),
        (1, (Ok(0), 60, Some(1 << 30))),
        (1, (refused, 60, Some(1 << 30))),
    ] {
        let job = repeated(rt.alloc(), 'H', count)?;
        assert_eq!(rt; more_h(&mut register, &job), want);
    }
    Ok(())
}

// What a job's run on blank registers is refused for, or its reads: on phases, parities and amplitudes of so many wires.
fn runs(job: &ClosedJob, wires: u8) -> [Result<usize, Refusal>; 3] {
    let mut places = [NOUGHT; 15];
    [
        job.run(&mut PhaseRegister::new(wires)),
        job.run(&mut ParityRegister::new(wires)),
        job.run(&mut AmplitudeRegister::new(&mut places, wires)),
    ]
}

// A cell is a wire or is refused with the gate's number, before a kind is. 65 wires are none for phases, 33 for parities, and 4 for amplitudes in 15 places.
#[test]
fn wires_and_kinds(rt: HostRuntime) -> Result<(), Refusal> {
    let off = Err(Refusal::NotOnWires(0));
    let kind = Err(Refusal::KindNotTaken(1));
    for (letters, cell, wires, want) in [
        ("XYZST", 2, 2, [off, off, off]),
        ("XYZST", 2, 3, [Ok(0), kind, Ok(0)]),
        ("XYZST", 2, 4, [Ok(0), kind, off]),
        ("XHTH", 2, 2, [off, off, off]),
        ("XHTH", 2, 3, [kind, kind, Ok(0)]),
        ("X", 31, 32, [Ok(0), Ok(0), off]),
        ("X", 31, 33, [Ok(0), off, off]),
        ("X", 63, 64, [Ok(0), off, off]),
        ("X", 63, 65, [off, off, off]),
    ] {
        let job = letters_at(rt.alloc(), letters, cell)?;
        assert_eq!(rt; runs(&job, wires), want, "{letters} at {cell} on {wires}");
    }
    Ok(())
}

// A label that a gate uses has a home, which no other label has.
#[test]
fn homes(rt: HostRuntime) -> Result<(), Refusal> {
    let none = job_of(rt.alloc(), &[('C', 0, 1)], &[0])?;
    let shared = job_of(rt.alloc(), &[('C', 0, 1)], &[0, 0])?;
    let want = [
        [Err(Refusal::NoHome(1)); 3],
        [Err(Refusal::SharedHome(0, 1)); 3],
    ];
    assert_eq!(rt; [runs(&none, 3), runs(&shared, 3)], want);
    Ok(())
}

fn operation(action: Action) -> Operation {
    Operation {
        start: 0,
        length: 1,
        action,
        gate: 7,
    }
}

// What rehearsing three actions on a blank phase register of two wires answers, and what its wires tell then.
fn rehearsed(actions: [Action; 3]) -> (Result<usize, Refusal>, [Option<u64>; 3]) {
    let [first, second, third] = actions;
    let mut register = PhaseRegister::new(2);
    let operations = [operation(first), operation(second), operation(third)];
    let answer = rehearse(&mut register, &operations);
    let told = [register.tell(0), register.tell(1), register.tell(2)];
    (answer, told)
}

// Operations are refused by their positions: first any off the wires, then any of another kind. The register is as it was then.
#[test]
fn positions(rt: HostRuntime) {
    let x = Action::One(Single::Plain(Plain::X), 0);
    let h = Action::One(Single::H, 0);
    let before = [Some(0), Some(0), None];
    for (actions, want) in [
        (
            [x, h, Action::Cnot(1, 1)],
            (Err(Refusal::NotOnWires(2)), before),
        ),
        (
            [x, Action::Cnot(0, 2), h],
            (Err(Refusal::NotOnWires(1)), before),
        ),
        (
            [x, Action::Cnot(0, 1), h],
            (Err(Refusal::KindNotTaken(2)), before),
        ),
        (
            [x, Action::Cnot(0, 1), x],
            (Ok(0), [Some(0), Some(1), None]),
        ),
    ] {
        assert_eq!(rt; rehearsed(actions), want);
    }
}
