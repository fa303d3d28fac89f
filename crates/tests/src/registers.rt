// The registers at work.
use amplitude::amplitudes::AmplitudeRegister;
use circuit::action::{Action, Plain, Single};
use matrices::Amplitude;
use parity::parity_register::ParityRegister;
use parity::wire_set::WireSet;
use phase::phase_register::PhaseRegister;
use refusal::Refusal;
use register::{GateRegister, TellingRegister};

const H: Action = Action::One(Single::H, 0);

const X: Action = Action::One(Single::Plain(Plain::X), 0);

const Y: Action = Action::One(Single::Plain(Plain::Y), 0);

const T: Action = Action::One(Single::Plain(Plain::T), 0);

// The number a + bω + cω².
fn number(a: i64, b: i64, c: i64) -> Amplitude {
    Amplitude { a, b, c, d: 0 }
}

// Applies actions, until one is refused.
fn apply_all<R: GateRegister>(register: &mut R, actions: &[Action]) -> Result<(), Refusal> {
    for action in actions {
        register.apply(*action)?;
    }
    Ok(())
}

// What an amplitude register of one wire has after actions: its count of H and its amplitudes, of which there is no third.
fn amplitudes_after(actions: &[Action]) -> Result<(u32, [Option<Amplitude>; 3]), Refusal> {
    let mut places = [number(9, 9, 9); 2];
    let mut register = AmplitudeRegister::new(&mut places, 1);
    apply_all(&mut register, actions)?;
    let amplitudes = [
        register.amplitude(0),
        register.amplitude(1),
        register.amplitude(2),
    ];
    Ok((register.h_done(), amplitudes))
}

// H and then T: 1 and ω. H twice: 2 and 0, since nothing is divided. The 61st H is refused.
#[test]
fn amplitudes(rt: HostRuntime) {
    let h = [H; 61];
    let h_then_t = [H, T];
    for (actions, want) in [
        (
            &h_then_t[..],
            Ok((1, [Some(number(1, 0, 0)), Some(number(0, 1, 0)), None])),
        ),
        (
            &h[..2],
            Ok((2, [Some(number(2, 0, 0)), Some(number(0, 0, 0)), None])),
        ),
        (
            &h[..60],
            Ok((
                60,
                [Some(number(1 << 30, 0, 0)), Some(number(0, 0, 0)), None],
            )),
        ),
        (&h[..], Err(Refusal::TooManyH)),
    ] {
        assert_eq!(rt; amplitudes_after(actions), want);
    }
}

// What a phase register of one wire has after actions: what the wire tells, the turn, and the amplitude at 0.
fn phases_after(actions: &[Action]) -> Result<(Option<u64>, u8, Amplitude), Refusal> {
    let mut register = PhaseRegister::new(1);
    apply_all(&mut register, actions)?;
    Ok((register.tell(0), register.turn(), register.amplitude(0)))
}

// X and then Y bring a wire back to 0, with a turn of 6, and no H is taken.
#[test]
fn phases(rt: HostRuntime) {
    let actions = [X, Y, H];
    for (count, want) in [
        (1, Ok((Some(1), 0, number(0, 0, 0)))),
        (2, Ok((Some(0), 6, number(0, 0, -1)))),
        (3, Err(Refusal::KindNotTaken(0))),
    ] {
        assert_eq!(rt; phases_after(&actions[..count]), want);
    }
}

// What a parity register of two wires has after actions: what its wires tell, the set of wire 0, and where the start 1 ends.
fn parities_after(actions: &[Action]) -> Result<([Option<u64>; 2], Option<WireSet>, u64), Refusal> {
    let mut register = ParityRegister::new(2);
    apply_all(&mut register, actions)?;
    let told = [register.tell(0), register.tell(1)];
    Ok((told, register.wire_set(0), register.end_from(1)))
}

// A CNOT makes its target the set of both wires, X marks, and no Y is taken.
#[test]
fn parities(rt: HostRuntime) {
    let actions = [Action::Cnot(0, 1), X, Y];
    let wire_0 = |marked: bool| Some(WireSet { set: 1, marked });
    for (count, want) in [
        (1, Ok(([Some(1), Some(3)], wire_0(false), 3))),
        (2, Ok(([Some(4_294_967_297), Some(3)], wire_0(true), 2))),
        (3, Err(Refusal::KindNotTaken(0))),
    ] {
        assert_eq!(rt; parities_after(&actions[..count]), want);
    }
}
