ghost use Rattle.std.specs.Prelude.{◌≤◌, ◌<◌};

mod amplitudes;
mod calls;
mod gates;

// At most 64 wires, a bit each, and one turn for all: the state is ω to the turn at one assignment of bits.
#[derive(Clone, Copy, Debug, PartialEq, Eq)]
pub struct PhaseRegister {
    wires: u8,
    turn: u8,
    bits: u64,
    ghost few: { wires ≤ 64 },
    ghost turned: { turn < 8 },
}
