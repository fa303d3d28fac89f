ghost use Rattle.std.specs.Prelude.{◌≡◌, ◌<◌};
ghost use Rattle.matrices.specs.Numbers.{omega_power};
ghost use Rattle.phase.specs.Registers.{phase_state};
ghost use Rattle.phase.specs.Vectors.{phase_vector, PhaseMultiplies};

use crate::phase_register::PhaseRegister;
use matrices::Amplitude;

// A number a + bω + cω² + dω³.
fn number(a: i64, b: i64, c: i64, d: i64) -> Amplitude
    ensures { result ≡ record { a = a; b = b; c = c; d = d } }
{
    Amplitude { a, b, c, d }
}

// ω to a turn.
fn power(turn: u8) -> Amplitude
    requires { turn < 8 }
    ensures { result ≡ omega_power turn }
{
    match turn {
        0 => number(1, 0, 0, 0),
        1 => number(0, 1, 0, 0),
        2 => number(0, 0, 1, 0),
        3 => number(0, 0, 0, 1),
        4 => number(-1, 0, 0, 0),
        5 => number(0, -1, 0, 0),
        6 => number(0, 0, -1, 0),
        _ => number(0, 0, 0, -1),
    }
}

impl PhaseRegister {
    // The turn, 0 to 7.
    pub fn turn(self) -> u8
        ensures value { result ≡ (phase_state self).turn }
        ensures range { result < 8 }
    {
        self.turn
    }

    // The register's state as a vector: its amplitude at an index, whose bit w is that of wire w. Acting on the register is multiplying this vector by the action's matrix.
    #[tactic(auto, using(crate::proofs::Multiplies::phase_multiplies))]
    pub fn amplitude(self, index: u64) -> Amplitude
        ensures value { result ≡ phase_vector (phase_state self) index }
        ensures multiplies { PhaseMultiplies }
    {
        if index == self.bits {
            power(self.turn)
        } else {
            number(0, 0, 0, 0)
        }
    }
}
