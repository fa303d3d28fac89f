ghost use Rattle.std.specs.Prelude.{◌≡◌, ℕ};
ghost use Rattle.phase.specs.Phases.{bit_numbers};
ghost use Rattle.phase.specs.Models.{phase_model, phase_blank};
ghost use Rattle.phase.specs.Registers.{phase_state};

use crate::phase_register::PhaseRegister;
use crate::phase_register::calls::{bit_of, takes_kind};
use circuit::action::{Action, Single};
use refusal::Refusal;
use register::rows::row;
use register::{GateRegister, TellingRegister};

impl GateRegister for PhaseRegister {
    ghost model = { phase_model };

    ghost state = { phase_state };

    ghost blank = { phase_blank };

    ghost most = { 0 };

    ghost done = { λ s. 0 };

    fn wires(&self) -> u8 {
        self.wires
    }

    fn takes(&self, kind: Single) -> bool {
        takes_kind(kind)
    }

    fn h_done(&self) -> u32 {
        0
    }

    fn h_most(&self) -> u32 {
        0
    }

    fn apply(&mut self, action: Action) -> Result<(), Refusal> {
        self.check(action)?;
        match action {
            Action::Cnot(control, target) => self.act_cnot(control, target),
            Action::One(Single::Plain(gate), wire) => self.act_plain(row(gate), wire),
            Action::One(Single::H | Single::Read, _) => {}
        }
        Ok(())
    }
}

impl TellingRegister for PhaseRegister {
    ghost mark = { 1 };

    ghost numbers = { λ s. bit_numbers (phase_state s) };

    #[tactic(auto, using(crate::proofs::Tells::phase_tells))]
    fn flip_mark(&self) -> u64 {
        1
    }

    fn tell(&self, wire: u8) -> Option<u64> {
        (wire < self.wires).then(|| u64::from(bit_of(self.bits, wire)))
    }
}
