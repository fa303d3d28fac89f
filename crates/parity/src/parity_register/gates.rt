ghost use Rattle.std.specs.Prelude.{◌≡◌, ℕ, ◌^◌};
ghost use Rattle.parity.specs.Parities.{parity_model, parity_blank, mark_of};
ghost use Rattle.parity.specs.Registers.{parity_state};

use crate::parity_register::ParityRegister;
use crate::parity_register::calls::takes_kind;
use circuit::action::{Action, Single};
use refusal::Refusal;
use register::{GateRegister, TellingRegister};

// The mark, as bit 32 of a wire's word.
const MARK: u64 = 1 << 32;

impl GateRegister for ParityRegister {
    ghost model = { parity_model };

    ghost state = { parity_state };

    ghost blank = { parity_blank };

    ghost most = { 0 };

    ghost done = { λ s. 0 };

    fn wires(&self) -> u8 {
        self.wires
    }

    fn takes(&self, kind: Single) -> bool {
        takes_kind(kind)
    }

    fn h_done(&self) -> u32 {
        0
    }

    fn h_most(&self) -> u32 {
        0
    }

    fn apply(&mut self, action: Action) -> Result<(), Refusal> {
        self.check(action)?;
        match action {
            Action::Cnot(control, target) => self.join(self.words[control as usize], target),
            Action::One(Single::Plain(_), wire) => self.join(MARK, wire),
            Action::One(Single::H | Single::Read, _) => {}
        }
        Ok(())
    }
}

impl TellingRegister for ParityRegister {
    ghost mark = { mark_of };

    ghost numbers = { λ s. (parity_state s).words };

    fn flip_mark(&self) -> u64 {
        MARK
    }

    fn tell(&self, wire: u8) -> Option<u64> {
        (wire < self.wires).then(|| self.words[wire as usize])
    }
}
