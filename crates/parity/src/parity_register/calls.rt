ghost use Rattle.std.specs.Prelude.{◌≡◌, ◌<◌, ◌^◌, None};
ghost use Rattle.refusal.specs.Refusals.{ok_unless};
ghost use Rattle.register.specs.Models.{is_taken};
ghost use Rattle.register.specs.Runs.{capacity, applying_refusal};
ghost use Rattle.parity.specs.Parities.{blank_state, joined, parity_model, parity_takes, wires_made};
ghost use Rattle.parity.specs.Registers.{parity_state};

use crate::parity_register::ParityRegister;
use circuit::action::{Action, Plain, Single};
use refusal::Refusal;
use register::check::is_off_wires;

// Whether the register takes a kind of one wire: X and reads.
pub(crate) fn takes_kind(kind: Single) -> bool
    ensures { result ≡ parity_takes kind }
{
    matches!(kind, Single::Plain(Plain::X) | Single::Read)
}

// Whether it takes an action's kind: a CNOT it always takes.
fn takes_action(action: Action) -> bool
    ensures { result ≡ is_taken parity_takes action }
{
    match action {
        Action::One(kind, _) => takes_kind(kind),
        Action::Cnot(_, _) => true,
    }
}

impl ParityRegister {
    // A blank register: each wire is the set of itself, unmarked. One of 0 wires, or of more than 32, is made without wires, and refuses every action.
    #[tactic(auto, using(crate::proofs::Words::words_more, crate::proofs::Words::words_blank, crate::proofs::Words::small_blank))]
    pub fn new(wires: u8) -> ParityRegister
        ensures { parity_state result ≡ blank_state (wires_made wires) }
    {
        let mut words = [0; 32];
        for wire in 0..32 {
            words[wire] = 1 << wire;
        }
        ParityRegister {
            wires: if wires <= 32 { wires } else { 0 },
            words,
        }
    }

    // Why the register does not take an action, or that it does.
    pub(crate) fn check(&self, action: Action) -> Result<(), Refusal>
        ensures { result ≡ ok_unless (applying_refusal (capacity parity_model 0 (parity_state self.now) 0 None) action) tt }
    {
        if is_off_wires(self.wires, action) {
            return Err(Refusal::NotOnWires(0));
        }
        if !takes_action(action) {
            return Err(Refusal::KindNotTaken(0));
        }
        Ok(())
    }

    // Joins a word to a wire's by exclusive or.
    #[tactic(auto, using(crate::proofs::Words::words_joined, crate::proofs::Words::small_joined))]
    pub(crate) fn join(&mut self, word: u64, wire: u8)
        requires { (wire < 32) × (word < 2 ^ 33) }
        ensures { parity_state self.new ≡ joined word wire (parity_state self.old) }
    {
        self.words[wire as usize] ^= word;
    }
}
