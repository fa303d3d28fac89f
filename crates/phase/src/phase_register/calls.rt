ghost use Rattle.std.specs.Prelude.{◌≡◌, ◌<◌, None};
ghost use Rattle.bits.specs.Bits.{bit};
ghost use Rattle.refusal.specs.Refusals.{ok_unless};
ghost use Rattle.register.specs.Models.{is_taken};
ghost use Rattle.register.specs.Runs.{capacity, applying_refusal};
ghost use Rattle.matrices.specs.Indices.{flipped};
ghost use Rattle.phase.specs.Phases.{blank_state, wires_made, phase_takes, plain_acted, cnot_acted};
ghost use Rattle.phase.specs.Models.{phase_model};
ghost use Rattle.phase.specs.Registers.{phase_state};

use crate::phase_register::PhaseRegister;
use circuit::action::{Action, Single};
use refusal::Refusal;
use register::check::is_off_wires;
use register::rows::PlainRow;

// Whether the register takes a kind of one wire: all but H.
pub(crate) fn takes_kind(kind: Single) -> bool
    ensures { result ≡ phase_takes kind }
{
    !matches!(kind, Single::H)
}

// Whether it takes an action's kind: a CNOT it always takes.
fn takes_action(action: Action) -> bool
    ensures { result ≡ is_taken phase_takes action }
{
    match action {
        Action::One(kind, _) => takes_kind(kind),
        Action::Cnot(_, _) => true,
    }
}

// The bit of a wire.
pub(crate) fn bit_of(bits: u64, wire: u8) -> bool
    requires { wire < 64 }
    ensures { result ≡ bit bits wire }
{
    (bits >> wire) % 2 == 1
}

// The bits with that of a wire flipped.
#[tactic(auto, using(crate::proofs::Words::flip_word))]
fn flip(bits: u64, wire: u8) -> u64
    requires { wire < 64 }
    ensures { result ≡ flipped wire bits }
{
    bits ^ (1 << wire)
}

impl PhaseRegister {
    // A blank register: all bits 0, and no turn. One of 0 wires, or of more than 64, is made without wires, and refuses every action.
    pub fn new(wires: u8) -> PhaseRegister
        ensures { phase_state result ≡ blank_state (wires_made wires) }
    {
        PhaseRegister {
            wires: if wires <= 64 { wires } else { 0 },
            turn: 0,
            bits: 0,
        }
    }

    // Why the register does not take an action, or that it does.
    pub(crate) fn check(&self, action: Action) -> Result<(), Refusal>
        ensures { result ≡ ok_unless (applying_refusal (capacity phase_model 0 (phase_state self.now) 0 None) action) tt }
    {
        if is_off_wires(self.wires, action) {
            return Err(Refusal::NotOnWires(0));
        }
        if !takes_action(action) {
            return Err(Refusal::KindNotTaken(0));
        }
        Ok(())
    }

    // A plain gate, by its row.
    pub(crate) fn act_plain(&mut self, row: PlainRow, wire: u8)
        requires { wire < 64 }
        ensures { phase_state self.new ≡ plain_acted row wire (phase_state self.old) }
    {
        let turn = if bit_of(self.bits, wire) {
            row.turn1
        } else {
            row.turn0
        };
        self.turn = (self.turn + turn % 8) % 8;
        if row.flips {
            self.bits = flip(self.bits, wire);
        }
    }

    // A CNOT.
    pub(crate) fn act_cnot(&mut self, control: u8, target: u8)
        requires { (control < 64) × (target < 64) }
        ensures { phase_state self.new ≡ cnot_acted control target (phase_state self.old) }
    {
        if bit_of(self.bits, control) {
            self.bits = flip(self.bits, target);
        }
    }
}
