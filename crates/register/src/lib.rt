// Gate registers: what they do, by their models, and what they are refused for.
#![tactic(auto)]

pub mod check;
pub mod rows;

ghost use Rattle.std.specs.Prelude.{◌≡◌, ℕ, ◌+◌, Bool, true, is_ok, is_err, if◌then◌else◌, Some, None, nat_lt};
ghost use Rattle.refusal.specs.Refusals.{ok_unless};
ghost use Rattle.circuit.specs.Actions.{is_h};
ghost use Rattle.circuit.specs.Operations.{one_if};
ghost use Rattle.register.specs.Models.{Model, Blank};
ghost use Rattle.register.specs.Numbers.{Renumbers};
ghost use Rattle.register.specs.Runs.{capacity, applying_refusal};

use circuit::action::{Action, Single};
use refusal::Refusal;

// A register of wires that gates act on. Its model is lawful by its type, so an implementation without the laws does not pass.
pub trait GateRegister {
    // What actions do to a state, with the laws of actions.
    ghost model: { Model };

    // The state that a register is in.
    ghost state: { Self → model.State };

    // The blank states, and that X on any wire changes them.
    ghost blank: { Blank model };

    // The greatest count of H, and the count so far.
    ghost most: { ℕ };

    ghost done: { Self → ℕ };

    // How many wires it has.
    fn wires(&self) -> u8
        ensures { result ≡ model.size (state self.now) };

    // Whether it takes a kind of one wire; a CNOT it always takes.
    fn takes(&self, kind: Single) -> bool
        ensures { result ≡ model.takes kind };

    // How many H were done.
    fn h_done(&self) -> u32
        ensures { result ≡ done self.now };

    // How many H may be done.
    fn h_most(&self) -> u32
        ensures { result ≡ most };

    // Applies an action, or refuses it and changes nothing.
    fn apply(&mut self, action: Action) -> Result<(), Refusal>
        ensures answer { result ≡ ok_unless (applying_refusal (capacity model most (state self.old) (done self.old) None) action) tt }
        ensures kept { is_err result ≡ true → self.new ≡ self.old }
        ensures acted { state self.new ≡ (if is_ok result then model.act action (state self.old) else state self.old) }
        ensures counted { done self.new ≡ (if is_ok result then done self.old + one_if (is_h action) else done self.old) };
}

// A gate register that also tells each wire's number.
pub trait TellingRegister: GateRegister {
    // What X, and every gate that flips, joins to a wire's number by exclusive or.
    ghost mark: { ℕ };

    // The number of each wire.
    ghost numbers: { Self → ℕ → ℕ };

    // The mark; and the law of the numbers, which change by the actions alone.
    fn flip_mark(&self) -> u64
        ensures value { result ≡ mark }
        ensures laws { Renumbers Self.GateRegister.model Self.GateRegister.state mark numbers };

    // The number of a wire, or none where there is no such wire.
    fn tell(&self, wire: u8) -> Option<u64>
        ensures { result ≡ (if nat_lt wire (Self.GateRegister.model.size (Self.GateRegister.state self.now)) then Some (numbers self.now wire) else None) };
}
