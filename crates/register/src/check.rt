// What a single action is refused for.
ghost use Rattle.std.specs.Prelude.{◌≡◌, ◌+◌, None, nat_lt};
ghost use Rattle.refusal.specs.Refusals.{ok_unless};
ghost use Rattle.circuit.specs.Actions.{is_h};
ghost use Rattle.register.specs.Models.{is_taken};
ghost use Rattle.register.specs.Runs.{capacity, is_off_wires, applying_refusal};

use crate::GateRegister;
use circuit::action::{Action, Single};
use refusal::Refusal;

// Whether the action names a wire beyond the last, or is a CNOT with one wire twice.
pub fn is_off_wires(wires: u8, action: Action) -> bool
    ensures { result ≡ is_off_wires wires action }
{
    match action {
        Action::One(_, a) => a >= wires,
        Action::Cnot(a, b) => a >= wires || b >= wires || a == b,
    }
}

// Whether the register takes the action's kind.
pub fn is_taken<G: GateRegister>(register: &G, action: Action) -> bool
    ensures { result ≡ is_taken G.GateRegister.model.takes action }
{
    match action {
        Action::One(kind, _) => register.takes(kind),
        Action::Cnot(_, _) => true,
    }
}

// Whether the action is an H.
pub fn is_h(action: Action) -> bool
    ensures { result ≡ is_h action }
{
    matches!(action, Action::One(Single::H, _))
}

// Whether so many H more are too many.
pub fn is_past(done: u32, most: u32, more: usize) -> bool
    ensures { result ≡ nat_lt most (done + more) }
{
    (done as usize).saturating_add(more) > most as usize
}

// Why the register does not take an action, or that it does.
pub fn check_action<G: GateRegister>(register: &G, action: Action) -> Result<(), Refusal>
    ensures { result ≡ ok_unless (applying_refusal (capacity G.GateRegister.model G.GateRegister.most (G.GateRegister.state register.now) (G.GateRegister.done register.now) None) action) tt }
{
    if is_off_wires(register.wires(), action) {
        return Err(Refusal::NotOnWires(0));
    }
    if !is_taken(register, action) {
        return Err(Refusal::KindNotTaken(0));
    }
    if is_past(register.h_done(), register.h_most(), is_h(action) as usize) {
        return Err(Refusal::TooManyH);
    }
    Ok(())
}
