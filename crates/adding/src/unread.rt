// Labels that were read already.
ghost use Rattle.std.specs.Prelude.{◌≡◌};
ghost use Rattle.refusal.specs.Refusals.{refuse_if, ok_unless};
ghost use Rattle.circuit.specs.Actions.{is_read, wires};
ghost use Rattle.book.specs.Refusals.{refuse_first, was_read};

use circuit::action::{Action, Single};
use plan::gate::Gate;
use refusal::Refusal;

// Whether the action is a read.
fn is_read(action: Action) -> bool
    ensures { result ≡ is_read action }
{
    match action {
        Action::One(Single::Read, _) => true,
        _ => false,
    }
}

// Whether a gate reads the label.
fn was_read(gates: &[Gate], label: u8) -> bool
    ensures { result ≡ was_read gates.now label }
{
    gates.iter().any(|gate| is_read(gate.action) && gate.action.first_wire() == label)
}

// Refuses a label that a gate reads.
fn check_label(gates: &[Gate], label: u8) -> Result<(), Refusal>
    ensures { result ≡ ok_unless (refuse_if (was_read gates.now label) (Refusal.AlreadyRead label)) tt }
{
    if was_read(gates, label) {
        return Err(Refusal::AlreadyRead(label as usize));
    }
    Ok(())
}

// Refuses an action on a label that a gate reads, the control before the target.
pub(super) fn check_unread(action: Action, gates: &[Gate]) -> Result<(), Refusal>
    ensures { result ≡ ok_unless (refuse_first Refusal.AlreadyRead (was_read gates.now) (wires action)) tt }
{
    match action {
        Action::One(_, label) => check_label(gates, label),
        Action::Cnot(control, target) => {
            check_label(gates, control)?;
            check_label(gates, target)
        }
    }
}
