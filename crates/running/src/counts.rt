// How many H and how many reads a list of operations has.
ghost use Rattle.std.specs.Prelude.{◌≡◌};
ghost use Rattle.circuit.specs.Actions.{is_read};
ghost use Rattle.circuit.specs.Operations.{h_count, read_count};

use circuit::action::{Action, Single};
use circuit::operation::Operation;
use register::check::is_h;

// Whether the action is a read.
fn is_read(action: Action) -> bool
    ensures { result ≡ is_read action }
{
    matches!(action, Action::One(Single::Read, _))
}

// How many H there are.
pub(crate) fn count_h(operations: &[Operation]) -> usize
    ensures { result ≡ h_count operations.now }
{
    operations
        .iter()
        .filter(|operation| is_h(operation.action))
        .count()
}

// How many reads there are.
pub fn count_reads(operations: &[Operation]) -> usize
    ensures { result ≡ read_count operations.now }
{
    operations
        .iter()
        .filter(|operation| is_read(operation.action))
        .count()
}
