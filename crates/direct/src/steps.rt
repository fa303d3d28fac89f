// The operations of a direct run.
ghost use Rattle.std.specs.Prelude.{◌≡◌, ◌≤◌, length, take};
ghost use Rattle.circuit.specs.Actions.{carry};
ghost use Rattle.plan.specs.Plans.{home};
ghost use Rattle.plan.specs.Blocks.{direct};
ghost use Rattle.direct.specs.Directs.{placed_plan};

use circuit::action::{Action, Single};
use circuit::operation::Operation;
use placement::home::*;
use placement::homes::Homes;
use plan::gate::Gate;

// What stands in a place before an operation is written there.
pub(super) fn no_step() -> Operation {
    Operation {
        start: 0,
        length: 0,
        action: Action::One(Single::H, 0),
        gate: 0,
    }
}

// The action of a gate at the homes of its labels.
fn at_homes(homes: &Homes, action: Action) -> Action
    ensures { (gates : _) → result ≡ carry (home (placed_plan homes.now gates)) action }
{
    match action {
        Action::One(kind, label) => Action::One(kind, homes.cell_of(label)),
        Action::Cnot(control, target) => {
            Action::Cnot(homes.cell_of(control), homes.cell_of(target))
        }
    }
}

// Writes the operation of each gate, in program order. By index: after a loop over `steps.iter_mut().zip(gates)` no proof knows what `steps` holds.
pub(super) fn write_steps(homes: &Homes, gates: &[Gate], steps: &mut [Operation])
    requires { (length gates.now ≤ 256) × (length gates.now ≤ length steps.old) }
    ensures { take (length gates.now) steps.new ≡ direct (placed_plan homes.now gates.now) }
{
    for (number, gate) in gates.iter().enumerate() {
        steps[number] = Operation {
            start: 0,
            length: 0,
            action: at_homes(homes, gate.action),
            gate: number as u16,
        };
    }
}
