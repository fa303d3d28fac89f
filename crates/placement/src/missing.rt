// The first constraint: a label that a gate uses has a home.
ghost use Rattle.std.specs.Prelude.{◌≡◌};
ghost use Rattle.std.specs.Option.{option_map};
ghost use Rattle.refusal.specs.Refusals.{ok_unless};
ghost use Rattle.grid.specs.Grids.{grid_of};
ghost use Rattle.plan.specs.Verdicts.{past_labels};
ghost use Rattle.placement.specs.Placements.{uses, label_bound, missing_at, missing};

use crate::homes::Homes;
use circuit::action::Action;
use circuit::wires::*;
use plan::gate::Gate;
use refusal::Refusal;

// Whether a gate uses a label.
fn is_used(gates: &[Gate], label: usize) -> bool
    ensures { result ≡ uses gates.now label }
{
    gates.iter().any(|gate| gate.action.names(label))
}

// One more than the greatest label of an action.
fn past_labels(action: Action) -> usize
    ensures { result ≡ past_labels action }
{
    match action {
        Action::One(_, a) => a as usize + 1,
        Action::Cnot(a, b) => a.max(b) as usize + 1,
    }
}

// One more than the greatest label that is used.
fn bound_of_labels(gates: &[Gate]) -> usize
    ensures { result ≡ label_bound gates.now }
{
    gates
        .iter()
        .map(|gate| past_labels(gate.action))
        .max()
        .unwrap_or(0)
}

impl Homes<'_> {
    // Whether the label is used and has no home.
    fn is_missing(&self, gates: &[Gate], label: usize) -> bool
        ensures { result ≡ missing_at (grid_of self.now.machine) self.now.cells.now gates.now label }
    {
        self.home(label).is_none() && is_used(gates, label)
    }

    // The lowest label that is used and has no home.
    fn lowest_missing(&self, gates: &[Gate]) -> Option<usize>
        ensures { option_map Refusal.NoHome result ≡ missing (grid_of self.now.machine) self.now.cells.now gates.now }
    {
        (0..bound_of_labels(gates)).find(|label| self.is_missing(gates, *label))
    }

    // Refuses the lowest label that is used and has no home.
    pub(super) fn check_missing(&self, gates: &[Gate]) -> Result<(), Refusal>
        ensures { result ≡ ok_unless (missing (grid_of self.now.machine) self.now.cells.now gates.now) tt }
    {
        // A match: `map_or(Ok(()), ..)` would hide what is answered where nothing is found.
        match self.lowest_missing(gates) {
            Some(label) => Err(Refusal::NoHome(label)),
            None => Ok(()),
        }
    }
}
