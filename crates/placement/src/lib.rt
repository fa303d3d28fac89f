// The homes of labels, and the two constraints on them: a label that is used has one, and no two labels share one.
#![tactic(auto)]

pub mod home;
pub mod homes;
pub mod missing;
pub mod shared;

ghost use Rattle.std.specs.Prelude.{◌≡◌};
ghost use Rattle.refusal.specs.Refusals.{ok_unless};
ghost use Rattle.grid.specs.Grids.{grid_of};
ghost use Rattle.placement.specs.Placements.{homes_broken};

use crate::homes::Homes;
use plan::gate::Gate;
use refusal::Refusal;

impl Homes<'_> {
    // Whether every label that a gate uses has a home and no two labels have the same; otherwise the first constraint that is broken, at its lowest places.
    pub fn check(&self, gates: &[Gate]) -> Result<(), Refusal>
        ensures { result ≡ ok_unless (homes_broken (grid_of self.now.machine) self.now.cells.now gates.now) tt }
    {
        self.check_missing(gates)?;
        self.check_shared()
    }
}
