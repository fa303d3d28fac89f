// The second constraint: no two placed labels have one home.
ghost use Rattle.std.specs.Prelude.{◌≡◌};
ghost use Rattle.std.specs.Option.{option_map};
ghost use Rattle.refusal.specs.Refusals.{ok_unless};
ghost use Rattle.grid.specs.Grids.{grid_of};
ghost use Rattle.plan.specs.Verdicts.{same_home};
ghost use Rattle.placement.specs.Placements.{shared};

use crate::homes::Homes;
use refusal::Refusal;
use search::first_pair;

// Whether both labels are placed, on one cell.
fn same_home(one: Option<u8>, other: Option<u8>) -> bool
    ensures { result ≡ same_home one other }
{
    one.is_some() && one == other
}

impl Homes<'_> {
    // The lowest two labels that share a home.
    fn lowest_shared(&self) -> Option<(usize, usize)>
        ensures { option_map (λ q. Refusal.SharedHome q.0 q.1) result ≡ shared (grid_of self.now.machine) self.now.cells.now }
    {
        first_pair(self.cells, |one: &Option<u8>, other: &Option<u8>| {
            same_home(self.on_machine(*one), self.on_machine(*other))
        })
    }

    // Refuses the lowest two labels that share a home.
    pub(super) fn check_shared(&self) -> Result<(), Refusal>
        ensures { result ≡ ok_unless (shared (grid_of self.now.machine) self.now.cells.now) tt }
    {
        // A match: `map_or(Ok(()), ..)` would hide what is answered where nothing is found.
        match self.lowest_shared() {
            Some((lower, higher)) => Err(Refusal::SharedHome(lower, higher)),
            None => Ok(()),
        }
    }
}
