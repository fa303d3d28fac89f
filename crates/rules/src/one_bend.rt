ghost use Rattle.std.specs.Prelude.{◌≡◌, nat_eq};
ghost use Rattle.orders.specs.Lists.{any};
ghost use Rattle.grid.specs.Members.{has};
ghost use Rattle.route.specs.Ends.{ends_of};
ghost use Rattle.rules.specs.Bends.{bent_path, one_bend};
ghost use Rattle.rules.specs.Lawful.{one_bend_lawful};
ghost use Rattle.rules.specs.Legs.{is_row};

use crate::bend::Bend;
use crate::leg::Leg;
use grid::cell_set::CellSet;
use route::endpoints::Endpoints;
use route::path::Path;
use route::rule::RouteRule;

// A path with at most one bend, which reserves its own cells: choice 0 goes along the row first, choice 1 along the column.
#[derive(Clone, Copy, Debug, PartialEq, Eq)]
pub struct OneBend;

// The leg by whether it goes along the row.
fn leg(is_along_row: bool) -> Leg
    ensures { is_row result ≡ is_along_row }
{
    if is_along_row { Leg::Row } else { Leg::Column }
}

// The cells of the path between two ends, along the row first or along the column. Apart from `reserved`, since its proof needs that the path's cells are the machine's.
fn path_cell_set(ends: Endpoints, row_first: bool) -> CellSet
    ensures { has result ≡ (λ c. any (nat_eq c) (bent_path row_first (ends_of ends).grid (ends_of ends).from (ends_of ends).to)) }
{
    Bend::new(ends, leg(row_first)).cell_set()
}

impl RouteRule for OneBend {
    ghost route = { λ x. one_bend };

    ghost lawful = { λ x. one_bend_lawful };

    fn choices(&self) -> u16 {
        2
    }

    fn path(&self, ends: Endpoints, choice: u8) -> Path {
        Bend::new(ends, leg(choice == 0)).path()
    }

    fn reserved(&self, ends: Endpoints, choice: u8) -> CellSet {
        path_cell_set(ends, choice == 0)
    }
}
