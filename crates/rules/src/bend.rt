ghost use Rattle.grid.specs.Grids.{grid_of};
ghost use Rattle.rules.specs.Bends.{Inside};

use crate::leg::Leg;
use grid::machine::Machine;

mod calls;

// A way with at most one bend between two places of a machine, along the row first or along the column.
#[derive(Clone, Copy, Debug, PartialEq, Eq)]
pub(crate) struct Bend {
    machine: Machine,
    from: (u8, u8),
    to: (u8, u8),
    first: Leg,
    ghost from_inside: { Inside (grid_of machine) from },
    ghost to_inside: { Inside (grid_of machine) to },
}
