ghost use Rattle.std.specs.Prelude.{◌≡◌, ◌<◌, ◌≢◌};
ghost use Rattle.grid.specs.Grids.{grid_of, cells as cells_of};

use grid::machine::Machine;

mod calls;

// Two different cells of a machine.
#[derive(Clone, Copy, Debug, PartialEq, Eq)]
pub struct Endpoints {
    machine: Machine,
    from: u8,
    to: u8,
    ghost within: { (from < cells_of (grid_of machine)) × (to < cells_of (grid_of machine)) },
    ghost apart: { from ≢ to },
}
