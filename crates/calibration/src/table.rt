ghost use Rattle.std.specs.Prelude.{◌≡◌, length};
ghost use Rattle.grid.specs.Grids.{grid_of, cells as cells_of};
ghost use Rattle.calibration.specs.Calibrations.{InRange};

use crate::values::Calibration;
use grid::machine::Machine;

mod calls;
mod links;

// A machine with the calibration of each of its cells, every value in its range.
#[derive(Drop)]
pub struct CalibrationTable {
    machine: Machine,
    cells: Vec<Calibration>,
    ghost whole: { length cells.items ≡ cells_of (grid_of machine) },
    ghost ranged: { InRange (grid_of machine) cells.items },
}
