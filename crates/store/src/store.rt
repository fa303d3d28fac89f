ghost use Rattle.std.specs.Prelude.{◌≤◌, length, vec_capacity};

use calibration::table::CalibrationTable;
use plan::gate::Gate;

mod additions;
mod opening;
mod placing;
mod timing;
mod views;

// What a job holds, open or closed: a calibrated machine, the home of each label or none, and the gates with their timings. There is room for as many gates as a program may have, so that adding one takes no memory.
#[derive(Drop)]
pub struct Store {
    pub table: CalibrationTable,
    pub homes: Vec<Option<u8>>,
    pub gates: Vec<Gate>,
    ghost few_labels: { length homes.items ≤ 32 },
    ghost room: { 256 ≤ vec_capacity gates },
}
