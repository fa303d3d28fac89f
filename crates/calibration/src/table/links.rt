ghost use Rattle.std.specs.Prelude.{◌≡◌};
ghost use Rattle.calibration.specs.Calibrations.{time_over_gap, link_time};
ghost use Rattle.calibration.specs.Tables.{table_grid, table_values};

use crate::table::CalibrationTable;
use crate::values::Calibration;

// The time of the link from a cell with these values to the one whose number is so much higher. Where there is no link to the east, its time is 0.
fn time_over_gap(columns: u8, values: Calibration, gap: u8) -> u32
    ensures { result ≡ time_over_gap columns values gap }
{
    match gap {
        1 if values.east > 0 => values.east,
        _ if gap == columns => values.south,
        _ => 0,
    }
}

impl CalibrationTable {
    // The time of the link between two neighbours, the same both ways; 0 where the cells are no neighbours.
    // No `Option`: sums over a path then need no cases (docs/DECISIONS.md).
    // By the numbers of the cells, not by their places, which take divisions: a path asks for each of its links.
    pub fn link_time(&self, a: u8, b: u8) -> u32
        ensures value { result ≡ link_time (table_grid self.now) (table_values self.now) a b }
        ensures both_ways { result ≡ link_time (table_grid self.now) (table_values self.now) b a }
    {
        let (lower, upper) = (a.min(b), a.max(b));
        if upper >= self.machine.cells() {
            return 0;
        }
        let (columns, _) = self.machine.size();
        time_over_gap(columns, self.cells[usize::from(lower)], upper - lower)
    }
}
