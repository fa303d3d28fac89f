ghost use Rattle.std.specs.Prelude.{◌≡◌, ℕ, ◌*◌, ◌≤◌, length, sum_by};
ghost use Rattle.cnot.specs.declared.link.Link.{Link};
ghost use Rattle.route.specs.Paths.{path_cells};
ghost use Rattle.cnot.specs.Links.{times_of, links, time_over};
ghost use Rattle.cnot.specs.Steps.{lasting, routed};

use crate::link::Link;
use calibration::table::CalibrationTable;
use route::path::Path;

// How many operations a CNOT along the path has: six for each link but the last, and one.
#[tactic(auto, using(crate::proofs::Routed::length_along))]
pub fn operation_count(path: &Path) -> usize
    ensures { (time : ℕ → ℕ → ℕ) → result ≡ length (routed (links time (path_cells path.now))) }
{
    let cells = path.cells().len();
    if cells < 2 { 0 } else { 6 * (cells - 2) + 1 }
}

// The times of the links along cells together.
fn total_time(table: &CalibrationTable, cells: &[u8]) -> u32
    requires { length cells.now ≤ 64 }
    ensures value { result ≡ sum_by (λ (l : Link). l.time) (links (times_of table.now) cells.now) }
    ensures few { result ≤ 1000 * length cells.now }
{
    cells
        .array_windows::<2>()
        .map(|ends| Link::between(table, ends).time)
        .sum()
}

// How long a CNOT along the path lasts: with link times d1 .. dm, 6 (d1 + .. + d(m-1)) + dm.
#[tactic(auto, using(crate::proofs::Routed::times))]
pub fn route_time(table: &CalibrationTable, path: &Path) -> u32
    ensures value { result ≡ time_over (links (times_of table.now) (path_cells path.now)) }
    ensures lasts { result ≡ lasting (routed (links (times_of table.now) (path_cells path.now))) }
{
    let cells = path.cells();
    let Some(last) = cells.last_chunk::<2>() else {
        return 0;
    };
    6 * total_time(table, &cells[..cells.len() - 1]) + Link::between(table, last).time
}
