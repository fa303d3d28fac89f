ghost use Rattle.std.specs.Prelude.{◌≡◌, ◌+◌, ◌<◌, ◌≤◌};
ghost use Rattle.grid.specs.CellSets.{listed_cells};
ghost use Rattle.grid.specs.Members.{has};
ghost use Rattle.route.specs.Ends.{ends_of};
ghost use Rattle.route.specs.Paths.{path_cells};
ghost use Rattle.rules.specs.Bends.{toward as toward_by, bent_place, step_count, bent_path};
ghost use Rattle.rules.specs.Legs.{is_row};
ghost use Rattle.rules.specs.Ways.{along_row, cell_of, way_of};

use crate::bend::Bend;
use crate::leg::Leg;
use grid::cell_set::CellSet;
use route::endpoints::Endpoints;
use route::path::Path;

// The number k steps from a towards b, and no further.
fn toward(a: u8, b: u8, k: u8) -> u8
    ensures { result ≡ toward_by a b k }
{
    if a < b {
        a + k.min(b - a)
    } else {
        a - k.min(a - b)
    }
}

impl Bend {
    // The way between two ends.
    pub(crate) fn new(ends: Endpoints, first: Leg) -> Bend
        ensures { way_of result ≡ bent_path (is_row first) (ends_of ends).grid (ends_of ends).from (ends_of ends).to }
    {
        let machine = ends.machine();
        Bend {
            machine,
            from: machine.place(ends.from()),
            to: machine.place(ends.to()),
            first,
        }
    }

    // How many steps there are.
    fn steps(&self) -> u8
        ensures value { result ≡ step_count self.now.from self.now.to }
        ensures few { result ≤ 14 }
    {
        self.from.0.abs_diff(self.to.0) + self.from.1.abs_diff(self.to.1)
    }

    // The place after k steps.
    fn place(&self, k: u8) -> (u8, u8)
        ensures { result ≡ bent_place (is_row self.now.first) self.now.from self.now.to k }
    {
        let (along_row, along_column) = match self.first {
            Leg::Row => (k, k.saturating_sub(self.from.0.abs_diff(self.to.0))),
            Leg::Column => (k.saturating_sub(self.from.1.abs_diff(self.to.1)), k),
        };
        (
            toward(self.from.0, self.to.0, along_row),
            toward(self.from.1, self.to.1, along_column),
        )
    }

    // The cell after k steps.
    fn cell(&self, k: u8) -> u8
        ensures { result ≡ cell_of self.now k }
    {
        let (x, y) = self.place(k);
        self.machine.number(x, y) as u8
    }

    // Whether the step that follows k steps goes along the row.
    fn is_along_row(&self, k: u8) -> bool
        ensures { result ≡ along_row (is_row self.now.first) self.now.from self.now.to k }
    {
        match self.first {
            Leg::Row => k < self.from.0.abs_diff(self.to.0),
            Leg::Column => k >= self.from.1.abs_diff(self.to.1),
        }
    }

    // The cell one step after that of k steps. By adding to it, since `cell` takes three times as long.
    fn next(&self, k: u8, cell: u8) -> u8
        requires here { cell ≡ cell_of self.now k }
        requires more { k < step_count self.now.from self.now.to }
        ensures { result ≡ cell_of self.now (k + 1) }
    {
        let (columns, _) = self.machine.size();
        match (
            self.is_along_row(k),
            self.from.0 < self.to.0,
            self.from.1 < self.to.1,
        ) {
            (true, true, _) => cell + 1,
            (true, false, _) => cell - 1,
            (false, _, true) => cell + columns,
            (false, _, false) => cell - columns,
        }
    }

    // The path along it.
    pub(crate) fn path(&self) -> Path
        ensures { path_cells result ≡ way_of self.now }
    {
        // A loop over the numbers of the steps, and no `collect`, which is given a heap. A path has room for each, so no push is refused.
        let mut cell = self.cell(0);
        let mut path = Path::new();
        let _ = path.push(cell);
        for k in 0..self.steps() {
            cell = self.next(k, cell);
            let _ = path.push(cell);
        }
        path
    }

    // The set of its cells. By the same walk, since a path that is written only to be read here takes three times as long.
    pub(crate) fn cell_set(&self) -> CellSet
        ensures { has result ≡ listed_cells (way_of self.now) }
    {
        let mut cell = self.cell(0);
        let mut set = CellSet::new();
        set.insert(cell);
        for k in 0..self.steps() {
            cell = self.next(k, cell);
            set.insert(cell);
        }
        set
    }
}
