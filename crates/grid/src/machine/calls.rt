ghost use Rattle.std.specs.Prelude.{◌≡◌, ◌<◌, Decides};
ghost use Rattle.grid.specs.Grids.{sized, grid_as, grid_of, cells as cells_of, number as number_at, place as place_of, next_to, beside, are_neighbours, Neighbours};

use crate::machine::Machine;
use refusal::Refusal;

// Whether the numbers differ by 1.
fn is_next_to(m: u8, n: u8) -> bool
    ensures { result ≡ next_to m n }
{
    m.abs_diff(n) == 1
}

// Whether the places differ by 1 in one coordinate and agree in the other.
fn is_beside(p: (u8, u8), q: (u8, u8)) -> bool
    ensures { result ≡ beside p q }
{
    p.1 == q.1 && is_next_to(p.0, q.0) || p.0 == q.0 && is_next_to(p.1, q.1)
}

impl Machine {
    // A machine of so many columns and rows, each from 1 to 8.
    pub fn new(columns: usize, rows: usize) -> Result<Machine, Refusal>
        ensures { grid_as result ≡ sized columns rows }
    {
        if !(1..=8).contains(&columns) || !(1..=8).contains(&rows) {
            return Err(Refusal::MachineSize);
        }
        Ok(Machine {
            columns: columns as u8,
            rows: rows as u8,
        })
    }

    // How many columns and how many rows there are.
    pub fn size(self) -> (u8, u8)
        ensures { result ≡ ((grid_of self).columns, (grid_of self).rows) }
    {
        (self.columns, self.rows)
    }

    // How many cells there are.
    pub fn cells(self) -> u8
        ensures { result ≡ cells_of (grid_of self) }
    {
        self.rows * self.columns
    }

    // The number of the cell at column x and row y.
    pub fn number(self, x: u8, y: u8) -> u16
        ensures value { result ≡ number_at (grid_of self) x y }
        ensures back { x < (grid_of self).columns → place_of (grid_of self) result ≡ (x, y) }
    {
        u16::from(y) * u16::from(self.columns) + u16::from(x)
    }

    // The column and the row of a cell. A case for each number of columns: the processor divides by a literal many times faster than by a variable, and each step of a route asks for places.
    pub fn place(self, cell: u8) -> (u8, u8)
        ensures value { result ≡ place_of (grid_of self) cell }
        ensures back { number_at (grid_of self) result.0 result.1 ≡ cell }
    {
        match self.columns {
            1 => (0, cell),
            2 => (cell % 2, cell / 2),
            3 => (cell % 3, cell / 3),
            4 => (cell % 4, cell / 4),
            5 => (cell % 5, cell / 5),
            6 => (cell % 6, cell / 6),
            7 => (cell % 7, cell / 7),
            _ => (cell % 8, cell / 8),
        }
    }

    // Whether the cells are on the machine and differ by 1 in one coordinate while they agree in the other.
    pub fn are_neighbours(self, a: u8, b: u8) -> bool
        ensures value { result ≡ are_neighbours (grid_of self) a b }
        ensures means { Decides result (Neighbours (grid_of self) a b) }
    {
        let cells = self.cells();
        a < cells && b < cells && is_beside(self.place(a), self.place(b))
    }
}
