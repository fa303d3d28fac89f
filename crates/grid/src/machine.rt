ghost use Rattle.std.specs.Prelude.{◌≤◌};

mod calls;

// A grid of 1 to 8 columns and 1 to 8 rows. Its cells are numbered row by row, from 0.
#[derive(Clone, Copy, Debug, PartialEq, Eq)]
pub struct Machine {
    columns: u8,
    rows: u8,
    ghost wide: { (1 ≤ columns) × (columns ≤ 8) },
    ghost high: { (1 ≤ rows) × (rows ≤ 8) },
}
