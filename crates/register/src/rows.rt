ghost use Rattle.std.specs.Prelude.{◌≡◌};
ghost use Rattle.register.specs.Rows.{plain_row};

use circuit::action::Plain;

// How a plain gate acts on one wire: whether it flips the wire, and how far it turns the phase from 0 and from 1. A turn by n multiplies by ω to the n, where ω⁴ = −1.
#[derive(Clone, Copy, PartialEq, Eq, Debug)]
pub struct PlainRow {
    pub flips: bool,
    pub turn0: u8,
    pub turn1: u8,
}

// The rows of X, Y, Z, S and T, in the order of `Plain`. One constant table, a rule of the project, so that each law is proved over all rows.
const ROWS: [PlainRow; 5] = [
    PlainRow {
        flips: true,
        turn0: 0,
        turn1: 0,
    },
    PlainRow {
        flips: true,
        turn0: 2,
        turn1: 6,
    },
    PlainRow {
        flips: false,
        turn0: 0,
        turn1: 4,
    },
    PlainRow {
        flips: false,
        turn0: 0,
        turn1: 2,
    },
    PlainRow {
        flips: false,
        turn0: 0,
        turn1: 1,
    },
];

// The row of a plain gate.
pub fn row(gate: Plain) -> PlainRow
    ensures { result ≡ plain_row gate }
{
    ROWS[gate as usize]
}
