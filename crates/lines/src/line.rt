use std::marker::Model;

mod calls;

// A line that is being read, without its line feed. It has room for 80 bytes and one more: of a longer line it keeps the first 81, which shows that it is too long.
#[derive(Clone, Copy, Debug, PartialEq, Eq)]
pub struct Line {
    // Places beyond the length hold 0.
    places: [u8; 81],
    len: usize,
}

// Clauses see the bytes that are kept.
impl Model for Line {
    ghost use Rattle.std.specs.Prelude.{List, ℕ};

    ghost Value = { List ℕ };

    ghost use Rattle.lines.specs.Held.{bytes_held, held_as, Padded, held_inverse};

    ghost view = { bytes_held };

    ghost invariant = { Padded };

    ghost inverse = { held_as };

    ghost inverse_ok = { held_inverse };
}
