ghost use Rattle.std.specs.Prelude.{◌≡◌, ◌<◌, ◌≤◌, [], ◌∷◌, ◌++◌, length, is_ok, if◌then◌else◌, nat_le};
ghost use Rattle.refusal.specs.Refusals.{refuse_if, ok_unless};
ghost use Rattle.route.specs.Paths.{path_cells};

use crate::path::Path;
use refusal::Refusal;

impl Path {
    // A path of no cells yet.
    pub fn new() -> Path
        ensures { path_cells result ≡ [] }
    {
        Path {
            places: [0; 64],
            len: 0,
        }
    }

    // Goes on to the cell, or refuses where there are 64 cells already.
    pub fn push(&mut self, cell: u8) -> Result<(), Refusal>
        ensures answer { result ≡ ok_unless (refuse_if (nat_le 64 (length (path_cells self.old))) Refusal.TooFewPlaces) tt }
        ensures after { path_cells self.new ≡ (if is_ok result then path_cells self.old ++ (cell ∷ []) else path_cells self.old) }
    {
        if self.len >= 64 {
            return Err(Refusal::TooFewPlaces);
        }
        self.places[self.len] = cell;
        self.len += 1;
        Ok(())
    }

    // The cells in their order.
    pub fn cells(&self) -> &[u8]
        ensures value { result.now ≡ path_cells self.now }
        ensures few { length result.now ≤ 64 }
    {
        &self.places[..self.len]
    }
}
