ghost use Rattle.std.specs.Prelude.{◌≡◌, ◌+◌, ◌≤◌, [], ◌++◌, length, take};
ghost use Rattle.lines.specs.Lines.{last_line, FeedingGivesLines};

use crate::line::Line;

impl Line {
    // A line of which no byte has come yet.
    pub fn new() -> Line
        ensures { result ≡ [] }
    {
        Line {
            places: [0; 81],
            len: 0,
        }
    }

    // The bytes of the line, the first 81 of a longer one.
    pub fn bytes(&self) -> &[u8]
        ensures value { result.now ≡ self.now }
        ensures few { length result.now ≤ 81 }
    {
        &self.places[..self.len]
    }

    #[tactic(auto, using(crate::proofs::Extending::part_that_fits, crate::proofs::Feeding::feeding_gives_lines))]
    // Takes more bytes of the line, as far as there is room for them.
    pub fn extend(&mut self, bytes: &[u8])
        ensures after { self.new ≡ take 81 (self.old ++ bytes.now) }
        ensures few { length self.old ≤ 81 }
        ensures law { FeedingGivesLines }
    {
        let count = (81 - self.len).min(bytes.len());
        self.append(&bytes[..count]);
    }

    // What is left where no byte comes any more: a line, unless it is empty.
    pub fn finish(self) -> Option<Line>
        ensures { result ≡ last_line self }
    {
        if self.len == 0 { None } else { Some(self) }
    }

    // Puts bytes behind those that are kept.
    fn append(&mut self, bytes: &[u8])
        requires { length self.old + length bytes.now ≤ 81 }
        ensures { self.new ≡ self.old ++ bytes.now }
    {
        let end = self.len + bytes.len();
        self.places[self.len..end].copy_from_slice(bytes);
        self.len = end;
    }
}
