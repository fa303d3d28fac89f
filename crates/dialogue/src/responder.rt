ghost use Rattle.std.specs.Prelude.{ℕ, List, OnOk, take};
ghost use Rattle.std.specs.Io.KnownBytes.{Appends};

use std::io;
use std::io::Write;

// What answers lines.
pub trait Responder {
    // In the first state the line with this number may be answered by these bytes, and the second state is left.
    ghost answers: { Self → ℕ → List ℕ → Self → List ℕ → Type 0 };

    // Answers the line with the number. Of a line of more than 80 bytes it is given the first 81.
    fn answer<W: Write>(&mut self, number: u64, line: &[u8], out: &mut W) -> io::Result<()>
        ensures { OnOk result ((bytes : List ℕ) × answers self.old number line.now self.new bytes × Appends (W.contents out.old) (W.contents out.new) bytes) };

    // The first 81 bytes of a line say how it is answered.
    ghost beginning: { (s t : Self) (n : ℕ) (line bytes : List ℕ) → answers s n (take 81 line) t bytes → answers s n line t bytes };
}
