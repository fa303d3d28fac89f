ghost use Rattle.std.specs.Prelude.{◌≡◌, ℕ, List, [], ◌∷◌, ◌++◌, OnOk, IfOk, take};
ghost use Rattle.std.specs.Io.{ReadsAtMost};
ghost use Rattle.std.specs.Io.KnownBytes.{Appends, Consumes, IsAtEnd};
ghost use Rattle.lines.specs.Lines.{handed_out, NoLineFeed};
ghost use Rattle.dialogue.specs.Dialogues.{AnsweredOn, Dialogue, Served, next_number};

use crate::responder::Responder;
use lines::first::first_line;
use lines::line::Line;
use std::io;
use std::io::{ErrorKind, Read, Write};

// How many bytes are read at a time.
const PIECE: usize = 16384;

// The number of the line after that with this number; numbers stop at the last that there is.
fn number_after(number: u64) -> u64
    ensures { result ≡ next_number number }
{
    number.saturating_add(1)
}

// Answers the line that ends with these bytes, which is what was held of it and they; the next begins.
fn answer_line<W: Write, S: Responder>(
    end: &[u8],
    line: &mut Line,
    number: &mut u64,
    out: &mut W,
    responder: &mut S,
) -> io::Result<()>
    requires { NoLineFeed end.now }
    ensures { OnOk result ((printed : List ℕ) × AnsweredOn S.answers (end.now ++ 10 ∷ []) line.old responder.old number.old line.new responder.new number.new printed × Appends (W.contents out.old) (W.contents out.new) printed) }
{
    line.extend(end);
    responder.answer(*number, line.bytes(), out)?;
    *line = Line::new();
    *number = number_after(*number);
    Ok(())
}

// Answers the lines that end in a piece of the text; the line that was begun before it goes on.
fn answer_piece<W: Write, S: Responder>(
    piece: &[u8],
    line: &mut Line,
    number: &mut u64,
    out: &mut W,
    responder: &mut S,
) -> io::Result<()>
    ensures { OnOk result ((printed : List ℕ) × AnsweredOn S.answers piece.now line.old responder.old number.old line.new responder.new number.new printed × Appends (W.contents out.old) (W.contents out.new) printed) }
{
    let mut rest = piece;
    while let Some((end, after)) = first_line(rest) {
        answer_line(end, line, number, out, responder)?;
        rest = after;
    }
    line.extend(rest);
    Ok(())
}

// Answers what is left where no byte comes any more.
fn answer_last<W: Write, S: Responder>(
    line: Line,
    number: u64,
    out: &mut W,
    responder: &mut S,
) -> io::Result<()>
    ensures { OnOk result ((printed : List ℕ) × Dialogue S.answers responder.old number (handed_out line []) responder.new printed × Appends (W.contents out.old) (W.contents out.new) printed) }
{
    let Some(ended) = line.finish() else {
        return Ok(());
    };
    responder.answer(number, ended.bytes(), out)?;
    Ok(())
}

// Reads the next piece of the text, none at its end; a read that is interrupted is tried again.
fn read_piece<R: Read>(input: &mut R, piece: &mut [u8; PIECE]) -> io::Result<usize>
    ensures bound { ReadsAtMost result piece.new }
    ensures bytes { IfOk result (λ n. Consumes (R.remaining input.old) (R.remaining input.new) (take n piece.new)) }
    ensures end { IfOk result (λ n. n ≡ 0 → IsAtEnd (R.remaining input.new)) }
{
    for _ in 0..u64::MAX {
        match input.read(piece) {
            Err(error) if error.kind() == ErrorKind::Interrupted => {}
            read => return read,
        }
    }
    Err(ErrorKind::Interrupted.into())
}

// Answers the lines of all that the reader has left, one after another, counted from 1. What is printed of a piece of the text is flushed before the next is read.
pub fn serve<R: Read + Drop, W: Write, S: Responder>(
    mut input: R,
    out: &mut W,
    responder: &mut S,
) -> io::Result<()>
    ensures { OnOk result (Served S.answers (R.remaining input) responder.old responder.new (W.contents out.old) (W.contents out.new)) }
{
    let mut line = Line::new();
    let mut number: u64 = 1;
    let mut piece = [0; PIECE];
    for _ in 0..u64::MAX {
        let count = read_piece(&mut input, &mut piece)?;
        if count == 0 {
            answer_last(line, number, out, responder)?;
            out.flush()?;
            return Ok(());
        }
        answer_piece(&piece[..count], &mut line, &mut number, out, responder)?;
        out.flush()?;
    }
    Err(ErrorKind::FileTooLarge.into())
}
