// A refusal as text: its number and both places.
ghost use Rattle.std.specs.Prelude.{Some};
ghost use Rattle.refusal.specs.Texts.{refusal_text};

use crate::{Refusal, Shown};
use std::error::Error;
use std::fmt;

// Display by hand, since the text is the numbers and no variant's name.
impl fmt::Display for Refusal {
    ghost output = { λ x. Some (refusal_text x) };

    fn fmt<W: fmt::Write>(&self, f: &mut fmt::Formatter<W>) -> fmt::Result {
        let Shown {
            number,
            first,
            second,
        } = self.shown();
        write!(f, "{number} {first} {second}")
    }
}

// Debug by hand too, as the same text: a program whose `main` fails with a refusal prints it so.
impl fmt::Debug for Refusal {
    fn fmt<W: fmt::Write>(&self, f: &mut fmt::Formatter<W>) -> fmt::Result {
        write!(f, "{self}")
    }
}

impl Error for Refusal {}
