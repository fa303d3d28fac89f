// A line to a command.
ghost use Rattle.std.specs.Prelude.{◌∷◌, ◌≡◌, ◌↔◌, Ok, Err};
ghost use Rattle.command.specs.Commands.{CommandRead, IsOneLabelLetter, IsTextOf, TextsFit};
ghost use Rattle.command.specs.declared.command.Command.{Command};
ghost use Rattle.refusal.specs.declared.Refusal.{Refusal};
ghost use Rattle.refusal.specs.declared.Refusal.TheVariants.{MalformedLine};

use crate::command::Command;
use calibration::values::Calibration;
use numbers::read_numbers;
use refusal::Refusal;

// What follows the letter of an opening.
fn read_open(rest: &[u8]) -> Option<Command>
    ensures { CommandRead (111 ∷ rest.now) result }
{
    let [columns, rows, labels] = read_numbers::<3>(rest)?;
    Some(Command::Open {
        columns,
        rows,
        labels,
    })
}

// What follows the letter of a kind on one label.
fn read_single(letter: char, rest: &[u8]) -> Option<Command>
    requires { IsOneLabelLetter letter }
    ensures { CommandRead (letter ∷ rest.now) result }
{
    let [one] = read_numbers::<1>(rest)?;
    Some(Command::Add {
        letter,
        one,
        two: 0,
    })
}

// What follows the letter of a CNOT: its control and its target.
fn read_cnot(rest: &[u8]) -> Option<Command>
    ensures { CommandRead (67 ∷ rest.now) result }
{
    let [one, two] = read_numbers::<2>(rest)?;
    Some(Command::Add {
        letter: 'C',
        one,
        two,
    })
}

// What follows the letter of calibrating.
fn read_calibrate(rest: &[u8]) -> Option<Command>
    ensures { CommandRead (107 ∷ rest.now) result }
{
    let [cell, single, read, window, east, south] = read_numbers::<6>(rest)?;
    let values = Calibration {
        single,
        read,
        window,
        east,
        south,
    };
    Some(Command::Calibrate { cell, values })
}

// What follows the letter of placing.
fn read_place(rest: &[u8]) -> Option<Command>
    ensures { CommandRead (112 ∷ rest.now) result }
{
    let [label, cell] = read_numbers::<2>(rest)?;
    Some(Command::Place { label, cell })
}

// What follows the letter of timing.
fn read_time(rest: &[u8]) -> Option<Command>
    ensures { CommandRead (116 ∷ rest.now) result }
{
    let [gate, start, choice] = read_numbers::<3>(rest)?;
    Some(Command::Time {
        gate,
        start,
        choice,
    })
}

// What follows the letter of trying.
fn read_try(rest: &[u8]) -> Option<Command>
    ensures { CommandRead (121 ∷ rest.now) result }
{
    let [gate, start, choice] = read_numbers::<3>(rest)?;
    Some(Command::Try {
        gate,
        start,
        choice,
    })
}

// The command of a letter and of what follows it.
fn read_letter(letter: char, rest: &[u8]) -> Option<Command>
    ensures { CommandRead (letter ∷ rest.now) result }
{
    match letter {
        'o' => read_open(rest),
        'C' => read_cnot(rest),
        'H' | 'X' | 'Y' | 'Z' | 'S' | 'T' | 'R' => read_single(letter, rest),
        'e' => rest.is_empty().then_some(Command::Close),
        'n' => rest.is_empty().then_some(Command::Reopen),
        'k' => read_calibrate(rest),
        'p' => read_place(rest),
        't' => read_time(rest),
        'y' => read_try(rest),
        'j' => rest.is_empty().then_some(Command::Judge),
        'a' => rest.is_empty().then_some(Command::Agenda),
        'l' => rest.is_empty().then_some(Command::List),
        _ => None,
    }
}

// The command that the line says, or none where it says no command.
fn find_command(line: &[u8]) -> Option<Command>
    ensures { CommandRead line.now result }
{
    let (first, rest) = line.split_first()?;
    read_letter(char::from(*first), rest)
}

// The command whose text the line is, or the refusal where it is the text of none.
#[tactic(auto, using(crate::proofs::Letters::texts_fit, crate::proofs::Letters::read_answers))]
pub fn read_command(line: &[u8]) -> Result<Command, Refusal>
    ensures command { (c : Command) → (result ≡ Ok c) ↔ IsTextOf c line.now }
    ensures malformed { (e : Refusal) → (result ≡ Err e) ↔ ((e ≡ MalformedLine) × ((c : Command) → ¬ (IsTextOf c line.now))) }
    ensures within { TextsFit }
{
    find_command(line).ok_or(Refusal::MalformedLine)
}
