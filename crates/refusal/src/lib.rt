// What a call is refused for: the one list of refusals, with their numbers and places.
#![tactic(auto)]

pub mod memory;
pub mod text;

ghost use Rattle.std.specs.Prelude.{◌≡◌};
ghost use Rattle.refusal.specs.Refusals.{shown as shown_of, shown_as};

// Why a call is refused, with the places that it names.
#[derive(Clone, Copy, PartialEq, Eq)]
pub enum Refusal {
    // Columns or rows out of range.
    MachineSize,
    // Too few or too many labels.
    LabelCount,
    // No such kind of gate.
    UnknownKind,
    // No such label.
    NoSuchLabel(usize),
    // A CNOT with one label twice.
    SameLabel,
    // A label that was read already.
    AlreadyRead(usize),
    // The program has its greatest number of gates.
    ProgramFull,
    // No such cell.
    NoSuchCell(usize),
    // A cell's calibration value out of range.
    ValueOutOfRange(usize),
    // No such gate.
    NoSuchGate(usize),
    // A gate's start too large.
    StartTooLarge(usize),
    // A gate's choice too large.
    ChoiceTooLarge(usize),
    // A label that is used has no home.
    NoHome(usize),
    // Two labels have one home.
    SharedHome(usize, usize),
    // A gate has no timing.
    NoTiming(usize),
    // A gate's choice is not offered.
    ChoiceNotOffered(usize),
    // The second gate starts before the first, with which it shares a label, ends.
    TooEarly(usize, usize),
    // Two gates reserve a common cell at one time.
    Overlap(usize, usize),
    // A gate ends after the window of a cell.
    PastWindow(usize, usize),
    // Fewer places than there is to write.
    TooFewPlaces,
    // An operation names a cell beyond the wires, or one cell twice.
    NotOnWires(usize),
    // A kind that the register does not take.
    KindNotTaken(usize),
    // More H than the register may do.
    TooManyH,
    // A malformed line or an unknown letter.
    MalformedLine,
    // No job, or a job in the other state.
    WrongState,
    // No memory for a job.
    NoMemory,
}

// A refusal as it is shown: its number and two places, 0 where it names none, since its text has two.
#[derive(Clone, Copy, PartialEq, Eq, Debug)]
pub struct Shown {
    pub number: u32,
    pub first: usize,
    pub second: usize,
}

// A row of the table in `Refusal::shown`, on one line.
fn shown_as(number: u32, first: usize, second: usize) -> Shown
    ensures { result ≡ shown_as number first second }
{
    Shown {
        number,
        first,
        second,
    }
}

impl Refusal {
    // The refusal's number and places. A table by hand, since the numbers have gaps and a variant with places can't be cast to one.
    pub fn shown(self) -> Shown
        ensures { result ≡ shown_of self }
    {
        match self {
            Refusal::MachineSize => shown_as(1, 0, 0),
            Refusal::LabelCount => shown_as(2, 0, 0),
            Refusal::UnknownKind => shown_as(3, 0, 0),
            Refusal::NoSuchLabel(first) => shown_as(4, first, 0),
            Refusal::SameLabel => shown_as(5, 0, 0),
            Refusal::AlreadyRead(first) => shown_as(6, first, 0),
            Refusal::ProgramFull => shown_as(7, 0, 0),
            Refusal::NoSuchCell(first) => shown_as(8, first, 0),
            Refusal::ValueOutOfRange(first) => shown_as(9, first, 0),
            Refusal::NoSuchGate(first) => shown_as(10, first, 0),
            Refusal::StartTooLarge(first) => shown_as(11, first, 0),
            Refusal::ChoiceTooLarge(first) => shown_as(12, first, 0),
            Refusal::NoHome(first) => shown_as(21, first, 0),
            Refusal::SharedHome(first, second) => shown_as(22, first, second),
            Refusal::NoTiming(first) => shown_as(23, first, 0),
            Refusal::ChoiceNotOffered(first) => shown_as(24, first, 0),
            Refusal::TooEarly(first, second) => shown_as(25, first, second),
            Refusal::Overlap(first, second) => shown_as(26, first, second),
            Refusal::PastWindow(first, second) => shown_as(27, first, second),
            Refusal::TooFewPlaces => shown_as(31, 0, 0),
            Refusal::NotOnWires(first) => shown_as(41, first, 0),
            Refusal::KindNotTaken(first) => shown_as(42, first, 0),
            Refusal::TooManyH => shown_as(43, 0, 0),
            Refusal::MalformedLine => shown_as(51, 0, 0),
            Refusal::WrongState => shown_as(52, 0, 0),
            Refusal::NoMemory => shown_as(60, 0, 0),
        }
    }
}
