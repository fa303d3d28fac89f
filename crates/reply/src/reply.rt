use circuit::operation::Operation;
use plan::gate::AgendaEntry;
use refusal::Refusal;

// One printed line.
#[derive(Clone, Copy, PartialEq, Eq, Debug)]
pub enum Reply {
    // What a command answers.
    Ok(u64),
    // Why a command is refused, and the number of its line, counted from 1.
    No(Refusal, u64),
    // A gate of the agenda.
    Entry(AgendaEntry),
    // An operation of the listing.
    Operation(Operation),
}
