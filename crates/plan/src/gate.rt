use circuit::action::Action;

// When a gate starts, and which of the offered routes it takes.
#[derive(Clone, Copy, PartialEq, Eq, Debug)]
pub struct Timing {
    pub start: u32,
    pub choice: u8,
}

// A gate of the program: an action on labels, with its timing or none yet.
#[derive(Clone, Copy, PartialEq, Eq, Debug)]
pub struct Gate {
    pub action: Action,
    pub timing: Option<Timing>,
}

// A line of the agenda: a gate that has a timing, and its start. Entries go by start, then by gate number.
#[derive(Clone, Copy, PartialEq, Eq, PartialOrd, Ord, Debug)]
pub struct AgendaEntry {
    pub start: u32,
    pub gate: u16,
}
