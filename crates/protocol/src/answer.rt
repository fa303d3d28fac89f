use refusal::Refusal;

// Which rows follow an answer, and how many.
#[derive(Clone, Copy, PartialEq, Eq, Debug)]
pub enum Rows {
    None,
    Entries(usize),
    Operations(usize),
}

// What a command is answered: its number or its refusal, and the rows that follow.
#[derive(Clone, Copy, PartialEq, Eq, Debug)]
pub struct Answer {
    pub number: Result<u64, Refusal>,
    pub rows: Rows,
}
