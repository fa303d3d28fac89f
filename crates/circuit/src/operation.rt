use crate::action::Action;

// An action on cells with its start, how long it lasts, and the number of the gate it belongs to.
#[derive(Clone, Copy, Debug)]
pub struct Operation {
    pub start: u32,
    pub length: u32,
    pub action: Action,
    pub gate: u16,
}

// What a read told: its gate and the number.
#[derive(Clone, Copy, PartialEq, Eq, Debug)]
pub struct Reading {
    pub gate: u16,
    pub number: u64,
}
