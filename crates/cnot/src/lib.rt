// A CNOT between distant cells: its control travels by swaps to the target's side, and back.
#![tactic(auto)]

pub mod link;
pub mod time;
pub mod write;
