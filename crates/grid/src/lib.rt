// The grid machine: its cells by number and by place, neighbours, and sets of cells.
#![tactic(auto)]

pub mod cell_set;
pub mod machine;
