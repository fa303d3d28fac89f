// What a machine's cells and links need in time, measured cell by cell.
#![tactic(auto)]

pub mod table;
pub mod values;
