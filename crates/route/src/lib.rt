// Routes between cells: paths, their ends, and the trait of route rules.
#![tactic(auto)]

pub mod endpoints;
pub mod path;
pub mod rule;
