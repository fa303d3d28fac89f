// A job in its two states, the calls of each, and that every job has a history.
#![tactic(auto)]

pub mod closed_job;
pub mod open_job;
