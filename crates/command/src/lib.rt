// A line of a job's text as a command: a letter, then numbers.
#![tactic(auto)]

pub mod command;
pub mod read;
