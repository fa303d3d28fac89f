// A plan: gates with their timings, homes, and what is read off them.
#![tactic(auto)]

pub mod agenda;
pub mod gate;
pub mod timing;
