// A job or none, and what each call does to it.
#![tactic(auto)]

pub mod calls;
pub mod opening;
pub mod rows;
pub mod session;
