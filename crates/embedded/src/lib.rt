// A job's text run to its replies, into places that the caller lends.
#![tactic(auto)]

pub mod failure;
pub mod run;
