// A job's text answered line by line.
#![tactic(auto)]

pub mod answer;
mod print;
pub mod text_session;
