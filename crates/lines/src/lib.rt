// Bytes as lines, in bounded memory. Nothing here knows the subject.
#![tactic(auto)]

pub mod first;
pub mod line;
