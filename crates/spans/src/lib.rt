// How long a gate of a plan lasts, and which cells it reserves meanwhile.
#![tactic(auto)]

pub mod duration;
pub mod layout;
pub mod path;
pub mod reserved;
pub mod span;
