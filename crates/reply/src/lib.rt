// What the program prints of a job: an answer, a refusal, a line of the agenda, or a line of the listing.
#![tactic(auto)]

mod digits;
pub mod reply;
pub mod text;
