// A text read line by line, each line answered before the next is read, in bounded memory. Nothing here knows the subject.
#![tactic(auto)]

pub mod responder;
pub mod serve;
