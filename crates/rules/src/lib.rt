// The two route rules that are delivered: one bend, and the bounding rectangle.
#![tactic(auto)]

mod bend;
mod leg;
pub mod one_bend;
pub mod rectangle;
