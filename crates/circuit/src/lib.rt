// The words of the subject: kinds of gates, actions on wires, and operations with their order.
#![tactic(auto)]

pub mod action;
pub mod letter;
pub mod operation;
pub mod order;
pub mod wires;
