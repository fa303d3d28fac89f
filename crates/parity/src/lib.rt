// The parity register: each wire as a set of starting wires with a flip mark.
#![tactic(auto)]

pub mod parity_register;
pub mod wire_set;
