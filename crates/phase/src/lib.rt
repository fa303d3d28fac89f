// The phase register: a bit for each wire and one turn.
#![tactic(auto)]

pub mod phase_register;
