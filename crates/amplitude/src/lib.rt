// The amplitude register: for each index of at most 10 wires a number a + bω + cω² + dω³, in places that the caller lends.
#![tactic(auto)]

pub mod amplitudes;
mod pair;
mod pass;
