// Single bits of numbers. This crate has definitions and proofs only.
#![tactic(auto)]
