// Vectors that are a power of ω at one index. No code, only definitions and proofs.
#![tactic(auto)]
