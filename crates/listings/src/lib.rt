// What is so of the gates of a plan that breaks no constraint, and of the operations that list it. Proofs; no code.
#![tactic(auto)]
