// The main theorem: a register that is given a listing is found in the state that the program itself would have given it. Definitions and proofs; no code.
#![tactic(auto)]
