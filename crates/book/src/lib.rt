// The book of a job: what calls it takes, what they are refused for, answer and write, and the histories that they make. Definitions and what every history keeps; no code.
#![tactic(auto)]
