// What a job holds, open or closed, and what each call writes there.
#![tactic(auto)]

pub mod store;
