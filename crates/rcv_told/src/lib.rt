// Sessions that are told: what may be told of roles that run elsewhere, and its laws.
#![tactic(auto)]

pub mod laws;
