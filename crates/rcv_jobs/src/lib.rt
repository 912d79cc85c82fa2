// Sessions as jobs for workers: each is opened, run by one thread turn by turn, and written.
#![tactic(auto)]

pub mod job;
pub mod run;
mod running;
mod stage;

/// Memory ran out.
pub use std::alloc::AllocError as Memory;
