// A guided session without an end: it is told lines, judges them and answers.
#![tactic(auto)]

mod ahead;
mod back;
mod counts;
mod crash;
mod ends;
mod failures;
mod flights;
mod hear;
mod hearing;
pub mod laws;
mod questions;
mod receipts;
mod restoring;
mod room;
mod saves;
pub mod saving;
mod sends;
pub mod session;
mod snapshot;
mod states;
mod taken;
pub mod typed;

/// Memory ran out.
pub use std::alloc::AllocError as Memory;
