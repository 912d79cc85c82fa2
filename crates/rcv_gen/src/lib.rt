// The input that is generated from a number, and what its session comes to.
#![tactic(auto)]

pub mod generate;
pub mod summary;

/// Memory ran out: the one error of the calls of this crate.
pub use std::alloc::AllocError as Memory;
