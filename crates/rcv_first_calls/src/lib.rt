// Five first calls, for whoever takes crates of rcv into a program of their own. docs/LIBRARY.md shows and explains them.
#![tactic(auto)]

pub mod drawing;
pub mod judging;
pub mod reading;
pub mod running;
pub mod tables;
#[cfg(test)]
mod tests;

/// Memory ran out. This is the one error of the calls of this crate, except for refusals.
pub use std::alloc::AllocError as Memory;
