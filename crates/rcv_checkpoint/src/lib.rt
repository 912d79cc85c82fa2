// Stacks of a role's states: the state after each count of its events, for going back.
#![tactic(auto)]

pub mod changed;
mod rows;
pub mod stack;
pub mod state;
pub mod tail;
#[cfg(test)]
mod tests;

/// Memory ran out. This is the one error of the calls of this crate.
pub use std::alloc::AllocError as Memory;
