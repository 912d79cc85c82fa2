// The cells of a session: their channels, their meetings and their rounds on threads.
#![tactic(auto)]

pub mod house;
pub mod lanes;
pub mod meet;
pub mod merging;
pub mod opening;
pub mod push;
pub mod round;
pub mod two;

/// Memory ran out. This is the one error of this crate.
pub use std::alloc::AllocError as Memory;
