// A fence: one word that some watches write and all look at, on any threads, without waiting.
#![tactic(auto)]

mod rule;
#[cfg(test)]
mod tests;
mod watch;

pub use watch::{Watch, fence};

/// Memory ran out. This is the one error of the calls of this crate.
pub use std::alloc::AllocError as Memory;
