// Texts that grow word by word.
#![tactic(auto)]

pub mod writer;

/// Memory ran out. This is the one error of the calls of this crate.
pub use std::alloc::AllocError as Memory;
