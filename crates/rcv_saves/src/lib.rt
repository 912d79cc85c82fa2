// After which counts of its events each role of a session has saved its state.
#![tactic(auto)]

mod counts;
pub mod saves;
#[cfg(test)]
mod tests;

/// Memory ran out.
pub use std::alloc::AllocError as Memory;
