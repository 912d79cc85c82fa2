// Merging of a round's logs into one list: by stamp, then role, then position.
#![tactic(auto)]

mod round;
#[cfg(test)]
mod tests;

pub use round::merge_round;
/// Memory ran out: the one error of this crate.
pub use std::alloc::AllocError as Memory;
