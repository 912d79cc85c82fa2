// A ring of messages between two threads: one pushes, one pulls, and neither waits for the other.
#![tactic(auto)]

mod end;
mod make;
mod pull;
mod push;
mod rule;
#[cfg(test)]
mod tests;

pub use make::ring;
pub use pull::Puller;
pub use push::Pusher;

/// Memory ran out: the one error of the calls of this crate.
pub use std::alloc::AllocError as Memory;
