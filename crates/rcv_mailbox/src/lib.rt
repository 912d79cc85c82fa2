// Channels between two roles on any threads. Their ends keep what was sent and taken, and can go back.
#![tactic(auto)]

mod inbox;
mod make;
mod post;
#[cfg(test)]
mod tests;

pub use inbox::Inbox;
pub use make::channel;
pub use post::{Full, Post};

/// Memory ran out. This is the one error of `channel`. No other call takes memory.
pub use std::alloc::AllocError as Memory;
