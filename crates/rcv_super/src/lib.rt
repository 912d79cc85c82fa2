// Sessions of several workers: a book, and a cell for each role.
#![tactic(auto)]

mod alone;
mod beside;
mod forgetting;
mod known;
mod recovery;
mod rounds;
pub mod session;
mod sharing;
mod step;
mod whereabouts;

/// Memory ran out.
pub use std::alloc::AllocError as Memory;
