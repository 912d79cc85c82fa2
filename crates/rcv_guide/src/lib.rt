// A session whose roles run elsewhere: which of the events that are told of it are legal, and what a failure takes
// back.
#![tactic(auto)]

pub mod cause;
mod failing;
mod flight;
pub mod guide;
pub mod laws;
mod line;
pub mod news;
mod numbers;
pub mod recovery;
pub mod remembered;
mod renewal;
pub mod restoring;
pub mod standing;

/// Memory ran out.
pub use std::alloc::AllocError as Memory;
