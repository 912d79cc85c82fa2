//! Lines of a source, one at a time: a text up to a line that ends it, and the lines after it.
#![tactic(auto)]

mod buffer;
mod opening;
mod pipe;

pub use opening::{OpeningError, read_text};
pub use pipe::Pipe;
pub use std::alloc::AllocError as Memory;
