//! The way of a text to a sink: word by word into a page, and page by page into the sink.
#![tactic(auto)]

pub mod page;
#[cfg(test)]
mod tests;

pub use page::Page;
/// Memory ran out. This comes only when a page is made.
pub use std::alloc::AllocError as Memory;
