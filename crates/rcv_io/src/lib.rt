//! The traits for the outside, where bytes come from and go to: all bytes, or a fault that was counted.
#![tactic(auto)]

mod fault;
mod mem_sink;
mod mem_source;
mod sink;
mod source;
mod streams;
#[cfg(test)]
mod tests;
mod whole;

pub use fault::{Failed, ReadError, WriteFault};
pub use mem_sink::MemSink;
pub use mem_source::MemSource;
pub use sink::Sink;
pub use source::Source;
pub use std::alloc::AllocError as Memory;
pub use streams::{StdSink, StdSource};
pub use whole::{read_all, write_all_of};
