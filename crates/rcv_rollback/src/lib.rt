// Recoveries of cells: the concerned cells stand apart from the others, and go back to what a book keeps.
#![tactic(auto)]

pub mod back;
pub mod halves;
mod rewinding;
mod settling;

/// Memory ran out: the one error of this crate.
pub use std::alloc::AllocError as Memory;
