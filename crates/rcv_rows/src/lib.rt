// What a picture of a journal tells, as lists of what its groups say: each entry in a row of its own or in a fold, and
// the messages as arrows.
#![tactic(auto)]

mod counts;
pub mod laws;
mod mark;
mod row;
mod told;
mod wire;

pub use row::rows;
pub use told::{Told, tell};
pub use wire::wires;
/// Memory ran out: the one error of this crate.
pub use std::alloc::AllocError as Memory;
