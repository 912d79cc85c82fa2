// What one crash costs: for each role, and each count of its events, what the recovery takes back.
#![tactic(auto)]

mod crashes;
pub mod laws;
mod losses;
mod numbers;
mod points;
mod rehearsal;
mod sampling;

pub use crashes::costs_of;
pub use numbers::{Cost, Costs};
/// Memory ran out. This is the one error of this crate.
pub use std::alloc::AllocError as Memory;
