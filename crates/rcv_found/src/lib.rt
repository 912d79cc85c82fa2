// What is found if a text is refused, and what may stand there.
#![tactic(auto)]

pub mod finding;
pub mod grammar;
pub mod letter;
pub mod may;
pub mod spot;
pub mod stop;
mod tables;
pub mod thing;
pub mod wrong;

pub use std::alloc::AllocError as Memory;
