//! Cases in files: what a program is called with, and how it must answer.
#![tactic(auto)]

mod case;
mod piece;

pub use case::{Case, read_case};
