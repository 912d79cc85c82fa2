// The dialogue with a guide as one call: from words and a source to a status and what is written.
#![tactic(auto)]

pub mod answers;
mod begin;
mod call;
mod dialogue;
pub mod laws;
mod output;
mod status;
mod words;

pub use call::talk;
pub use status::Status;
