// A journal's JSON, read back.
#![tactic(auto)]

mod cuts;
mod entry;
mod error;
mod event;
mod laws;
mod leaves;
mod lines;
mod lists;
mod members;
mod read;

pub use error::JsonError;
pub use laws::{lines_are_read_back, texts_have_one_journal};
pub use read::read_json;
