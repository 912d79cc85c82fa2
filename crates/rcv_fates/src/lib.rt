// What became of the events of a journal: which are kept at its end, and which messages were received.
#![tactic(auto)]

mod arrow;
mod kept;
pub mod laws;
pub mod record;
mod sends;
mod undone;

pub use arrow::{Arrow, arrows};
pub use kept::is_kept;
pub use record::Record;
/// Memory ran out. This is the one error of this crate.
pub use std::alloc::AllocError as Memory;
