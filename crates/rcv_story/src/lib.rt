// The story of a journal that is drawn: which events each Recover undoes, what became of the messages, and which entries
// are shown.
#![tactic(auto)]

pub mod laws;
mod messages;
mod met;
mod receipts;
pub mod shown;
mod stacks;
pub mod story;
mod undoing;
