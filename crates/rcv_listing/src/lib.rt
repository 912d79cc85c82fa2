// The points of a module with their lines, and what a refusal by a rule of acceptance says.
#![tactic(auto)]

ghost use Rattle.rcv_listing.specs.Going.{ListedGoOn};
ghost use Rattle.rcv_listing.specs.Laws.{LinesAreThoseOfReceivers};

pub mod found;
mod listing;
pub mod parts;
pub mod read;
mod receivers;
pub mod shown;
pub mod table;
mod told;
pub mod unread;
mod way;
pub mod written;

pub use listing::{Listing, points_text};
pub use rcv_input::{InputError, Refused};
pub use std::alloc::AllocError as Memory;

/// If the tokens of a protocol part are read as a module: those of each protocol that are receivers name the receivers
/// of the points of its text, one for each, in order; and the lines of a listing are those of their first bytes, and of
/// the first bytes of the words `do`.
pub fn lines_are_those_of_receivers()
    ensures { LinesAreThoseOfReceivers }
{}

/// If the reader refuses a protocol part at a token that the grammar doesn't have there: some module begins with the
/// tokens before it and any word, mark or kind that the listing has. No module begins with them and one that the
/// listing leaves out.
pub fn listed_go_on()
    ensures { ListedGoOn }
{}
