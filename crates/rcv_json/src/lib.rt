// A journal as JSON.
#![tactic(auto)]

ghost use Rattle.rcv_json.specs.Laws.{JournalsHaveOneJson};

mod entries;
mod head;
mod journal;
mod recoveries;
mod roles;
mod texts;
mod values;

pub use journal::json_of;

/// Memory ran out. This is the one error of the calls of this crate.
pub use std::alloc::AllocError as Memory;

/// A journal has at most one JSON.
pub fn journals_have_one_json()
    ensures { JournalsHaveOneJson }
{}
