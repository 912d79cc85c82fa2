// The text of a journal, and journals that are read back.
#![tactic(auto)]

ghost use Rattle.rcv_journal.specs.Laws.{LegalJournalsAreNamed, JournalsHaveOneText, CompletedIsWritten};

mod entries;
mod fault;
pub mod head;
mod journal;
pub mod line;
pub mod name;
pub mod recorded;
pub mod role_lines;
mod roles;
pub mod text;
mod vec_sink;

pub use fault::WriteError;

/// Memory ran out: the error if nothing else can fail.
pub use std::alloc::AllocError as Memory;

/// Each role and each point in a legal journal of an accepted protocol has a name, and its events are made by the ends
/// of their points.
pub fn legal_journals_are_named()
    ensures { LegalJournalsAreNamed }
{}

/// A journal has at most one text.
pub fn journals_have_one_text()
    ensures { JournalsHaveOneText }
{}

/// The last line is `completed` exactly if all roles are done.
pub fn completed_is_written()
    ensures { CompletedIsWritten }
{}
