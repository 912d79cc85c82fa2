// Whether a journal that was read back is one that the rules of its session allow, and closes as its entries leave it.
#![tactic(auto)]

ghost use Rattle.rcv_judge.specs.Laws.{OneEntryIsFirstWrong, EntriesAreJudged, EntriesOfARoleAreOne};
ghost use Rattle.rcv_judge.specs.Laws.{OneClosingIsFirstWrong, ClosingsAreJudged};

pub mod closing;
mod coming;
pub mod could;
pub mod judge;
mod same;
mod sending;
mod steps;

// Tried on sessions from text by `.ci/pictures`, over the whole program: journals with another value, stamp or count,
// with an entry left out or written twice, or with other closing lines; and by the pictures of the examples' journals,
// which are taken.

/// At most one entry is the first wrong one, and none is in a legal journal.
pub fn one_entry_is_first_wrong()
    ensures { OneEntryIsFirstWrong }
{}

/// Each list of entries is a legal journal, or has a first wrong entry.
pub fn entries_are_judged()
    ensures { EntriesAreJudged }
{}

/// Of one role at most one entry may come.
pub fn entries_of_a_role_are_one()
    ensures { EntriesOfARoleAreOne }
{}

/// At most one closing line is the first wrong one. If the journal closes right, none is.
pub fn one_closing_is_first_wrong()
    ensures { OneClosingIsFirstWrong }
{}

/// The lines after a legal journal are right, or they aren't.
pub fn closings_are_judged()
    ensures { ClosingsAreJudged }
{}
