// Cells: one role's part of a session, with the ends of its channels.
#![tactic(auto)]

ghost use Rattle.rcv_role.specs.Laws.{PollsAreExact, RunsAreFencedExactly, CellsFollowTheSession};
ghost use Rattle.rcv_role.specs.Laws.{RewindsHoldFirstEvents, RewindsAloneHoldFirstEvents};

pub mod cell;
mod ends;
mod part;
pub mod poll;

/// Memory ran out: the one error of this crate.
pub use std::alloc::AllocError as Memory;

/// A poll answers that the role crashed, is done or makes no step more exactly if that is so.
pub fn polls_are_exact()
    ensures { PollsAreExact }
{}

/// A run is fenced exactly if its last look showed a failure that reaches its role.
pub fn runs_are_fenced_exactly()
    ensures { RunsAreFencedExactly }
{}

/// If a session's state has of the role what its cell has, the cell's entries are a log of the role there, and after
/// them the state has what the cell has then.
pub fn cells_follow_the_session()
    ensures { CellsFollowTheSession }
{}

/// If the ends of a channel hold what the events of both roles say, and go back by the counts of the first events,
/// they hold what those say.
pub fn rewinds_hold_first_events()
    ensures { RewindsHoldFirstEvents }
{}

/// They also do if the receiving end goes back alone, by the count of its role's first events.
pub fn rewinds_alone_hold_first_events()
    ensures { RewindsAloneHoldFirstEvents }
{}
