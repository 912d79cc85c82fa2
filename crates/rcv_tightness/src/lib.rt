// The recovery table is tight: each of its restart points is met by some run and some failure.
#![tactic(auto)]

ghost use Rattle.rcv_tightness.specs.Laws.{RestartsAreMet, RowsAreMet, ConcernedDoLose, FirstUndoneIsNext};
ghost use Rattle.rcv_tightness.specs.Told.{ToldRestartsAreMet};

/// The table has a restart point exactly if some run and some failure send the role back to just that point.
pub fn restarts_are_met()
    ensures { RestartsAreMet }
{}

/// A row of the table lists exactly the points that are met.
pub fn rows_are_met()
    ensures { RowsAreMet }
{}

/// Each role that the table has concerned loses an event in some run, and no other role does.
pub fn concerned_do_lose()
    ensures { ConcernedDoLose }
{}

/// The first undone event of a role is the first one after those that a recovery keeps.
pub fn first_undone_is_next()
    ensures { FirstUndoneIsNext }
{}

/// The table has a restart point exactly if, in some told session, some crash and its recovery send the role back to just
/// that point.
pub fn told_restarts_are_met()
    ensures { ToldRestartsAreMet }
{}
