// What holds of each told session.

ghost use Rattle.rcv_told.specs.Laws.{ToldEventsKeepRuns, FailuresLeaveTheLatestCut, BystandersKeepAll, LosersRestartByTheTable};
ghost use Rattle.rcv_told.specs.Laws.{ToldJournalsAreLegal};
ghost use Rattle.rcv_told.specs.Laws.{ForgettingChangesNoAnswer, ForgettingChangesNoLaterAnswer, ForgettingAddsUp};

/// After each thing that is told the kept events are a run.
pub fn told_events_keep_runs()
    ensures { ToldEventsKeepRuns }
{}

/// A failure undoes exactly the lost events and what depends on them, whatever was saved.
pub fn failures_leave_the_latest_cut()
    ensures { FailuresLeaveTheLatestCut }
{}

/// Who isn't concerned by a failure keeps all.
pub fn bystanders_keep_all()
    ensures { BystandersKeepAll }
{}

/// Who goes back restarts at one of the table's points, whatever was saved.
pub fn losers_restart_by_the_table()
    ensures { LosersRestartByTheTable }
{}

/// What no failure takes back can be forgotten: no answer changes.
pub fn forgetting_changes_no_answer()
    ensures { ForgettingChangesNoAnswer }
{}

/// Nor does any later one.
pub fn forgetting_changes_no_later_answer()
    ensures { ForgettingChangesNoLaterAnswer }
{}

/// Who forgets twice has forgotten.
pub fn forgetting_adds_up()
    ensures { ForgettingAddsUp }
{}

/// If all failures are by steps, what was told is a legal journal in hindsight.
pub fn told_journals_are_legal()
    ensures { ToldJournalsAreLegal }
{}
