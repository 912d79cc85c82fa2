// The whole program as one call: from words and an input to a status and bytes.
#![tactic(auto)]

ghost use Rattle.rcv_top.specs.Laws.{ChecksStay, OneOutcome, OutcomesAreManyRuns, OutcomesAreRuns, OutcomesExist};
ghost use Rattle.rcv_top.specs.Laws.{CalmSessionsComplete, JournalsAreLegal, SessionsEnd, SessionsKeepAlike};
ghost use Rattle.rcv_top.specs.Laws.{TakenSessionsCanRun, WorkersDecideNothing};

mod answer;
mod call;
mod generated;
mod input;
mod journals;
mod line;
mod many;
mod output;
mod replaying;
mod run;
mod status;

pub use call::recover;
pub use rcv_gate::{Gate, NoGate};
pub use status::Status;

/// If the words don't ask for several workers of one session, status and bytes are a function of the words and the
/// input.
pub fn one_outcome()
    ensures { OneOutcome }
{}

/// Several sessions have one outcome, however many workers share them.
pub fn workers_decide_nothing()
    ensures { WorkersDecideNothing }
{}

/// All words and inputs have an outcome.
pub fn outcomes_exist()
    ensures { OutcomesExist }
{}

/// What `run` answered, written whole or in part, is what its workers make of the session that the input is taken as.
pub fn outcomes_are_runs()
    ensures { OutcomesAreRuns }
{}

/// With `--sessions` it is the journals of so many sessions.
pub fn outcomes_are_many_runs()
    ensures { OutcomesAreManyRuns }
{}

/// A session that is taken can run, and so can each later one of several of it.
pub fn taken_sessions_can_run()
    ensures { TakenSessionsCanRun }
{}

/// Each legal and final journal of a session that can run is as the headline says, and leaves no trace of its crashes if
/// no script reads the attempt and all roles are done.
pub fn journals_are_legal()
    ensures { JournalsAreLegal }
{}

/// If no script reads the attempt, any two of several sessions that complete keep the same.
pub fn sessions_keep_alike()
    ensures { SessionsKeepAlike }
{}

/// If no script reads the attempt and the session completes, it also completes without its crash lines, with any number
/// of workers.
pub fn calm_sessions_complete()
    ensures { CalmSessionsComplete }
{}

/// The session of each input that is taken completes, or it is limited: some role is at the limit.
pub fn sessions_end()
    ensures { SessionsEnd }
{}

/// If what `check` wrote has at most 1,048,576 bytes, `check` writes the same bytes when it is given them.
pub fn checks_stay()
    ensures { ChecksStay }
{}
