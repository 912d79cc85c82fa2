// What is wrong with a journal that stands after its bundle, and what could have come instead.
#![tactic(auto)]

ghost use Rattle.rcv_diagnosis.specs.Laws.{DiagnosesAreReplays};

pub mod diagnosis;
mod journal;
mod making;
mod session;
mod telling;
pub mod written;

/// If an input is short enough to be replayed and its journal isn't JSON, a diagnosis of it says first what a replay
/// says.
pub fn diagnoses_are_replays()
    ensures { DiagnosesAreReplays }
{}

#[cfg(test)]
mod tests;
