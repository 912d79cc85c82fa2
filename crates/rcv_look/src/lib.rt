// Pictures and explanations as one call: from words and an input to a status and bytes.
#![tactic(auto)]

ghost use Rattle.rcv_look.specs.Laws.{SectionsAreJournals, WordsAreOneCommand};

mod answer;
mod call;
mod charts;
mod command;
mod draw;
mod exports;
mod failures;
mod given;
mod input;
mod journal;
mod lines;
mod output;
mod program;
mod replay;
mod session;
mod status;
mod texts;
mod told;
mod whole;
mod words;

pub use call::look;
pub use status::Status;

/// Words are one command at most.
pub fn words_are_one_command()
    ensures { WordsAreOneCommand }
{}

/// If at most 64 journals stand one after another, each after the line of its session, section I is journal I: the
/// journals are of the form of one protocol.
pub fn sections_are_journals()
    ensures { SectionsAreJournals }
{}
