// The dialogue with a guide: lines that are told, read from their bytes, and answers, written to theirs.
#![tactic(auto)]

ghost use Rattle.rcv_dialogue.specs.Laws.{LinesSayOneThing, LinesAreReadBack};

mod again;
pub mod answer;
mod events;
mod failures;
pub mod few;
mod kind;
pub mod line;
mod numbers;
mod questions;
pub mod read;
mod said;
mod snapshot;
mod words;
pub mod write;
pub mod wrong;

/// If the protocol is accepted, a text says one line at most.
pub fn lines_say_one_thing()
    ensures { LinesSayOneThing }
{}

/// Each line of the form has a text that isn't too long and is read as this line.
pub fn lines_are_read_back()
    ensures { LinesAreReadBack }
{}
