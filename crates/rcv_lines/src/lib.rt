// A journal's text read back.
#![tactic(auto)]

ghost use Rattle.rcv_lines.specs.FinalTexts.{FinalTextsAreReadBack};
ghost use Rattle.rcv_lines.specs.Laws.{LinesEndInFeeds, LinesSayOneThing};
ghost use Rattle.rcv_lines.specs.ReadingLaws.{JournalsAreReadBack, OneLineIsFirstWrong, TextsHaveOneJournal};
ghost use Rattle.rcv_lines.specs.ReadingLaws.{TextsAreTakenOrWrong, WrongTextsHaveNoJournal};
ghost use Rattle.rcv_lines.specs.SmallScripts.{ValuesFit};

mod entries;
mod events;
mod fields;
pub mod line;
mod machine;
mod names;
mod numbers;
mod recovery;
mod roles;
mod said;
pub mod text;

/// A line of a journal of an accepted protocol has one line feed, which is its last byte.
pub fn lines_end_in_feeds()
    ensures { LinesEndInFeeds }
{}

/// If the protocol is accepted, a line says at most one thing.
pub fn lines_say_one_thing()
    ensures { LinesSayOneThing }
{}

/// If the protocol is accepted, the text of a journal of the form is read as this journal.
pub fn journals_are_read_back()
    ensures { JournalsAreReadBack }
{}

/// A text says at most one journal of an accepted protocol.
pub fn texts_have_one_journal()
    ensures { TextsHaveOneJournal }
{}

/// A text with a first wrong line says no journal.
pub fn wrong_texts_have_no_journal()
    ensures { WrongTextsHaveNoJournal }
{}

/// Each text says a journal of an accepted protocol, or has a first wrong line.
pub fn texts_are_taken_or_wrong()
    ensures { TextsAreTakenOrWrong }
{}

/// At most one line of a text is the first wrong one.
pub fn one_line_is_first_wrong()
    ensures { OneLineIsFirstWrong }
{}

/// The text of a session that came to its end is read as its entries, the lines of its roles, and those at the limit.
pub fn final_texts_are_read_back()
    ensures { FinalTextsAreReadBack }
{}

/// The numbers that a legal journal carries fit 64 bits, if those of the scripts do.
pub fn values_fit()
    ensures { ValuesFit }
{}
