// Journals that a guide was told: it judges them entry by entry, without scripts.
#![tactic(auto)]

ghost use Rattle.rcv_retold.specs.Laws.{RetoldIsTold, ToldEntriesHaveTexts, ToldTextsSayOneThing, WrongTextsAreNotTold};

pub mod closing;
mod kept;
mod lines;
pub mod retell;
mod stamps;
mod tell;
pub mod text;

/// What may be told again as it stands is a told session.
pub fn retold_is_told()
    ensures { RetoldIsTold }
{}

/// Told entries of the form have a text, if the protocol is accepted.
pub fn told_entries_have_texts()
    ensures { ToldEntriesHaveTexts }
{}

/// A text is that of at most one list of told entries, if the protocol is accepted.
pub fn told_texts_say_one_thing()
    ensures { ToldTextsSayOneThing }
{}

/// A text with a first wrong line isn't that of any told entries.
pub fn wrong_texts_are_not_told()
    ensures { WrongTextsAreNotTold }
{}
