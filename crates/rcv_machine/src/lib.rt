// A machine that takes one symbol after another. It is no part of what a reader promises: its laws say that it takes
// and refuses what the grammar and the table of the codes say, and a reader whose steps are the machine's is right by
// them.
#![tactic(auto)]

ghost use Rattle.rcv_machine.specs.Laws.{CodesAreFair, TextsAreTakenExactly, TextsAreRefusedExactly};

/// Only what the grammar derives is taken. The fault `Token` is at the first token that the grammar doesn't have; with
/// another one the tokens so far and this one still begin a list of the grammar.
#[tactic(auto, using(crate::proofs::Exactly::codes_are_fair))]
pub fn codes_are_fair()
    ensures { CodesAreFair }
{}

/// A text is taken exactly if the grammar derives it and no code of the table holds at a token, nor at the end.
pub fn texts_are_taken_exactly()
    ensures { TextsAreTakenExactly }
{}

/// A text is refused with a code exactly at the first token, or the end, at which a code of the table holds, and if it
/// is the least that holds there.
pub fn texts_are_refused_exactly()
    ensures { TextsAreRefusedExactly }
{}
