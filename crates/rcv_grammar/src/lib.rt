// Laws of the grammar and of the machine that reads it. No crate below cites them.
#![tactic(auto)]

ghost use Rattle.rcv_grammar.specs.Laws.{CanonicalSourcesAreRead, PartsHaveOneAnswer, ReadTextsAreFilled};
ghost use Rattle.rcv_grammar.specs.Laws.{ReadModulesAreShort, ReadModulesHaveForm, ReadTextsHaveNames, TextsHaveOneTree};

/// The canonical source of the first protocol of a module that was read is read as a module of this protocol alone. In
/// that source each message has one receiver.
pub fn canonical_sources_are_read()
    ensures { CanonicalSourcesAreRead }
{}

/// In a text that was read each `continue` is bound, guarded by a message or a call, and the last of its block. No
/// inner block is empty, a `par` stands in the first protocol's own block alone, and the arguments of a `do` are roles
/// that differ.
pub fn read_texts_are_filled()
    ensures { ReadTextsAreFilled }
{}

/// If the same text is read as two modules, both say the same, protocol by protocol.
pub fn texts_have_one_tree()
    ensures { TextsHaveOneTree }
{}

/// In a text that was read the names of roles and the labels of messages are words, and no two roles of a protocol have
/// one name.
pub fn read_texts_have_names()
    ensures { ReadTextsHaveNames }
{}

/// A module that was read has at most 64 protocols, each of them has the form that acceptance asks for, except for its
/// calls, and there is a line for each call.
pub fn read_modules_have_form()
    ensures { ReadModulesHaveForm }
{}

/// A module that was read from a bundle of fewer than 2^63 bytes has fewer than 2^62 statements and branches in each
/// protocol, so that it is expanded or refused.
pub fn read_modules_are_short()
    ensures { ReadModulesAreShort }
{}

/// A part of a bundle of fewer than 2^63 bytes is read as some module, or it has a refusal. No part is both, and a
/// refusal has one code and one line.
#[tactic(auto, using(crate::proofs::Answered::parts_have_one_answer))]
pub fn parts_have_one_answer()
    ensures { PartsHaveOneAnswer }
{}
