// Prints a protocol as its canonical text.
#![tactic(auto)]

ghost use Rattle.rcv_printer.specs.Laws.{CanonicalTextsAreSpelled, ReadProtocolsArePrintable, CanonicalTextsReadBack};
ghost use Rattle.rcv_printer.specs.Laws.{CanonicalTextsStay, ExpansionsReadBack, ExpansionsStay};

mod head;
mod names;
mod printer;
mod statements;

pub use printer::print_protocol;
/// Memory ran out: the one error of the calls of this crate.
pub use std::alloc::AllocError as Memory;

/// If the names of a protocol are names of the grammar, its canonical text is one part, and its tokens spell the
/// protocol with one receiver for each message.
pub fn canonical_texts_are_spelled()
    ensures { CanonicalTextsAreSpelled }
{}

/// The names of the first protocol of a module that was read are names of the grammar.
pub fn read_protocols_are_printable()
    ensures { ReadProtocolsArePrintable }
{}

/// The canonical text of the first protocol of a module that was read is one part, and its tokens are read as this
/// protocol alone, with its calls.
pub fn canonical_texts_read_back()
    ensures { CanonicalTextsReadBack }
{}

/// What is read from the canonical text of a protocol that was read has the same canonical text.
pub fn canonical_texts_stay()
    ensures { CanonicalTextsStay }
{}

/// The canonical text of the expansion of a module that was read is one part, and its tokens are read as this expansion
/// alone, in which no call is left.
pub fn expansions_read_back()
    ensures { ExpansionsReadBack }
{}

/// A module that is read from the canonical text of an expansion is expanded to what has the same canonical text.
pub fn expansions_stay()
    ensures { ExpansionsStay }
{}
