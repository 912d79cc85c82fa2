// Cuts a bundle into its parts, a part into its tokens, and gives these to a reader one after another.
#![tactic(auto)]

ghost use Rattle.rcv_lexer.specs.Laws.{PartHasOneReading, WordsAreWords};

mod ahead;
mod alphabet;
mod lexeme;
mod line;
mod parts;
mod piece;
mod scan;
pub mod token;

pub use ahead::Ahead;
pub use alphabet::Alphabet;
pub use lexeme::{Lexeme, is, number_of, unquoted};
pub use line::line_before;
pub use parts::{Parts, split};
pub use scan::{bad_letter, line_feeds, tokens};

/// A part has one list of tokens or one first bad letter: one of the two, and never both.
#[tactic(auto, using(crate::proofs::Once::one_reading))]
pub fn part_has_one_reading()
    ensures { PartHasOneReading }
{}

/// The bytes of each word are a letter, and letters and digits after it, at most 64; those of a number are digits; a
/// text has between its quotes at most 64 bytes, and no quote and no line feed among them.
#[tactic(auto, using(crate::proofs::TokenBytes::words_are_words))]
pub fn words_are_words()
    ensures { WordsAreWords }
{}

#[cfg(test)]
mod tests;
