// What a module's text is: the words and marks of the grammar, what it derives, the tree of that, and the codes by
// which a text is refused, each by the tokens alone.
#![tactic(auto)]

mod fault;
mod sign;
mod words;

pub use fault::Fault;
pub use sign::Sign;
