// Turns an input into an accepted protocol with its scripts and its plan, or into its first refusal.
#![tactic(auto)]

ghost use Rattle.rcv_input.specs.Laws.{InputsHaveOneAnswer};

mod input;
mod line;
mod place;
mod plan;
mod protocol;
mod refused;
mod script;

pub use input::{Input, read_input};
pub use line::refusal_line;
pub use refused::{InputError, Refused};
pub use std::alloc::AllocError as Memory;

/// An input of fewer than 2^63 bytes is taken or refused. None is both; what it is taken as says one thing, and its
/// refusal is one. The name in a refusal by a rule is a word.
pub fn inputs_have_one_answer()
    ensures { InputsHaveOneAnswer }
{}
