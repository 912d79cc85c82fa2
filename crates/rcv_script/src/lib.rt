// Scripts: what a role computes from its own events, which point it chooses and which number it sends.
#![tactic(auto)]

ghost use Rattle.rcv_script.specs.Laws.{ScriptsHaveOneAnswer};

mod acts;
mod fault;
mod formula;
mod labels;
pub mod line;
mod parser;
mod read;
pub mod scripts;
mod setting;
mod sign;
mod words;
mod writing;

pub use fault::Fault;
pub use read::read_scripts;

/// Scripts are read or refused, never both: what is written by the grammar and has no code is read as what it says, and
/// all else has one first and least code.
#[tactic(auto, using(crate::proofs::Once::scripts_have_one_answer))]
pub fn scripts_have_one_answer()
    ensures { ScriptsHaveOneAnswer }
{}
