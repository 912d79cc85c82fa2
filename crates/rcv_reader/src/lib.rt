// Reads the text of a module into its tree.
#![tactic(auto)]

mod calls;
mod head;
mod parser;
mod read;
mod stop;

pub use read::read_module;
