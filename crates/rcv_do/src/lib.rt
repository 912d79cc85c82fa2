// Expands a module: each call of a protocol is replaced by its statements, or the first refusal says why not.
#![tactic(auto)]

mod answer;
mod calls;
mod depths;
mod expansion;
mod order;
mod parts;
mod reach;
mod set;
mod sizes;
mod table;
mod trace;

pub use answer::{expand, expand_traced};
pub use depths::call_depths;
