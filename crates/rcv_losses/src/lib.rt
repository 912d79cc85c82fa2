// What crashes cost, as text.
#![tactic(auto)]

ghost use Rattle.rcv_losses.specs.Totals.{TheWorstIsFound, RestartingCostsNoLess};

mod answers;
pub mod lines;
pub mod totals;

pub use answers::{losses_text, named_costs};
/// Memory ran out. This is the one error of this crate.
pub use std::alloc::AllocError as Memory;

/// What is found is the worst cost: the first of those that undo the most events.
pub fn the_worst_is_found()
    ensures { TheWorstIsFound }
{}

/// Each crash undoes at most what restarting everybody would, and so do the crashes of a role together.
pub fn restarting_costs_no_less()
    ensures { RestartingCostsNoLess }
{}
