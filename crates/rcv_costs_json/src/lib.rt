// What crashes cost, as JSON for other programs.
#![tactic(auto)]

ghost use Rattle.rcv_costs_json.specs.Laws.{CostsAreReadBack, ValuesTellCosts};

mod answers;
mod failure;
mod totals;
mod whole;

pub use answers::failures_json;
pub use whole::costs_json;
/// Memory ran out. This is the one error of the calls of this crate.
pub use std::alloc::AllocError as Memory;

/// The JSON of costs is read as the value of the costs, if their numbers fit into their types.
pub fn costs_are_read_back()
    ensures { CostsAreReadBack }
{}

/// The value of costs tells the step, and of each cost the name of the role, the labels beside the crash, and the numbers.
pub fn values_tell_costs()
    ensures { ValuesTellCosts }
{}
