// Plans: how often a role saves, where it crashes, which roles share a host, and how far a session goes.
#![tactic(auto)]

ghost use Rattle.rcv_plan.specs.Laws.{PlansHaveOneAnswer, PlansAreShort, ReadPlansArePlanned};
ghost use Rattle.rcv_plan.specs.OneCrash.{OneCrashIsAlone};

mod crash_counts;
mod fault;
mod known;
mod line;
pub mod plan;
mod read;
mod reader;
mod sign;

pub use fault::Fault;
pub use read::read_plan;

/// A plan is read or refused, never both; what is read is one list of lines, and there is one first and least code.
pub fn plans_have_one_answer()
    ensures { PlansHaveOneAnswer }
{}

/// In a plan that was read, or in that of a later session, each role has at most 100,064 crash lines.
pub fn plans_are_short()
    ensures { PlansAreShort }
{}

/// In a plan that was read each role is declared, each number is in its range, and no role crashes twice at one count.
pub fn read_plans_are_planned()
    ensures { ReadPlansArePlanned }
{}

/// The plan in which one role alone crashes, once, says only that of crashes. Of all else it says the same as the plan
/// that it comes from.
pub fn one_crash_is_alone()
    ensures { OneCrashIsAlone }
{}
