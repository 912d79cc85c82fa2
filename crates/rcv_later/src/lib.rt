// The setups of several sessions of one input: in each later one a role crashes at counts that are one more.
#![tactic(auto)]

ghost use Rattle.rcv_later.specs.Laws.{TheFirstIsTheSession, LaterSessionsArePlanned, LaterSessionsSayTheSame};
ghost use Rattle.rcv_later.specs.Laws.{LaterRulesAreTheRules};

pub mod later;
pub mod preparation;
pub mod prepare;
#[cfg(test)]
mod tests;

/// Memory ran out. This is the one error of the calls of this crate.
pub use std::alloc::AllocError as Memory;

/// The first of several sessions is the session itself.
pub fn the_first_is_the_session()
    ensures { TheFirstIsTheSession }
{}

/// A later session of an accepted protocol, with a plan that was read, has a plan for the protocol's roles.
pub fn later_sessions_are_planned()
    ensures { LaterSessionsArePlanned }
{}

/// Later sessions of sessions that say the same say the same. So session i of an input says one thing.
pub fn later_sessions_say_the_same()
    ensures { LaterSessionsSayTheSame }
{}

/// A later session is run by the rules of the session, except for the counts at which roles crash.
pub fn later_rules_are_the_rules()
    ensures { LaterRulesAreTheRules }
{}
