// What a module means: its protocols and their calls, which of them are refused, the expansion, and walks through it.
#![tactic(auto)]

ghost use Rattle.rcv_module.specs.Laws.{ExpansionKeepsWalks, ExpansionsAreOne, ExpansionsHaveForm, FreeModulesAreNotRefused, ModulesHaveAnswers, RefusalsAreOne, OriginsAreOfPoints};

mod fault;
mod origin;

pub use fault::Fault;
pub use origin::{Called, Origin, Origins};

/// Walks through a module, which enter calls and expand nothing, give the messages that the walks of its expansion
/// give.
pub fn expansion_keeps_walks()
    ensures { ExpansionKeepsWalks }
{}

/// A module that isn't refused has no refusal: the sizes of its expansion are one list.
pub fn free_modules_are_not_refused()
    ensures { FreeModulesAreNotRefused }
{}

/// The expansion of a module that has the reader's form and isn't refused has the form that acceptance asks for: no call
/// is left, points are in text order and at most 256, and no role stands in two blocks of a par.
pub fn expansions_have_form()
    ensures { ExpansionsHaveForm }
{}

/// A module has at most one refusal: one code at one call.
pub fn refusals_are_one()
    ensures { RefusalsAreOne }
{}

/// A module has at most one expansion.
pub fn expansions_are_one()
    ensures { ExpansionsAreOne }
{}

/// Each module that has the reader's form, with fewer than 2^62 statements and branches in each text, has an answer:
/// the first protocol with its calls expanded, or a refusal with its line.
pub fn modules_have_answers()
    ensures { ModulesHaveAnswers }
{}

/// An expansion has as many origins as points, and each is one of its point: the protocol's text has the message at
/// that point, and the calls lead to it from the first protocol.
pub fn origins_are_of_points()
    ensures { OriginsAreOfPoints }
{}
