// What each code of a refusal says: the rule, an example that breaks it, and its repair.
#![tactic(auto)]

mod calls;
mod codes;
mod explanation;
mod journals;
mod plans;
mod rules;
mod scripts;
mod sessions;
mod texts;

pub use codes::{explain, explanation_text};
pub use explanation::Explanation;
pub use std::alloc::AllocError as Memory;
