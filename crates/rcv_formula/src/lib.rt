// Expressions of scripts as steps, which are built without a tree and give a value without one.
#![tactic(auto)]

mod expression;
mod making;
mod narrow;
mod part;
mod parts;
mod step;
mod value;

pub use expression::{Formula, Leaf, Steps};
pub use step::Operator;
