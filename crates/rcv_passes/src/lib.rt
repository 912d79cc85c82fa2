// Places that several workers go over again and again, until each has moved as far as it may.
#![tactic(auto)]

pub mod activity;
mod board;
pub mod place;
mod progress;
mod round;
#[cfg(test)]
mod tests;
mod work;
mod worker;

pub use round::run_round;
