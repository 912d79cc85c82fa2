// Tests of journals that are read back, as texts and as JSON: worked ones are read as what they say, and what isn't of
// the form has its line.
#![tactic(auto)]

#[cfg(test)]
mod json;
#[cfg(test)]
mod protocols;
#[cfg(test)]
mod texts;
