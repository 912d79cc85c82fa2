// Tests of what writes texts, draws pictures and counts costs, through their public calls. They stand here because a
// crate with tests is proved twice.
#![tactic(auto)]

#[cfg(test)]
mod costs;
#[cfg(test)]
mod costs_json;
#[cfg(test)]
mod explain;
#[cfg(test)]
mod heat;
#[cfg(test)]
mod letters;
#[cfg(test)]
mod listing;
#[cfg(test)]
mod losses;
#[cfg(test)]
mod picture;
#[cfg(test)]
mod points_json;
#[cfg(test)]
mod printer;
#[cfg(test)]
mod rows;
#[cfg(test)]
mod story;
