// Tests of sessions of several workers, through the top call and turn by turn, and of several sessions. If what a test
// tells depends on the order of the roles' steps, gates hold roles up until others have come so far, so that it ends in
// one way.
#![tactic(auto)]

#[cfg(test)]
mod ahead;
#[cfg(test)]
mod alone;
#[cfg(test)]
mod beside;
#[cfg(test)]
mod calls;
#[cfg(test)]
mod counting;
#[cfg(test)]
mod finishing;
#[cfg(test)]
mod flag;
#[cfg(test)]
mod forgetting;
#[cfg(test)]
mod gathering;
#[cfg(test)]
mod given;
#[cfg(test)]
mod kept;
#[cfg(test)]
mod meeting;
#[cfg(test)]
mod pushing;
#[cfg(test)]
mod replay;
#[cfg(test)]
mod sessions;
#[cfg(test)]
mod turns;
