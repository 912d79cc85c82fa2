// Where a role stands, in the form that restores it.

/// The numbers of a role, if nothing is remembered of it.
#[derive(Clone, Copy, Debug, PartialEq, Eq)]
pub struct Standing {
    /// How many of its events are forgotten, and the point of the last of them; 0 if none is.
    pub forgotten: u64,
    pub place: u16,
    /// How many events it ever made.
    pub raw: u64,
    /// How often some of its events were taken back.
    pub attempt: u64,
    pub clock: u64,
    pub down: bool,
}
