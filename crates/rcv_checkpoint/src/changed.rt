// What an event changed of the variables of its role.

/// Which variables an event may have changed, so that nobody compares all of them.
#[derive(Clone, Copy, Debug, PartialEq, Eq)]
pub enum Changed {
    /// None.
    Nothing,
    /// At most the one at this place, which is below 16.
    One(u8),
    /// Any of them.
    Any,
}
