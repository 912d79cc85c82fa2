// Why a guide doesn't take what it is told.

/// Why what is told is refused: the first of these that holds. The guide is as before.
#[derive(Clone, Copy, Debug, PartialEq, Eq)]
pub enum Cause {
    /// The role isn't declared.
    Undeclared,
    /// The role is down: it crashed, and nobody has told yet that it recovers.
    Down,
    /// The role isn't down, so it can't recover.
    Up,
    /// The event is of another attempt than the one that its role is in.
    Stale,
    /// No room is left until what is stable is forgotten (`Guide::forget`); or 2^62 things were told.
    Full,
    /// It isn't the role's turn there: the point isn't one of its next points, or it is one and the role doesn't send
    /// there, or doesn't receive there.
    NotNext,
    /// Nothing lies in the channel that the role receives from: tell its Send first.
    Empty,
    /// Another message is in front of that channel: one of another point, or with another number or another stamp.
    NotFront,
    /// A failed role is said to have saved fewer of its events than are forgotten.
    Forgotten,
}
