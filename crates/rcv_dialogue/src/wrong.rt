// What is wrong with a line.

/// What is expected in a word's place.
#[derive(Clone, Copy, Debug, PartialEq, Eq)]
pub enum Expected {
    /// A word that begins a line.
    Line,
    Role,
    Point,
    /// The point's label.
    Label,
    Value,
    /// `@` and a number.
    Stamp,
    /// `<` and a number.
    Sent,
    /// `#` and a number.
    Incarnation,
    Count,
    /// `undone`, or the number after it.
    Undone,
    /// A word that may come after `again`.
    Again,
    Told,
    Room,
    Kept,
    Raw,
    At,
    Clock,
    Attempt,
    /// `up`, or `down`.
    Up,
    /// No word.
    End,
}

/// Something else is expected at the word of this number, counted from 1.
#[derive(Clone, Copy, Debug, PartialEq, Eq)]
pub struct Wrong {
    pub word: u16,
    pub expected: Expected,
}

/// Why a line isn't one of the dialogue.
#[derive(Clone, Copy, Debug, PartialEq, Eq)]
pub enum LineError {
    /// It has too many bytes.
    Long,
    /// The first word that doesn't fit.
    Wrong(Wrong),
}
