// Marks of the grammar.

/// A mark of the grammar, or what it has nowhere.
#[derive(Clone, Copy, Drop)]
pub enum Sign {
    Open,
    Close,
    Left,
    Right,
    Semicolon,
    Equals,
    Less,
    AtMost,
    Same,
    Differ,
    More,
    AtLeast,
    Plus,
    Minus,
    Times,
    /// Any other mark, or a number above the greatest one of a script.
    Foreign,
}
