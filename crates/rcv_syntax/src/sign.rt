// Reserved words and marks.

/// A reserved word of the grammar, one of its marks, or any other mark.
#[derive(Clone, Copy, Debug, PartialEq, Eq, Drop)]
pub enum Sign {
    Module,
    Global,
    Protocol,
    Role,
    From,
    To,
    Choice,
    At,
    Or,
    Rec,
    Continue,
    Par,
    And,
    Do,
    Open,
    Close,
    Left,
    Right,
    Comma,
    Semicolon,
    Dot,
    Less,
    Greater,
    /// A mark that the grammar doesn't have.
    Foreign,
}
