// The codes by which a text is refused.

ghost use Rattle.std.specs.Prelude.{◌≡◌};
ghost use Rattle.rcv_syntax.specs.Codes.{code_of};

/// What is wrong at a token or at the end.
#[derive(Clone, Copy, Debug, PartialEq, Eq)]
pub enum Fault {
    /// The grammar doesn't have it there.
    Token = 11,
    /// The brace of the 33rd nested block.
    Deep = 12,
    /// A role or an argument that the protocol doesn't declare, or a name that no enclosing recursion has.
    NoName = 13,
    /// A protocol, a role, an alias, a receiver or an argument that stands before.
    Twice = 14,
    /// A receiver that is the sender.
    SelfMessage = 15,
    /// A statement after a `continue`.
    AfterContinue = 16,
    /// A `continue` to which a walk comes without a message and without a call.
    Unguarded = 17,
    /// The 65th protocol, the ninth role of one, or the receiver that makes its 257th point.
    TooMany = 18,
    /// A `par` in any block but the first protocol's own.
    NotYet = 19,
    /// A role that stands in an earlier block of the same `par`.
    Shared = 29,
}

impl Fault {
    /// The fault's code.
    pub fn code(self) -> u8
        ensures { result ≡ code_of self }
    {
        self as u8
    }
}
