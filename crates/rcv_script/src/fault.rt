// Why no scripts were read.

ghost use Rattle.std.specs.Prelude.{◌≡◌};
ghost use Rattle.rcv_script.specs.declared.fault.ScriptError.TheVariants.{Memory, Refused};
ghost use Rattle.rcv_script.specs.Refusals.{code_of};

use std::alloc::{AllocError, AllocFailed};

/// What is wrong at a token or at the end.
#[derive(Clone, Copy)]
pub enum Fault {
    /// The grammar doesn't have it there, or a number above 9223372036854775807.
    Token = 30,
    /// A role that isn't declared or has a script before.
    Role = 31,
    /// A label that the role never sends, or for `on` neither sends nor receives, or that has a `send` line before.
    Label = 32,
    /// A variable that isn't declared before, a declaration of a name that is known, or `value` outside an `on` line.
    Variable = 33,
    /// The word `attempt` in an `on` line.
    AttemptInState = 34,
    /// A number for a message without sorts, or of one.
    NoPayload = 35,
    /// The 17th variable, the 257th line or the 33rd nested expression.
    TooMany = 36,
}

impl Fault {
    /// The fault's code.
    pub fn code(self) -> u8
        ensures { result ≡ code_of self }
    {
        self as u8
    }
}

/// Why the reader stopped.
#[derive(Clone, Copy)]
pub enum ScriptError {
    /// The fault is at the token that is next, or at the end.
    Refused(Fault),
    Memory,
}

/// What was read, or why the reader stopped.
pub type Read<T> = Result<T, ScriptError>;

impl From<Fault> for ScriptError {
    ghost from_gives = { λ fault e. e ≡ Refused fault };

    fn from(fault: Fault) -> ScriptError {
        ScriptError::Refused(fault)
    }
}

impl From<AllocError> for ScriptError {
    ghost from_gives = { λ _ e. e ≡ Memory };

    fn from(_e: AllocError) -> ScriptError {
        ScriptError::Memory
    }
}

impl<T: Drop> From<AllocFailed<T>> for ScriptError {
    ghost from_gives = { λ _ e. e ≡ Memory };

    fn from(_e: AllocFailed<T>) -> ScriptError {
        ScriptError::Memory
    }
}
