// Why no plan was read.

ghost use Rattle.std.specs.Prelude.{◌≡◌};
ghost use Rattle.rcv_plan.specs.declared.fault.PlanError.TheVariants.{Memory};
ghost use Rattle.rcv_plan.specs.Refusing.{code_of};

use std::alloc::{AllocError, AllocFailed};

/// What is wrong at a token or at the end.
#[derive(Clone, Copy, Debug, PartialEq, Eq)]
pub enum Fault {
    /// The grammar doesn't have it there.
    Token,
    /// A role that isn't declared.
    Role,
    /// A second line of a kind, a crash line or a host of that name, or a role that has a host.
    Twice,
    /// A number that isn't in its range.
    Range,
}

impl Fault {
    /// The fault's code.
    pub fn code(self) -> u8
        ensures { result ≡ code_of self }
    {
        match self {
            Fault::Token => 40,
            Fault::Role => 41,
            Fault::Twice => 42,
            Fault::Range => 43,
        }
    }
}

/// Why the reader stopped.
#[derive(Clone, Copy, Debug, PartialEq, Eq)]
pub enum PlanError {
    /// The fault is at the token that is next, or at the end.
    Refused(Fault),
    Memory,
}

impl From<AllocError> for PlanError {
    ghost from_gives = { λ _ e. e ≡ Memory };

    fn from(_e: AllocError) -> PlanError {
        PlanError::Memory
    }
}

impl<T: Drop> From<AllocFailed<T>> for PlanError {
    ghost from_gives = { λ _ e. e ≡ Memory };

    fn from(_e: AllocFailed<T>) -> PlanError {
        PlanError::Memory
    }
}
