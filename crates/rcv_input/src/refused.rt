// Why an input isn't taken.

ghost use Rattle.std.specs.Prelude.{◌≡◌, ℕ};
ghost use Rattle.rcv_tree.specs.declared.refusal.Refusal.TheVariants.{Text};
ghost use Rattle.rcv_tree.specs.declared.refusal.TextError.TheVariants as errors;
ghost use Rattle.rcv_input.specs.Refusals.{IsTextError};
ghost use Rattle.rcv_input.specs.declared.refused.InputError.TheVariants.{Memory, Refused};

use rcv_tree::name::Name;
use rcv_tree::refusal::{Refusal, TextError};
use std::alloc::{AllocError, AllocFailed};

/// A refusal, as a user reads it. docs/FORMATS.md lists the codes.
#[derive(Drop)]
pub enum Refused {
    /// The text breaks a rule at a line, counted from 1.
    Line { code: u8, line: u32 },
    /// The protocol breaks a rule of acceptance at the role with this name, at a place of its own or a point.
    Rule { code: u8, role: Name, number: u16 },
    /// The role that the command names isn't declared.
    NoRole,
    /// The sessions that are asked for may make more events in all than there is room for.
    TooMuch,
}

/// Why an input isn't taken.
#[derive(Drop)]
pub enum InputError {
    /// It is refused.
    Refused(Refused),
    /// No memory was left.
    Memory,
}

impl From<AllocError> for InputError {
    ghost from_gives = { λ _ e. e ≡ Memory };

    fn from(_e: AllocError) -> InputError {
        InputError::Memory
    }
}

impl<T: Drop> From<AllocFailed<T>> for InputError {
    ghost from_gives = { λ _ e. e ≡ Memory };

    fn from(_e: AllocFailed<T>) -> InputError {
        InputError::Memory
    }
}

/// An error that has a line, if it is a refusal.
pub fn at_line(error: TextError) -> InputError
    requires { IsTextError error }
    ensures refused { (code line : ℕ) → error ≡ errors.Refused (Text code line)
        → result ≡ InputError.Refused (Refused.Line code line) }
    ensures memory { error ≡ errors.Memory → result ≡ InputError.Memory }
{
    match error {
        TextError::Refused(Refusal::Text { code, line }) => {
            InputError::Refused(Refused::Line { code, line })
        }
        TextError::Refused(_) => unreachable!(),
        TextError::Memory => InputError::Memory,
    }
}
