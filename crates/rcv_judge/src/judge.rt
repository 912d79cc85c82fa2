// The entries of a journal, judged one after another.

ghost use Rattle.std.specs.Prelude.{◌≡◌, ◌<◌, ◌^◌, ℕ, length, IfOk, IfErr};
ghost use Rattle.rcv_model.specs.Journal.{IsLegal};
ghost use Rattle.rcv_session.specs.Session.{rules_of};
ghost use Rattle.rcv_judge.specs.Judged.{IsFirstWrong};
ghost use Rattle.rcv_judge.specs.declared.judge.JudgeError.TheVariants as errors;

use crate::coming::may_come;
use rcv_core::book::Book;
use rcv_core::setup::Setup;
use rcv_tree::entry::Entry;
use std::alloc::{AllocError, Global};
use thiserror::Error;

/// Why entries have no book.
#[derive(Clone, Copy, Debug, PartialEq, Eq, Error)]
pub enum JudgeError {
    /// The first entry, counted from 0, that may not come after those before it.
    #[error("entry {0} may not come")]
    Entry(u32),
    /// No memory was left.
    #[error("no memory is left")]
    Memory,
}

impl From<AllocError> for JudgeError {
    ghost from_gives = { λ _ e. e ≡ errors.Memory };

    fn from(_e: AllocError) -> JudgeError {
        JudgeError::Memory
    }
}

/// The book of a session with these entries, fewer than 2^32: a legal journal, whatever the room of its channels.
/// `Entry` comes exactly if one of them may not come after those before it. `Memory` comes if memory runs out.
pub fn judge<'a>(alloc: Global, setup: &'a Setup, entries: &[Entry]) -> Result<Book<'a>, JudgeError>
    requires { length entries.now < 2 ^ 32 }
    ensures ok { IfOk result (λ book. book ≡ record { setup = setup.now; entries = entries.now }) }
    ensures legal { IfOk result (λ _. IsLegal (rules_of setup.now) entries.now) }
    ensures wrong { IfErr result (λ e. (k : ℕ) → e ≡ JudgeError.Entry k
        → IsFirstWrong (rules_of setup.now) entries.now k) }
{
    let mut book = Book::new(alloc, setup)?;
    book.stop_choosing();
    for (number, entry) in entries.iter().enumerate() {
        if !may_come(&book, entry) {
            return Err(JudgeError::Entry(number as u32));
        }
        // The room is there, so it succeeds.
        book.push(*entry)?;
    }
    Ok(book)
}
