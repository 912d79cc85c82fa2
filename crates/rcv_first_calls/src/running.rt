// Runs the session of a text.

ghost use Rattle.std.specs.Prelude.{◌≤◌, List, length, MatchResult};
ghost use Rattle.rcv_tree.specs.declared.entry.Entry.{Entry};
ghost use Rattle.rcv_model.specs.Final.{IsOneThread};
ghost use Rattle.rcv_session.specs.Session.{SessionView, rules_of};
ghost use Rattle.rcv_input.specs.Input.{IsTaken};
ghost use Rattle.rcv_input.specs.Refusals.{IsRefused};
ghost use Rattle.rcv_journal.specs.Lines.{IsTextOf};

use rcv_core::book::Book;
use rcv_core::setup::Setup;
use rcv_input::{InputError, read_input};
use rcv_journal::text::text_of;
use std::alloc::Global;

/// The journal of a text's session, which one thread ran to its end, as text; or the text's first refusal. A text has at
/// most 1,048,576 bytes. `Memory` if memory runs out.
pub fn run(alloc: Global, input: &[u8]) -> Result<Vec<u8>, InputError>
    requires { length input.now ≤ 1048576 }
    ensures { MatchResult result
        (λ text. (session : SessionView) × (journal : List Entry) × IsTaken input.now session
        × IsOneThread (rules_of session) journal × IsTextOf session journal text.items)
        (IsRefused input.now) }
{
    let taken = read_input(alloc, input)?;
    let setup = Setup::new(alloc, taken.accepted, taken.scripts, taken.plan)?;
    let mut book = Book::new(alloc, &setup)?;
    book.run_alone();
    Ok(text_of(alloc, &book)?)
}
