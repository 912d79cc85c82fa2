// One thread's steps of a session, by its book alone, each told to a gate.
#![tactic(auto)]

ghost use Rattle.std.specs.Prelude.{◌≡◌, MatchOption};
ghost use Rattle.rcv_model.specs.Final.{IsStep};
ghost use Rattle.rcv_session.specs.Session.{rules_of};
ghost use Rattle.rcv_core.specs.Book.{state_of, HasMore, IsAtEnd};
ghost use Rattle.rcv_core.specs.Skips.{IsSkip};
ghost use Rattle.rcv_alone.specs.Steps.{HasStepped};

use rcv_core::book::Book;
use rcv_core::skip::Skip;
use rcv_gate::Gate;
use rcv_tree::entry::Entry;

/// Adds the entry that one thread makes next, and says what is known after it; None at the end of the session. It takes
/// no memory.
#[inline(always)]
pub fn step_alone<G: Gate>(book: &mut Book, skip: Skip, gate: &G) -> Option<Skip>
    requires { IsSkip book.old skip }
    ensures { MatchOption result ((book.new ≡ book.old) × IsAtEnd book.old)
        (λ behind. HasMore book.old × HasStepped book.old book.new × IsSkip book.new behind) }
{
    // Tells the proof that the journal is legal.
    let _entries = book.entries();
    let Some(entry) = book.next_entry(skip) else {
        return None;
    };
    announce(book, &entry, gate);
    // The room is there, so it succeeds.
    let _added = book.push(entry);
    Some(book.skip_behind(&entry))
}

// Tells the gate of a step before it is made.
fn announce<G: Gate>(book: &Book, entry: &Entry, gate: &G)
    requires { IsStep (rules_of book.now.setup) (state_of book.now) entry.now }
{
    match entry {
        Entry::Send(event) => gate.enter(event.role, book.raw(event.role)),
        Entry::Recv(event) => gate.enter(event.role, book.raw(event.role)),
        Entry::Crash(role) => gate.enter(*role, book.raw(*role)),
        Entry::Recover { role, .. } => gate.recovering(*role),
    }
}
