// Judges a journal that stands after its bundle.

ghost use Rattle.std.specs.Prelude.{◌≡◌, ◌≤◌, ◌<◌, ◌+◌, ◌^◌, ◌↔◌, Some, [], ◌≢◌, length, IfOk, IsTrue};
ghost use Rattle.rcv_model.specs.Journal.{IsLegal};
ghost use Rattle.rcv_script.specs.Scripts.{AreScriptsFor};
ghost use Rattle.rcv_plan.specs.Lines.{IsPlanned};
ghost use Rattle.rcv_session.specs.Session.{rules_of};
ghost use Rattle.rcv_replay.specs.Cutting.{cut_of};
ghost use Rattle.rcv_replay.specs.Replaying.{IsVerdict, IsOfText, IsOfBundle, IsReplay};

use crate::cut::{Cut, cut_of};
use crate::replayed::Replayed;
use rcv_core::book::Book;
use rcv_core::setup::Setup;
use rcv_input::{Input, InputError, Refused, read_input};
use rcv_journal::recorded::Journal;
use rcv_judge::closing::wrong_closing;
use rcv_judge::judge::{JudgeError, judge};
use rcv_lexer::line_feeds;
use rcv_lines::text::{LinesError, read_text};
use std::alloc::{AllocError, Global};

/// What is said of the journal that stands after the input's bundle, of at most 1,048,576 bytes in all:
///
/// - `Refused` with 50 if no line is `%% journal`, at the line of the input's end; else with the first refusal of the
///   bundle before that line; else with 51 if the text after it isn't of the form, at the first such line;
/// - `WrongEntry` with the first entry that may not come after those before it;
/// - `WrongEnd` if each may come, but the session isn't at its end or the lines after them aren't what they leave;
/// - `Legal` else.
///
/// Whether a channel has room isn't asked. Fails if memory runs out.
pub fn replay(alloc: Global, input: &[u8]) -> Result<Replayed, AllocError>
    requires { length input.now ≤ 1048576 }
    ensures { IfOk result (IsReplay input.now) }
{
    match cut_of(input) {
        Some(cut) => parted(alloc, input, cut),
        None => Ok(Replayed::Refused(Refused::Line {
            code: 50,
            line: 1 + line_feeds(input),
        })),
    }
}

// What is said of an input that is cut here.
fn parted(alloc: Global, input: &[u8], cut: Cut) -> Result<Replayed, AllocError>
    requires cut { cut_of input.now ≡ Some cut }
    requires order { cut.end ≤ cut.behind }
    requires within { cut.behind ≤ length input.now }
    requires most { length input.now ≤ 1048576 }
    ensures { IfOk result (IsReplay input.now) }
{
    let feeds = line_feeds(&input[..cut.behind]);
    of_bundle(alloc, &input[..cut.end], &input[cut.behind..], feeds)
}

// What is said of a bundle with this text after it. So many line feeds stand before the text.
fn of_bundle(alloc: Global, bundle: &[u8], text: &[u8], feeds: u32) -> Result<Replayed, AllocError>
    requires bundle { length bundle.now ≤ 1048576 }
    requires text { length text.now ≤ 1048576 }
    requires feeds { feeds ≤ 1048576 }
    ensures { IfOk result (IsOfBundle bundle.now text.now feeds) }
{
    match read_input(alloc, bundle) {
        Ok(taken) => of_text(alloc, taken, text, feeds),
        Err(InputError::Refused(refused)) => Ok(Replayed::Refused(refused)),
        Err(InputError::Memory) => Err(AllocError),
    }
}

// What is said of the text after so many line feeds.
fn of_text(alloc: Global, taken: Input, text: &[u8], feeds: u32) -> Result<Replayed, AllocError>
    requires belong { AreScriptsFor taken.accepted.protocol taken.scripts }
    requires planned { IsPlanned (length taken.accepted.protocol.roles) taken.plan }
    requires text { length text.now ≤ 1048576 }
    requires feeds { feeds ≤ 1048576 }
    ensures { IfOk result (IsOfText
        (record { protocol = taken.accepted.protocol; scripts = taken.scripts.lines; plan = taken.plan })
        text.now feeds) }
{
    let setup = Setup::new(alloc, taken.accepted, taken.scripts, taken.plan)?;
    match read_text(alloc, text, setup.accepted()) {
        Ok(journal) => verdict(alloc, &setup, &journal),
        Err(LinesError::Line(number)) => Ok(Replayed::Refused(Refused::Line {
            code: 51,
            line: feeds + number,
        })),
        Err(LinesError::Memory) => Err(AllocError),
    }
}

// What is said of a journal of the form.
fn verdict(alloc: Global, setup: &Setup, journal: &Journal) -> Result<Replayed, AllocError>
    requires { length journal.now.entries < 2 ^ 32 }
    ensures { IfOk result (IsVerdict setup.now journal.now) }
{
    match judge(alloc, setup, journal.entries.as_slice()) {
        Ok(book) => close(alloc, &book, journal),
        Err(JudgeError::Entry(number)) => Ok(Replayed::WrongEntry(from_one(number))),
        Err(JudgeError::Memory) => Err(AllocError),
    }
}

// The number, counted from 1, of what has this number, counted from 0.
fn from_one(number: u32) -> u32
    requires { number + 1 < 2 ^ 32 }
    ensures { result ≡ number + 1 }
{
    number + 1
}

// What is said of a journal with these entries, each of which may come.
fn close(alloc: Global, book: &Book<'_>, journal: &Journal) -> Result<Replayed, AllocError>
    requires entries { book.now.entries ≡ journal.now.entries }
    requires few { length journal.now.entries < 2 ^ 32 }
    requires legal { IsLegal (rules_of book.now.setup) book.now.entries }
    ensures { IfOk result (IsVerdict book.now.setup journal.now) }
{
    let wrong = wrong_closing(alloc, book, journal)?;
    match wrong {
        Some(_) => Ok(Replayed::WrongEnd),
        None => Ok(Replayed::Legal {
            entries: book.len() as u32,
            limited: is_limited(journal),
        }),
    }
}

// Whether the last line of a journal names a role.
fn is_limited(journal: &Journal) -> bool
    ensures { IsTrue result ↔ journal.now.limited ≢ [] }
{
    !journal.limited.as_slice().is_empty()
}
