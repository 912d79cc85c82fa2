// The answer to `journal`.

ghost use Rattle.std.specs.Prelude.{◌≡◌, ◌≤◌, ◌<◌, ◌^◌, Some, true, false, length, IfOk};
ghost use Rattle.rcv_model.specs.Journal.{IsLegal};
ghost use Rattle.rcv_session.specs.Session.{rules_of};
ghost use Rattle.rcv_json_reader.specs.Reading.{IsReadAs};
ghost use Rattle.rcv_diagnosis.specs.Diagnosing.{is_json};
ghost use Rattle.rcv_replay.specs.Cutting.{cut_of};
ghost use Rattle.rcv_look.specs.Outcome.{IsVerdict, IsTextAnswer, IsBundleAnswer, IsJournalAnswer};

use crate::draw::draw_book;
use crate::input::MOST_OF_BUNDLE;
use crate::lines::{illegal_closing, illegal_entry, malformed, no_journal, refuse};
use crate::output::Output;
use crate::status::Status;
use rcv_core::book::Book;
use rcv_core::setup::Setup;
use rcv_diagnosis::written::{Written, is_json};
use rcv_input::read_input;
use rcv_journal::recorded::Journal;
use rcv_json_reader::{JsonError, read_json};
use rcv_judge::closing::wrong_closing;
use rcv_judge::judge::{JudgeError, judge};
use rcv_lexer::line_feeds;
use rcv_lines::text::{LinesError, read_text};
use rcv_replay::cut::{Cut, cut_of};
use std::alloc::{AllocError, Global};

/// The picture of the journal that stands after the input's bundle, or why there is none. The input has at most
/// 134,217,728 bytes. Fails if memory runs out.
pub fn journal_answer(alloc: Global, input: &[u8]) -> Result<Output, AllocError>
    requires { length input.now ≤ 134217728 }
    ensures { IfOk result (λ output. IsJournalAnswer input.now output.status output.bytes.items) }
{
    match cut_of(input) {
        Some(cut) => cut_answer(alloc, input, cut),
        None => no_journal(alloc, 1 + line_feeds(input)),
    }
}

// The answer to an input that is cut here.
fn cut_answer(alloc: Global, input: &[u8], cut: Cut) -> Result<Output, AllocError>
    requires cut { cut_of input.now ≡ Some cut }
    requires order { cut.end ≤ cut.behind }
    requires within { cut.behind ≤ length input.now }
    requires most { length input.now ≤ 134217728 }
    ensures { IfOk result (λ output. IsJournalAnswer input.now output.status output.bytes.items) }
{
    if cut.end > MOST_OF_BUNDLE {
        return Ok(Output {
            status: Status::TooLong,
            bytes: Vec::new(alloc),
        });
    }
    let feeds = line_feeds(&input[..cut.behind]);
    bundle_answer(alloc, &input[..cut.end], &input[cut.behind..], feeds)
}

// The answer to a bundle with this text after it, and so many line feeds before the text.
fn bundle_answer(
    alloc: Global,
    bundle: &[u8],
    text: &[u8],
    feeds: u32,
) -> Result<Output, AllocError>
    requires bundle { length bundle.now ≤ 1048576 }
    requires text { length text.now ≤ 134217728 }
    requires feeds { feeds ≤ 134217728 }
    ensures { IfOk result (λ output. IsBundleAnswer bundle.now text.now feeds output.status output.bytes.items) }
{
    match read_input(alloc, bundle) {
        Ok(taken) => {
            let setup = Setup::new(alloc, taken.accepted, taken.scripts, taken.plan)?;
            text_answer(alloc, &setup, text, feeds)
        }
        Err(error) => refuse(alloc, error),
    }
}

/// The answer to the text of a session after so many line feeds of the input: its picture, or why there is none.
/// The text is lines or JSON. It has at most 134,217,728 bytes, and so many line feeds stand before it at most. Fails
/// if memory runs out.
pub fn text_answer(
    alloc: Global,
    setup: &Setup,
    text: &[u8],
    feeds: u32,
) -> Result<Output, AllocError>
    requires text { length text.now ≤ 134217728 }
    requires feeds { feeds ≤ 134217728 }
    ensures { IfOk result (λ output. IsTextAnswer setup.now text.now feeds output.status output.bytes.items) }
{
    if is_json(text) {
        json_answer(alloc, setup, text, feeds)
    } else {
        lines_answer(alloc, setup, text, feeds)
    }
}

// The answer to lines.
fn lines_answer(alloc: Global, setup: &Setup, text: &[u8], feeds: u32) -> Result<Output, AllocError>
    requires lines { is_json text.now ≡ false }
    requires text { length text.now ≤ 134217728 }
    requires feeds { feeds ≤ 134217728 }
    ensures { IfOk result (λ output. IsTextAnswer setup.now text.now feeds output.status output.bytes.items) }
{
    match read_text(alloc, text, setup.accepted()) {
        Ok(journal) => verdict(alloc, setup, &journal, Written::Lines(feeds)),
        Err(LinesError::Line(number)) => malformed(alloc, feeds + number),
        Err(LinesError::Memory) => Err(AllocError),
    }
}

// The answer to JSON.
fn json_answer(alloc: Global, setup: &Setup, text: &[u8], feeds: u32) -> Result<Output, AllocError>
    requires json { is_json text.now ≡ true }
    requires feeds { feeds ≤ 134217728 }
    ensures { IfOk result (λ output. IsTextAnswer setup.now text.now feeds output.status output.bytes.items) }
{
    match read_json(alloc, text, setup.accepted()) {
        Ok(journal) => decoded_answer(alloc, setup, &journal, text, feeds),
        Err(JsonError::Shape) => malformed(alloc, feeds + 1),
        Err(JsonError::Memory) => Err(AllocError),
    }
}

// The answer to a journal that the JSON says.
fn decoded_answer(
    alloc: Global,
    setup: &Setup,
    journal: &Journal,
    text: &[u8],
    feeds: u32,
) -> Result<Output, AllocError>
    requires json { is_json text.now ≡ true }
    requires read { IsReadAs setup.now.protocol text.now journal.now }
    requires feeds { feeds ≤ 134217728 }
    ensures { IfOk result (λ output. IsTextAnswer setup.now text.now feeds output.status output.bytes.items) }
{
    // Tells the proof that the protocol is accepted, and so the text says one journal.
    let _protocol = setup.protocol();
    if journal.entries.as_slice().len() > u32::MAX as usize {
        return malformed(alloc, feeds + 1);
    }
    verdict(alloc, setup, journal, Written::Json)
}

// The answer to a journal of the form that is written so.
fn verdict(
    alloc: Global,
    setup: &Setup,
    journal: &Journal,
    written: Written,
) -> Result<Output, AllocError>
    requires { length journal.now.entries < 2 ^ 32 }
    ensures { IfOk result (λ output. IsVerdict setup.now journal.now written output.status output.bytes.items) }
{
    match judge(alloc, setup, journal.entries.as_slice()) {
        Ok(book) => close(alloc, &book, journal, written),
        Err(JudgeError::Entry(number)) => illegal_entry(alloc, written, number),
        Err(JudgeError::Memory) => Err(AllocError),
    }
}

// The answer to a journal with these entries.
fn close(
    alloc: Global,
    book: &Book<'_>,
    journal: &Journal,
    written: Written,
) -> Result<Output, AllocError>
    requires entries { book.now.entries ≡ journal.now.entries }
    requires few { length journal.now.entries < 2 ^ 32 }
    requires legal { IsLegal (rules_of book.now.setup) book.now.entries }
    ensures { IfOk result (λ output. IsVerdict book.now.setup journal.now written output.status output.bytes.items) }
{
    let wrong = wrong_closing(alloc, book, journal)?;
    match wrong {
        Some(number) => illegal_closing(alloc, written, book.len() as u32, number),
        None => Ok(Output {
            status: Status::Drawn,
            bytes: draw_book(alloc, book, journal.roles.as_slice())?,
        }),
    }
}
