// The answer to `journal --session I`.

ghost use Rattle.std.specs.Prelude.{◌≡◌, ◌≤◌, ◌+◌, ◌-◌, Some, length, IfOk};
ghost use Rattle.rcv_replay.specs.Cutting.{cut_of, journal_of};
ghost use Rattle.rcv_section.specs.Sections.{IsSection};
ghost use Rattle.rcv_look.specs.Outcome.{IsLaterAnswer, IsSessionAnswer};

use crate::input::MOST_OF_BUNDLE;
use crate::journal::text_answer;
use crate::lines::{no_journal, refuse};
use crate::output::Output;
use crate::status::Status;
use rcv_input::read_input;
use rcv_later::later::later_setup;
use rcv_lexer::line_feeds;
use rcv_replay::cut::{Cut, cut_of};
use rcv_section::section::{Section, section_of};
use std::alloc::{AllocError, Global};

/// The picture of the journal of session `number`, from 1 to 64, of those that stand after the input's bundle, or why
/// there is none. The input has at most 134,217,728 bytes. Fails if memory runs out.
pub fn session_answer(alloc: Global, input: &[u8], number: u32) -> Result<Output, AllocError>
    requires least { 1 ≤ number }
    requires most { number ≤ 64 }
    requires short { length input.now ≤ 134217728 }
    ensures { IfOk result (λ output. IsSessionAnswer number input.now output.status output.bytes.items) }
{
    match cut_of(input) {
        Some(cut) => cut_answer(alloc, input, number, cut),
        None => no_journal(alloc, 1 + line_feeds(input)),
    }
}

// The answer to an input that is cut here.
fn cut_answer(alloc: Global, input: &[u8], number: u32, cut: Cut) -> Result<Output, AllocError>
    requires least { 1 ≤ number }
    requires most { number ≤ 64 }
    requires short { length input.now ≤ 134217728 }
    requires cut { cut_of input.now ≡ Some cut }
    requires order { cut.end ≤ cut.behind }
    requires within { cut.behind ≤ length input.now }
    ensures { IfOk result (λ output. IsSessionAnswer number input.now output.status output.bytes.items) }
{
    if cut.end > MOST_OF_BUNDLE {
        return Ok(Output {
            status: Status::TooLong,
            bytes: Vec::new(alloc),
        });
    }
    let section = section_of(alloc, number, &input[cut.behind..])?;
    match section {
        Some(section) => section_answer(alloc, input, number, cut, section),
        None => no_journal(alloc, 1 + line_feeds(input)),
    }
}

// The answer to an input that is cut here, with this section of the session after the cut.
fn section_answer(
    alloc: Global,
    input: &[u8],
    number: u32,
    cut: Cut,
    section: Section,
) -> Result<Output, AllocError>
    requires least { 1 ≤ number }
    requires most { number ≤ 64 }
    requires short { length input.now ≤ 134217728 }
    requires cut { cut_of input.now ≡ Some cut }
    requires few { cut.end ≤ 1048576 }
    requires order { cut.end ≤ cut.behind }
    requires is { IsSection number (journal_of input.now cut) section }
    requires forth { section.begin ≤ section.end }
    requires within { cut.behind + section.end ≤ length input.now }
    ensures { IfOk result (λ output. IsSessionAnswer number input.now output.status output.bytes.items) }
{
    let begin = cut.behind + section.begin;
    let end = cut.behind + section.end;
    let feeds = line_feeds(&input[..begin]);
    later_answer(
        alloc,
        &input[..cut.end],
        number - 1,
        &input[begin..end],
        feeds,
    )
}

// The answer to a bundle with this text of one of its sessions, counted from 0, after so many line feeds.
fn later_answer(
    alloc: Global,
    bundle: &[u8],
    by: u32,
    text: &[u8],
    feeds: u32,
) -> Result<Output, AllocError>
    requires bundle { length bundle.now ≤ 1048576 }
    requires by { by ≤ 63 }
    requires text { length text.now ≤ 134217728 }
    requires feeds { feeds ≤ 134217728 }
    ensures { IfOk result (λ output. IsLaterAnswer by bundle.now text.now feeds output.status output.bytes.items) }
{
    match read_input(alloc, bundle) {
        Ok(taken) => {
            let setup = later_setup(alloc, taken, by)?;
            text_answer(alloc, &setup, text, feeds)
        }
        Err(error) => refuse(alloc, error),
    }
}
