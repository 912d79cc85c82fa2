// What is found in a journal's text by its session.

ghost use Rattle.std.specs.Prelude.{◌≡◌, ◌≤◌, ◌<◌, ◌^◌, ◌+◌, true, false, length, IfOk};
ghost use Rattle.rcv_script.specs.Scripts.{AreScriptsFor};
ghost use Rattle.rcv_plan.specs.Lines.{IsPlanned};
ghost use Rattle.rcv_json_reader.specs.Reading.{IsReadAs};
ghost use Rattle.rcv_input.specs.declared.refused.Refused.TheVariants.{Line};
ghost use Rattle.rcv_diagnosis.specs.Diagnosing.{is_json, Says, IsRefusal, IsOfText, IsOfLines, IsOfJson};

use crate::diagnosis::Diagnosis;
use crate::journal::of_journal;
use crate::telling::refusal;
use crate::written::{Written, is_json};
use rcv_core::setup::Setup;
use rcv_input::{Input, Refused};
use rcv_journal::recorded::Journal;
use rcv_json_reader::{JsonError, read_json};
use rcv_lines::text::{LinesError, read_text};
use std::alloc::{AllocError, Global};

/// What is found in the text after so many line feeds.
pub fn of_session(
    alloc: Global,
    taken: Input,
    text: &[u8],
    feeds: u32,
) -> Result<Diagnosis, AllocError>
    requires belong { AreScriptsFor taken.accepted.protocol taken.scripts }
    requires planned { IsPlanned (length taken.accepted.protocol.roles) taken.plan }
    requires text { length text.now ≤ 134217728 }
    requires feeds { feeds ≤ 134217728 }
    ensures { IfOk result (λ answer. Says (IsOfText (is_json text.now)
        (record { protocol = taken.accepted.protocol; scripts = taken.scripts.lines; plan = taken.plan })
        text.now feeds) answer.finding answer.bytes.items) }
{
    let setup = Setup::new(alloc, taken.accepted, taken.scripts, taken.plan)?;
    of_text(alloc, &setup, text, feeds)
}

// The same by the setup.
fn of_text(alloc: Global, setup: &Setup, text: &[u8], feeds: u32) -> Result<Diagnosis, AllocError>
    requires text { length text.now ≤ 134217728 }
    requires feeds { feeds ≤ 134217728 }
    ensures { IfOk result (λ answer. Says (IsOfText (is_json text.now) setup.now text.now feeds)
        answer.finding answer.bytes.items) }
{
    if is_json(text) {
        of_json(alloc, setup, text, feeds)
    } else {
        of_lines(alloc, setup, text, feeds)
    }
}

// What is found in lines.
fn of_lines(alloc: Global, setup: &Setup, text: &[u8], feeds: u32) -> Result<Diagnosis, AllocError>
    requires text { length text.now ≤ 134217728 }
    requires feeds { feeds ≤ 134217728 }
    ensures { IfOk result (λ answer. Says (IsOfLines setup.now text.now feeds) answer.finding answer.bytes.items) }
{
    match read_text(alloc, text, setup.accepted()) {
        Ok(journal) => of_journal(alloc, setup, &journal, Written::Lines(feeds)),
        Err(LinesError::Line(number)) => malformed(alloc, feeds + number),
        Err(LinesError::Memory) => Err(AllocError),
    }
}

// What is found in JSON.
fn of_json(alloc: Global, setup: &Setup, text: &[u8], feeds: u32) -> Result<Diagnosis, AllocError>
    requires feeds { feeds ≤ 134217728 }
    ensures { IfOk result (λ answer. Says (IsOfJson setup.now text.now feeds) answer.finding answer.bytes.items) }
{
    match read_json(alloc, text, setup.accepted()) {
        Ok(journal) => of_decoded(alloc, setup, &journal, text, feeds),
        Err(JsonError::Shape) => malformed(alloc, feeds + 1),
        Err(JsonError::Memory) => Err(AllocError),
    }
}

// What is found in a journal that the JSON says.
fn of_decoded(
    alloc: Global,
    setup: &Setup,
    journal: &Journal,
    text: &[u8],
    feeds: u32,
) -> Result<Diagnosis, AllocError>
    requires read { IsReadAs setup.now.protocol text.now journal.now }
    requires feeds { feeds ≤ 134217728 }
    ensures { IfOk result (λ answer. Says (IsOfJson setup.now text.now feeds) answer.finding answer.bytes.items) }
{
    // Tells the proof that the protocol is accepted, and so the text says one journal.
    let _protocol = setup.protocol();
    if journal.entries.as_slice().len() > u32::MAX as usize {
        return malformed(alloc, feeds + 1);
    }
    of_journal(alloc, setup, journal, Written::Json)
}

// Says the line of the input at which the text isn't of the form.
fn malformed(alloc: Global, line: u32) -> Result<Diagnosis, AllocError>
    ensures { IfOk result (λ answer. Says (IsRefusal (Line 51 line)) answer.finding answer.bytes.items) }
{
    refusal(alloc, &Refused::Line { code: 51, line })
}
