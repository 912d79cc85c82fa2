// The text of a told journal, read and judged to its end.

ghost use Rattle.std.specs.Prelude.{◌≡◌, ◌<◌, ◌≤◌, ◌+◌, ◌^◌, ℕ, length, drop, IfOk, IfErr, IfSome, IfNone, OnOk};
ghost use Rattle.rcv_tree.specs.declared.entry.Entry.{Entry as TheEntry};
ghost use Rattle.rcv_journal.specs.Recorded.{bare};
ghost use Rattle.rcv_journal.specs.Form.{IsFormedEntry};
ghost use Rattle.rcv_lines.specs.Line.{EntryLine};
ghost use Rattle.rcv_lines.specs.Said.{view_of};
ghost use Rattle.rcv_guide.specs.Guide.{opened, IsMemory};
ghost use Rattle.rcv_told.specs.Told.{Remembered, told};
ghost use Rattle.rcv_fates.specs.Record.{HasKept};
ghost use Rattle.rcv_retold.specs.Retold.{terms_for, HasSameText};
ghost use Rattle.rcv_retold.specs.Text.{AreFirst, IsEnd, IsToldText, IsFirstWrong, line_of};

use crate::closing::closing;
use crate::lines::{first_line, first_other};
use crate::retell::{RetellError, retell};
use rcv_accept::accepted::Accepted;
use rcv_core::setup::Setup;
use rcv_fates::Record;
use rcv_guide::guide::Guide;
use rcv_lines::line::{Line, read_line};
use rcv_tree::entry::Entry;
use std::alloc::{AllocError, Global};
use thiserror::Error;

/// The entries at the front of a text, and how many of its bytes say them.
#[derive(Drop)]
pub struct Front {
    pub entries: Vec<Entry>,
    pub bytes: usize,
}

/// Why a text isn't that of a told journal.
#[derive(Clone, Copy, Debug, PartialEq, Eq, Error)]
pub enum ToldError {
    /// The first wrong line, counted from 1: no told journal's text begins with the lines up to it, but one does with
    /// those before it. It is the number of lines plus 1 if the text stops too early.
    #[error("the text isn't a told journal's at its line {0}")]
    Line(u32),
    /// Memory ran out.
    #[error("no memory is left")]
    Memory,
}

// The entry that was read, if one was.
fn entry_in(said: &Line) -> Option<Entry>
    ensures some { IfSome result (λ e. view_of said.now ≡ EntryLine e) }
    ensures none { IfNone result ((e : TheEntry) → view_of said.now ≡ EntryLine e → ⊥) }
{
    match said {
        Line::Entry(entry) => Some(*entry),
        Line::Role(_) => None,
        Line::End(_) => None,
    }
}

// The entry that a line says, if it says one. Fails if memory runs out.
fn read_entry(alloc: Global, accepted: &Accepted, line: &[u8]) -> Result<Option<Entry>, AllocError>
    ensures some { IfOk result (λ read. IfSome read (λ e. IsFormedEntry (bare accepted.now.protocol) e
        × (line.now ≡ line_of accepted.now.protocol e))) }
    ensures none { IfOk result (λ read. IfNone read ((e : TheEntry) → IsFormedEntry (bare accepted.now.protocol) e
        → line.now ≡ line_of accepted.now.protocol e → ⊥)) }
{
    // Tells the proof that the protocol is accepted.
    let _protocol = accepted.protocol();
    match read_line(alloc, accepted, line)? {
        Some(said) => Ok(entry_in(&said)),
        None => Ok(None),
    }
}

/// The entries that the first lines of a text say, up to the first line that says none. It doesn't ask whether they may
/// be told. Fails if memory runs out.
pub fn read_front(alloc: Global, accepted: &Accepted, text: &[u8]) -> Result<Front, AllocError>
    ensures within { IfOk result (λ front. front.bytes ≤ length text.now) }
    ensures first { IfOk result (λ front. AreFirst accepted.now.protocol text.now front.entries.items
        (drop front.bytes text.now)) }
{
    let mut entries = Vec::new(alloc);
    let mut bytes = 0;
    let mut rest = text;
    while !rest.is_empty() {
        let (line, behind) = first_line(rest);
        match read_entry(alloc, accepted, line)? {
            Some(entry) => entries.push(entry)?,
            None => return Ok(Front { entries, bytes }),
        }
        bytes += line.len();
        rest = behind;
    }
    Ok(Front { entries, bytes })
}

// The first line, counted from 1, at which a text isn't what stands after the entries that a guide was told: the number
// of its lines plus 1 if it stops too early; none if the text is that. Fails if memory runs out.
fn wrong_closing(alloc: Global, guide: &Guide, text: &[u8]) -> Result<Option<u32>, AllocError>
    requires { length text.now < 2 ^ 31 }
    ensures end { IfOk result (λ wrong. (m : Remembered) → IsMemory guide.now m → IsEnd guide.now.protocol m text.now wrong) }
    ensures within { IfOk result (λ wrong. IfSome wrong (λ k. k ≤ length text.now + 1)) }
{
    let right = closing(alloc, guide)?;
    Ok(first_other(text, right.as_slice()))
}

// The same number, counted from 1.
fn from_one(number: u32) -> u32
    requires { number + 1 < 2 ^ 32 }
    ensures { result ≡ number + 1 }
{
    number + 1
}

/// The record of the told journal that has this text of fewer than 2^31 bytes. These entries stand at its front; they
/// are told to a guide of the session with room for them. `Line` comes exactly if the text is none: an entry may not be
/// told as it stands after those before it, or what stands after the entries isn't where the roles are then. `Memory`
/// comes if memory runs out.
pub fn judge<'a>(
    alloc: Global,
    setup: &'a Setup,
    guide: &mut Guide,
    text: &[u8],
    front: &'a Front,
) -> Result<Record<'a>, ToldError>
    requires few { length text.now < 2 ^ 31 }
    requires within { front.now.bytes ≤ length text.now }
    requires first { AreFirst setup.now.protocol text.now front.now.entries.items (drop front.now.bytes text.now) }
    requires fresh { guide.old ≡ opened guide.old.protocol setup.now.plan (length front.now.entries.items) }
    requires same { HasSameText guide.old.protocol setup.now.protocol }
    ensures told { OnOk result (IsToldText setup.now text.now front.now.entries.items) }
    ensures setup { IfOk result (λ made. made.setup ≡ setup.now) }
    ensures entries { IfOk result (λ made. made.entries ≡ front.now.entries.items) }
    ensures kept { IfOk result (λ made. HasKept made (told (terms_for setup.now) front.now.entries.items).held) }
    ensures protocol { OnOk result (HasSameText guide.new.protocol setup.now.protocol) }
    ensures memory { OnOk result (IsMemory guide.new (told (terms_for setup.now) front.now.entries.items)) }
    ensures wrong { IfErr result (λ e. (k : ℕ) → e ≡ ToldError.Line k → IsFirstWrong setup.now text.now k) }
{
    // Tells the proof that the protocol is accepted.
    let _protocol = setup.protocol();
    let record = match retell(alloc, setup, guide, front.entries.as_slice()) {
        Ok(record) => record,
        Err(RetellError::Entry(number)) => return Err(ToldError::Line(from_one(number))),
        Err(RetellError::Memory) => return Err(ToldError::Memory),
    };
    match wrong_closing(alloc, guide, &text[front.bytes..]) {
        Ok(None) => Ok(record),
        Ok(Some(number)) => Err(ToldError::Line(front.entries.len() as u32 + number)),
        Err(_) => Err(ToldError::Memory),
    }
}
