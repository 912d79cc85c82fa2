// The lines of entries, as a journal has them, but without their line feeds.

ghost use Rattle.std.specs.Prelude.{◌≡◌, ◌<◌, ◌++◌, IfOk, OnOk, flat_map};
ghost use Rattle.std.specs.List.{range_with_len};
ghost use Rattle.rcv_session.specs.Session.{roles_of};
ghost use Rattle.rcv_journal.specs.JournalText.{IsNamed, IsNamedEvent, event_text, kept_text};
ghost use Rattle.rcv_fates.specs.Record.{journal_of};
ghost use Rattle.rcv_scene.specs.Told.{bare_line, IsLineAt};

use rcv_core::setup::Setup;
use rcv_fates::Record;
use rcv_journal::name::name_of;
use rcv_text::writer::Writer;
use rcv_tree::entry::Entry;
use rcv_tree::event::Event;
use rcv_tree::role::{RoleId, RoleSet};
use std::alloc::{AllocError, Global};

// Most lines have at most so many bytes.
const LINE: usize = 48;

// What the lines of a Send and a Recv have in common.
fn write_event(text: &mut Writer, setup: &Setup, event: &Event) -> Result<(), AllocError>
    requires { IsNamedEvent setup.now event.now }
    ensures { OnOk result (text.new ≡ text.old ++ event_text setup.now event.now) }
{
    text.word(name_of(setup, event.role))?;
    text.byte(b' ')?;
    text.number(event.point.0)?;
    text.byte(b' ')?;
    text.word(setup.label(event.point))?;
    text.byte(b' ')?;
    text.signed_number(event.value)?;
    text.word(b" @")?;
    text.large_number(event.stamp)
}

// What a recovery says of one role.
fn write_kept(
    text: &mut Writer,
    setup: &Setup,
    role: RoleId,
    concerned: RoleSet,
    kept: &[u32; 8],
) -> Result<(), AllocError>
    requires declared { role < roles_of setup.now }
    requires few { role < 8 }
    ensures { OnOk result (text.new ≡ text.old ++ kept_text setup.now concerned.0 kept.now role) }
{
    if !concerned.has(role) {
        return Ok(());
    }
    text.byte(b' ')?;
    text.word(name_of(setup, role))?;
    text.byte(b' ')?;
    text.large_number(u64::from(kept[role.0 as usize]))
}

// What a recovery says of the concerned roles.
fn write_concerned(
    text: &mut Writer,
    setup: &Setup,
    concerned: RoleSet,
    kept: &[u32; 8],
) -> Result<(), AllocError>
    ensures { OnOk result (text.new ≡ text.old
        ++ flat_map (kept_text setup.now concerned.0 kept.now) (range_with_len 0 (roles_of setup.now))) }
{
    for role in 0..setup.protocol().roles.as_slice().len() {
        write_kept(text, setup, RoleId(role as u8), concerned, kept)?;
    }
    Ok(())
}

// The line of an entry.
fn write_entry(text: &mut Writer, setup: &Setup, entry: &Entry) -> Result<(), AllocError>
    requires { IsNamed setup.now entry.now }
    ensures { OnOk result (text.new ≡ text.old ++ bare_line setup.now entry.now) }
{
    match entry {
        Entry::Send(event) => {
            text.word(b"send ")?;
            write_event(text, setup, event)
        }
        Entry::Recv(event) => {
            text.word(b"recv ")?;
            write_event(text, setup, event)?;
            text.word(b" <")?;
            text.large_number(event.sent)
        }
        Entry::Crash(role) => {
            text.word(b"crash ")?;
            text.word(name_of(setup, *role))
        }
        Entry::Recover {
            role,
            concerned,
            kept,
            undone,
        } => {
            text.word(b"recover ")?;
            text.word(name_of(setup, *role))?;
            text.word(b" undone ")?;
            text.large_number(u64::from(*undone))?;
            text.byte(b':')?;
            write_concerned(text, setup, *concerned, kept)
        }
    }
}

// The line of an entry, alone.
fn line_of(alloc: Global, setup: &Setup, entry: &Entry) -> Result<Vec<u8>, AllocError>
    requires { IsNamed setup.now entry.now }
    ensures { IfOk result (λ line. line.items ≡ bare_line setup.now entry.now) }
{
    let mut text = Writer::with_room(alloc, LINE)?;
    write_entry(&mut text, setup, entry)?;
    Ok(text.finish())
}

/// The line of the entry of a journal at a place, without its line feed; empty if there is none. Fails if memory runs
/// out.
pub fn line_at(alloc: Global, record: &Record<'_>, at: u32) -> Result<Vec<u8>, AllocError>
    ensures { IfOk result (λ line. IsLineAt (journal_of record.now) at line.items) }
{
    match record.entries().get(at as usize) {
        Some(entry) => line_of(alloc, record.setup(), entry),
        None => Ok(Vec::new(alloc)),
    }
}
