// The JSON of entries.

ghost use Rattle.std.specs.Prelude.{◌≡◌, ◌<◌, ◌++◌, OnOk, flat_map, codes};
ghost use Rattle.rcv_tree.specs.declared.entry.Entry.TheVariants.{Send, Recv};
ghost use Rattle.rcv_journal.specs.Heads.{AreHeads};
ghost use Rattle.rcv_journal.specs.JournalText.{IsNamed, AreNamed};
ghost use Rattle.rcv_json.specs.Heads.{head_json, rest_json, event_json};
ghost use Rattle.rcv_json.specs.Pieces.{entry_json, next_json, entries_json};

use crate::head::Listed;
use crate::recoveries::{crash_value, recovery_value};
use crate::values::write_value;
use rcv_core::setup::Setup;
use rcv_journal::head::{Head, heads};
use rcv_text::writer::Writer;
use rcv_tree::entry::Entry;
use rcv_tree::event::Event;
use std::alloc::{AllocError, Global};

// What a Send and a Recv have in common after their beginnings: `VALUE,STAMP`.
#[inline(always)]
fn write_rest(text: &mut Writer, event: &Event) -> Result<(), AllocError>
    ensures { OnOk result (text.new ≡ text.old ++ rest_json event.now) }
{
    text.signed_number(event.value)?;
    text.word(b",")?;
    text.large_number(event.stamp)
}

// The list of a Send, except for its end. The setup only tells the proof whose text the event belongs to.
#[inline(always)]
fn write_send(
    text: &mut Writer,
    setup: &Setup,
    heads: &[Head],
    event: &Event,
) -> Result<(), AllocError>
    requires heads { AreHeads head_json setup.now heads.now }
    requires named { IsNamed setup.now (Send event.now) }
    ensures { OnOk result (text.new ≡ text.old ++ event_json setup.now (codes "send") event.now) }
{
    let head = &heads[event.point.0 as usize - 1];
    text.word(head.send.as_slice())?;
    write_rest(text, event)
}

// The list of a Recv up to its stamp.
#[inline(always)]
fn write_recv(
    text: &mut Writer,
    setup: &Setup,
    heads: &[Head],
    event: &Event,
) -> Result<(), AllocError>
    requires heads { AreHeads head_json setup.now heads.now }
    requires named { IsNamed setup.now (Recv event.now) }
    ensures { OnOk result (text.new ≡ text.old ++ event_json setup.now (codes "recv") event.now) }
{
    let head = &heads[event.point.0 as usize - 1];
    text.word(head.recv.as_slice())?;
    write_rest(text, event)
}

// An entry. Most entries are events, whose lists are written without a value.
#[inline(always)]
fn write_entry(
    alloc: Global,
    text: &mut Writer,
    setup: &Setup,
    heads: &[Head],
    entry: &Entry,
) -> Result<(), AllocError>
    requires heads { AreHeads head_json setup.now heads.now }
    requires named { IsNamed setup.now entry.now }
    ensures { OnOk result (text.new ≡ text.old ++ entry_json setup.now entry.now) }
{
    match entry {
        Entry::Send(event) => {
            write_send(text, setup, heads, event)?;
            text.byte(b']')
        }
        Entry::Recv(event) => {
            write_recv(text, setup, heads, event)?;
            text.byte(b',')?;
            text.large_number(event.sent)?;
            text.byte(b']')
        }
        Entry::Crash(role) => write_value(alloc, text, &crash_value(alloc, setup, *role)?),
        Entry::Recover {
            role,
            concerned,
            kept,
            undone,
        } => {
            let value = recovery_value(alloc, setup, *role, *concerned, kept, *undone)?;
            write_value(alloc, text, &value)
        }
    }
}

// Each of these entries, after a comma.
fn write_more(
    alloc: Global,
    text: &mut Writer,
    setup: &Setup,
    heads: &[Head],
    entries: &[Entry],
) -> Result<(), AllocError>
    requires heads { AreHeads head_json setup.now heads.now }
    requires named { AreNamed setup.now entries.now }
    ensures { OnOk result (text.new ≡ text.old ++ flat_map (next_json setup.now) entries.now) }
{
    for entry in entries {
        text.byte(b',')?;
        write_entry(alloc, text, setup, heads, entry)?;
    }
    Ok(())
}

/// The text goes on with the entries, with commas between them. The roles and points that they name are declared, and
/// the ends of a point make its events. Fails if memory runs out.
pub fn write_entries(
    alloc: Global,
    text: &mut Writer,
    setup: &Setup,
    entries: &[Entry],
) -> Result<(), AllocError>
    requires { AreNamed setup.now entries.now }
    ensures { OnOk result (text.new ≡ text.old ++ entries_json setup.now entries.now) }
{
    let Some((first, more)) = entries.split_first() else {
        return Ok(());
    };
    let heads = heads::<Listed>(alloc, setup)?;
    write_entry(alloc, text, setup, heads.as_slice(), first)?;
    write_more(alloc, text, setup, heads.as_slice(), more)
}
