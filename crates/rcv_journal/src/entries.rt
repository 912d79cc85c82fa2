// The lines of entries.

ghost use Rattle.std.specs.Prelude.{◌≡◌, ◌<◌, ◌≤◌, ◌++◌, flat_map, codes};
ghost use Rattle.std.specs.List.{range_with_len};
ghost use Rattle.rcv_tree.specs.declared.entry.Entry.TheVariants.{Send, Recv, Crash, Recover};
ghost use Rattle.rcv_page.specs.Page.{Adds, at};
ghost use Rattle.rcv_session.specs.Session.{roles_of, net_for};
ghost use Rattle.rcv_journal.specs.Heads.{rest_text, head_text, line_begun, AreHeads};
ghost use Rattle.rcv_journal.specs.JournalText.{IsNamed, IsNamedEvent, IsDeclared, AreNamed, event_text};
ghost use Rattle.rcv_journal.specs.JournalText.{kept_text, entry_line};

use crate::head::Head;
use crate::name::name_of;
use rcv_core::setup::Setup;
use rcv_io::Sink;
use rcv_page::Page;
use rcv_tree::entry::Entry;
use rcv_tree::event::Event;
use rcv_tree::point::Point;
use rcv_tree::role::{RoleId, RoleSet};

// What a Send and a Recv have in common after how they begin: `VALUE @STAMP`.
#[inline(always)]
fn write_rest<K: Sink>(page: &mut Page, sink: &mut K, event: &Event)
    ensures { Adds (at K.written K.faults sink.old page.old) (at K.written K.faults sink.new page.new)
        (rest_text event.now) }
{
    page.signed_number(sink, event.value);
    page.word(sink, b" @");
    page.number(sink, event.stamp);
}

// The line of a Send. The setup only tells the proof which text the event belongs to.
#[inline(always)]
fn write_send<K: Sink>(page: &mut Page, sink: &mut K, setup: &Setup, heads: &[Head], event: &Event)
    requires heads { AreHeads line_begun setup.now heads.now }
    requires named { IsNamed setup.now (Send event.now) }
    ensures { Adds (at K.written K.faults sink.old page.old) (at K.written K.faults sink.new page.new)
        (entry_line setup.now (Send event.now)) }
{
    let head = &heads[event.point.0 as usize - 1];
    page.word(sink, head.send.as_slice());
    write_rest(page, sink, event);
    page.byte(sink, b'\n');
}

// The line of a Recv.
#[inline(always)]
fn write_recv<K: Sink>(page: &mut Page, sink: &mut K, setup: &Setup, heads: &[Head], event: &Event)
    requires heads { AreHeads line_begun setup.now heads.now }
    requires named { IsNamed setup.now (Recv event.now) }
    ensures { Adds (at K.written K.faults sink.old page.old) (at K.written K.faults sink.new page.new)
        (entry_line setup.now (Recv event.now)) }
{
    let head = &heads[event.point.0 as usize - 1];
    page.word(sink, head.recv.as_slice());
    write_rest(page, sink, event);
    page.word(sink, b" <");
    page.number(sink, event.sent);
    page.byte(sink, b'\n');
}

// The line of a Crash.
fn write_crash<K: Sink>(page: &mut Page, sink: &mut K, setup: &Setup, role: RoleId)
    requires { role < roles_of setup.now }
    ensures { Adds (at K.written K.faults sink.old page.old) (at K.written K.faults sink.new page.new)
        (entry_line setup.now (Crash role)) }
{
    page.word(sink, b"crash ");
    page.word(sink, name_of(setup, role));
    page.byte(sink, b'\n');
}

// What a recovery says of one role.
fn write_kept<K: Sink>(
    page: &mut Page,
    sink: &mut K,
    setup: &Setup,
    role: RoleId,
    concerned: RoleSet,
    kept: &[u32; 8],
)
    requires declared { role < roles_of setup.now }
    requires few { role < 8 }
    ensures { Adds (at K.written K.faults sink.old page.old) (at K.written K.faults sink.new page.new)
        (kept_text setup.now concerned.0 kept.now role) }
{
    if !concerned.has(role) {
        return;
    }
    page.byte(sink, b' ');
    page.word(sink, name_of(setup, role));
    page.byte(sink, b' ');
    page.number(sink, kept[role.0 as usize] as u64);
}

// What a recovery says of the concerned roles.
fn write_concerned<K: Sink>(
    page: &mut Page,
    sink: &mut K,
    setup: &Setup,
    concerned: RoleSet,
    kept: &[u32; 8],
)
    ensures { Adds (at K.written K.faults sink.old page.old) (at K.written K.faults sink.new page.new)
        (flat_map (kept_text setup.now concerned.0 kept.now) (range_with_len 0 (roles_of setup.now))) }
{
    for role in 0..setup.protocol().roles.as_slice().len() {
        write_kept(page, sink, setup, RoleId(role as u8), concerned, kept);
    }
}

// The line of a Recover.
fn write_recover<K: Sink>(
    page: &mut Page,
    sink: &mut K,
    setup: &Setup,
    role: RoleId,
    concerned: RoleSet,
    kept: &[u32; 8],
    undone: u32,
)
    requires { role < roles_of setup.now }
    ensures { Adds (at K.written K.faults sink.old page.old) (at K.written K.faults sink.new page.new)
        (entry_line setup.now (Recover role concerned kept.now undone)) }
{
    page.word(sink, b"recover ");
    page.word(sink, name_of(setup, role));
    page.word(sink, b" undone ");
    page.number(sink, undone as u64);
    page.byte(sink, b':');
    write_concerned(page, sink, setup, concerned, kept);
    page.byte(sink, b'\n');
}

// The line of an entry.
#[inline(always)]
fn write_entry<K: Sink>(page: &mut Page, sink: &mut K, setup: &Setup, heads: &[Head], entry: &Entry)
    requires heads { AreHeads line_begun setup.now heads.now }
    requires named { IsNamed setup.now entry.now }
    ensures { Adds (at K.written K.faults sink.old page.old) (at K.written K.faults sink.new page.new)
        (entry_line setup.now entry.now) }
{
    match entry {
        Entry::Send(event) => write_send(page, sink, setup, heads, event),
        Entry::Recv(event) => write_recv(page, sink, setup, heads, event),
        Entry::Crash(role) => write_crash(page, sink, setup, *role),
        Entry::Recover {
            role,
            concerned,
            kept,
            undone,
        } => write_recover(page, sink, setup, *role, *concerned, kept, *undone),
    }
}

// The lines of all entries.
pub fn write_entries<K: Sink>(
    page: &mut Page,
    sink: &mut K,
    setup: &Setup,
    heads: &[Head],
    entries: &[Entry],
)
    requires heads { AreHeads line_begun setup.now heads.now }
    requires named { AreNamed setup.now entries.now }
    ensures { Adds (at K.written K.faults sink.old page.old) (at K.written K.faults sink.new page.new)
        (flat_map (entry_line setup.now) entries.now) }
{
    for entry in entries {
        write_entry(page, sink, setup, heads, entry);
    }
}

// How a line of this kind begins if it tells of a declared role at a point of the text.
fn write_head<K: Sink>(
    page: &mut Page,
    sink: &mut K,
    setup: &Setup,
    kind: &[u8],
    role: RoleId,
    point: Point,
)
    requires declared { role < roles_of setup.now }
    requires first { 1 ≤ point }
    requires last { point ≤ (net_for setup.now).count }
    ensures { Adds (at K.written K.faults sink.old page.old) (at K.written K.faults sink.new page.new)
        (head_text setup.now kind.now role point) }
{
    page.word(sink, kind);
    page.word(sink, name_of(setup, role));
    page.byte(sink, b' ');
    page.number(sink, point.0 as u64);
    page.byte(sink, b' ');
    page.word(sink, setup.label(point));
    page.byte(sink, b' ');
}

// `KIND ROLE POINT LABEL VALUE @STAMP` of an event that any role makes. The kind ends in a space.
fn write_event<K: Sink>(page: &mut Page, sink: &mut K, setup: &Setup, kind: &[u8], event: &Event)
    requires { IsNamedEvent setup.now event.now }
    ensures { Adds (at K.written K.faults sink.old page.old) (at K.written K.faults sink.new page.new)
        (kind.now ++ event_text setup.now event.now) }
{
    write_head(page, sink, setup, kind, event.role, event.point);
    write_rest(page, sink, event);
}

// The line of a Send that any role makes.
fn write_send_alone<K: Sink>(page: &mut Page, sink: &mut K, setup: &Setup, event: &Event)
    requires { IsDeclared setup.now (Send event.now) }
    ensures { Adds (at K.written K.faults sink.old page.old) (at K.written K.faults sink.new page.new)
        (entry_line setup.now (Send event.now)) }
{
    write_event(page, sink, setup, b"send ", event);
    page.byte(sink, b'\n');
}

// The line of a Recv that any role makes.
fn write_recv_alone<K: Sink>(page: &mut Page, sink: &mut K, setup: &Setup, event: &Event)
    requires { IsDeclared setup.now (Recv event.now) }
    ensures { Adds (at K.written K.faults sink.old page.old) (at K.written K.faults sink.new page.new)
        (entry_line setup.now (Recv event.now)) }
{
    write_event(page, sink, setup, b"recv ", event);
    page.word(sink, b" <");
    page.number(sink, event.sent);
    page.byte(sink, b'\n');
}

/// The line of one entry alone.
pub fn write_alone<K: Sink>(page: &mut Page, sink: &mut K, setup: &Setup, entry: &Entry)
    requires { IsDeclared setup.now entry.now }
    ensures { Adds (at K.written K.faults sink.old page.old) (at K.written K.faults sink.new page.new)
        (entry_line setup.now entry.now) }
{
    match entry {
        Entry::Send(event) => write_send_alone(page, sink, setup, event),
        Entry::Recv(event) => write_recv_alone(page, sink, setup, event),
        Entry::Crash(role) => write_crash(page, sink, setup, *role),
        Entry::Recover {
            role,
            concerned,
            kept,
            undone,
        } => write_recover(page, sink, setup, *role, *concerned, kept, *undone),
    }
}
