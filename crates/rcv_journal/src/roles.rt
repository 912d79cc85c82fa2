// The lines of roles, and the last line.

ghost use Rattle.std.specs.Prelude.{◌≡◌, ◌<◌, flat_map};
ghost use Rattle.std.specs.List.{list_all};
ghost use Rattle.rcv_page.specs.Page.{Adds, at};
ghost use Rattle.rcv_session.specs.Session.{roles_of};
ghost use Rattle.rcv_journal.specs.JournalText.{HaveRoles, is_done, limit_text, word_text, role_line, last_line};

use crate::line::{RoleLine, RoleWord};
use crate::name::name_of;
use rcv_core::setup::Setup;
use rcv_io::Sink;
use rcv_page::Page;

// The word as it is written.
fn text_of_word(word: RoleWord) -> &'static [u8]
    ensures { result.now ≡ word_text word }
{
    match word {
        RoleWord::Done => b"done",
        RoleWord::Limit => b"limit",
        RoleWord::Waits => b"waits",
    }
}

// The line of a role.
fn write_role<K: Sink>(page: &mut Page, sink: &mut K, setup: &Setup, line: &RoleLine)
    requires { line.now.role < roles_of setup.now }
    ensures { Adds (at K.written K.faults sink.old page.old) (at K.written K.faults sink.new page.new)
        (role_line setup.now line.now) }
{
    page.word(sink, b"role ");
    page.word(sink, name_of(setup, line.role));
    page.word(sink, b" kept ");
    page.number(sink, line.kept as u64);
    page.word(sink, b" raw ");
    page.number(sink, line.raw as u64);
    page.byte(sink, b' ');
    page.word(sink, text_of_word(line.word));
    page.byte(sink, b'\n');
}

// The lines of all roles.
pub fn write_roles<K: Sink>(page: &mut Page, sink: &mut K, setup: &Setup, lines: &[RoleLine])
    requires { HaveRoles setup.now lines.now }
    ensures { Adds (at K.written K.faults sink.old page.old) (at K.written K.faults sink.new page.new)
        (flat_map (role_line setup.now) lines.now) }
{
    for line in lines {
        write_role(page, sink, setup, line);
    }
}

// Whether all roles are done.
fn are_done(lines: &[RoleLine]) -> bool
    ensures { result ≡ list_all (λ line. is_done line.word) lines.now }
{
    lines.iter().all(|line| line.word == RoleWord::Done)
}

// The name of the role if it is at the limit.
fn write_if_limited<K: Sink>(page: &mut Page, sink: &mut K, setup: &Setup, line: &RoleLine)
    requires { line.now.role < roles_of setup.now }
    ensures { Adds (at K.written K.faults sink.old page.old) (at K.written K.faults sink.new page.new)
        (limit_text setup.now line.now) }
{
    if line.word != RoleWord::Limit {
        return;
    }
    page.byte(sink, b' ');
    page.word(sink, name_of(setup, line.role));
}

// The names of the roles at the limit.
fn write_limited<K: Sink>(page: &mut Page, sink: &mut K, setup: &Setup, lines: &[RoleLine])
    requires { HaveRoles setup.now lines.now }
    ensures { Adds (at K.written K.faults sink.old page.old) (at K.written K.faults sink.new page.new)
        (flat_map (limit_text setup.now) lines.now) }
{
    for line in lines {
        write_if_limited(page, sink, setup, line);
    }
}

// How the session ended.
pub fn write_last<K: Sink>(page: &mut Page, sink: &mut K, setup: &Setup, lines: &[RoleLine])
    requires { HaveRoles setup.now lines.now }
    ensures { Adds (at K.written K.faults sink.old page.old) (at K.written K.faults sink.new page.new)
        (last_line setup.now lines.now) }
{
    if are_done(lines) {
        return page.word(sink, b"completed\n");
    }
    page.word(sink, b"limited");
    write_limited(page, sink, setup, lines);
    page.byte(sink, b'\n');
}
