// The text of entries and of what is said of the roles at the end.

ghost use Rattle.std.specs.Prelude.{[], true, false, OnOk, OnErr};
ghost use Rattle.rcv_page.specs.Page.{Adds, at, state};
ghost use Rattle.rcv_journal.specs.Heads.{line_begun, AreHeads};
ghost use Rattle.rcv_journal.specs.JournalText.{AreNamed, HaveRoles, journal_text};

use crate::entries::write_entries;
use crate::head::Head;
use crate::line::RoleLine;
use crate::roles::{write_last, write_roles};
use rcv_core::setup::Setup;
use rcv_io::{Sink, WriteFault};
use rcv_page::Page;
use rcv_tree::entry::Entry;

// Writes the text of a journal through a page: a line for each entry, then a line for each role, and a last one
// that says how the session ended. The roles and points that they name are declared, and the ends of a point make its
// events.
pub fn write_journal<K: Sink>(
    mut page: Page,
    sink: &mut K,
    setup: &Setup,
    heads: &[Head],
    entries: &[Entry],
    lines: &[RoleLine],
) -> Result<(), WriteFault>
    requires heads { AreHeads line_begun setup.now heads.now }
    requires entries { AreNamed setup.now entries.now }
    requires lines { HaveRoles setup.now lines.now }
    ensures done { OnOk result
        (Adds (at K.written K.faults sink.old page) (state (K.written sink.new) (K.faults sink.new) [] false)
        (journal_text setup.now entries.now lines.now)) }
    ensures failed { OnErr result
        (Adds (at K.written K.faults sink.old page) (state (K.written sink.new) (K.faults sink.new) [] true)
        (journal_text setup.now entries.now lines.now)) }
{
    write_entries(&mut page, sink, setup, heads, entries);
    write_roles(&mut page, sink, setup, lines);
    write_last(&mut page, sink, setup, lines);
    page.finish(sink)
}
