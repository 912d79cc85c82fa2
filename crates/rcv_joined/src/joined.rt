// Journals, one after the other.

ghost use Rattle.std.specs.Prelude.{[], true, false, ◌<◌, ◌≤◌, length, map, OnOk, OnErr};
ghost use Rattle.rcv_page.specs.Page.{Adds, at, state};
ghost use Rattle.rcv_joined.specs.Joined.{heading, joined};

use rcv_io::{Sink, WriteFault};
use rcv_page::Page;

/// Writes the journals of at most 64 sessions through a page, in the order in which they are given. Before each text it
/// writes the line that says which session it is, from `session 1` on; it writes JSON without such lines. It takes no
/// memory.
///
/// `WriteFault` comes exactly if some call of the sink failed since the page was made.
pub fn write_journals<K: Sink>(
    mut page: Page,
    sink: &mut K,
    texts: &[&[u8]],
    json: bool,
) -> Result<(), WriteFault>
    requires { length texts.now ≤ 64 }
    ensures done { OnOk result
        (Adds (at K.written K.faults sink.old page) (state (K.written sink.new) (K.faults sink.new) [] false)
        (joined json 0 (map (λ t. t.now) texts.now))) }
    ensures failed { OnErr result
        (Adds (at K.written K.faults sink.old page) (state (K.written sink.new) (K.faults sink.new) [] true)
        (joined json 0 (map (λ t. t.now) texts.now))) }
{
    write_all(&mut page, sink, texts, json);
    page.finish(sink)
}

// The journals, each after its heading.
fn write_all<K: Sink>(page: &mut Page, sink: &mut K, texts: &[&[u8]], json: bool)
    requires { length texts.now ≤ 64 }
    ensures { Adds (at K.written K.faults sink.old page.old) (at K.written K.faults sink.new page.new)
        (joined json 0 (map (λ t. t.now) texts.now)) }
{
    for (number, text) in texts.iter().enumerate() {
        write_heading(page, sink, json, number);
        page.word(sink, text);
    }
}

// What stands before a journal.
fn write_heading<K: Sink>(page: &mut Page, sink: &mut K, json: bool, number: usize)
    requires { number < 64 }
    ensures { Adds (at K.written K.faults sink.old page.old) (at K.written K.faults sink.new page.new)
        (heading json number) }
{
    if json {
        return;
    }
    page.word(sink, b"session ");
    page.number(sink, number as u64 + 1);
    page.byte(sink, b'\n');
}
