// How many entries of each kind lie between two places of a journal, and how many of them are undone.

ghost use Rattle.std.specs.Prelude.{◌≡◌, ◌≤◌, ◌<◌, ◌^◌, List, count_by, length, slice_range};
ghost use Rattle.rcv_tree.specs.declared.event.Event.{Event};
ghost use Rattle.rcv_fates.specs.Record.{HasKept};
ghost use Rattle.rcv_rows.specs.Told.{AreCounts, AreUndone, is_send, is_recv, is_crash, is_recover};

use rcv_fates::Record;
use rcv_picture::group::Counts;
use rcv_tree::entry::Entry;

// The counts of the entries from the first up to before the end.
pub fn counts_of(record: &Record<'_>, first: usize, end: usize) -> Counts
    requires order { first ≤ end }
    requires within { end ≤ length record.now.entries }
    ensures { (kept : List Event) → HasKept record.now kept → AreCounts kept (slice_range record.now.entries first end) result }
{
    let run = &record.entries()[first..end];
    Counts {
        sends: sends(run),
        receives: receives(run),
        crashes: crashes(run),
        recoveries: recoveries(run),
        undone: undone(record, first, end),
    }
}

fn sends(run: &[Entry]) -> u32
    requires { length run.now < 2 ^ 32 }
    ensures { result ≡ count_by is_send run.now }
{
    run.iter()
        .filter(|entry| matches!(entry, Entry::Send(_)))
        .count() as u32
}

fn receives(run: &[Entry]) -> u32
    requires { length run.now < 2 ^ 32 }
    ensures { result ≡ count_by is_recv run.now }
{
    run.iter()
        .filter(|entry| matches!(entry, Entry::Recv(_)))
        .count() as u32
}

fn crashes(run: &[Entry]) -> u32
    requires { length run.now < 2 ^ 32 }
    ensures { result ≡ count_by is_crash run.now }
{
    run.iter()
        .filter(|entry| matches!(entry, Entry::Crash(_)))
        .count() as u32
}

fn recoveries(run: &[Entry]) -> u32
    requires { length run.now < 2 ^ 32 }
    ensures { result ≡ count_by is_recover run.now }
{
    run.iter()
        .filter(|entry| matches!(entry, Entry::Recover { .. }))
        .count() as u32
}

// How many of them are undone.
fn undone(record: &Record<'_>, first: usize, end: usize) -> u32
    requires order { first ≤ end }
    requires within { end ≤ length record.now.entries }
    ensures { (kept : List Event) → HasKept record.now kept → AreUndone kept (slice_range record.now.entries first end) result }
{
    // Tells the proof that there are few.
    let _entries = record.entries();
    let mut count = 0;
    for place in first..end {
        if record.is_undone(place) {
            count += 1;
        }
    }
    count
}
