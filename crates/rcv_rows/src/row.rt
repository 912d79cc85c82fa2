// The rows of a journal: each shown entry in a row of its own, and what lies between two of them in one fold.

ghost use Rattle.std.specs.Prelude.{◌≡◌, ◌≤◌, ◌<◌, ◌^◌, List, IfOk, OnOk, length};
ghost use Rattle.rcv_tree.specs.declared.event.Event.{Event};
ghost use Rattle.rcv_fates.specs.Record.{HasKept};
ghost use Rattle.rcv_rows.specs.Told.{AreRows, ShowMarked};
ghost use Rattle.rcv_rows.specs.Adding.{IsRowOf, IsFoldOf, IsFolded};

use crate::counts::counts_of;
use crate::mark::is_marked;
use rcv_fates::Record;
use rcv_picture::group::Says;
use std::alloc::{AllocError, Global};

/// The rows of a journal: each entry that is shown has a row, and each longest run of others is one fold.
/// `shown` has a mark for each entry. Fails if memory runs out.
pub fn rows(alloc: Global, record: &Record<'_>, shown: &[bool]) -> Result<Vec<Says>, AllocError>
    requires { length shown.now ≡ length record.now.entries }
    ensures rows { IfOk result (λ rows. (kept : List Event) → HasKept record.now kept
        → AreRows kept record.now.entries rows.items) }
    ensures marked { IfOk result (λ rows. ShowMarked shown.now rows.items) }
{
    // Tells the proof that each place fits.
    let _entries = record.entries();
    let mut rows = Vec::new(alloc);
    // The place after the last row.
    let mut behind = 0;
    let end = shown.len();
    for place in 0..end {
        if is_marked(shown, place) {
            fold(&mut rows, record, behind, place)?;
            rows.push(row_of(record, place))?;
            behind = place + 1;
        }
    }
    fold(&mut rows, record, behind, end)?;
    Ok(rows)
}

// The row of the entry at a place.
fn row_of(record: &Record<'_>, place: usize) -> Says
    requires { place < 2 ^ 32 }
    ensures { (kept : List Event) → HasKept record.now kept → IsRowOf kept record.now.entries place result }
{
    Says::Entry {
        place: place as u32,
        undone: record.is_undone(place),
    }
}

// Adds the fold of the entries between two places, if there are some.
fn fold(
    rows: &mut Vec<Says>,
    record: &Record<'_>,
    first: usize,
    end: usize,
) -> Result<(), AllocError>
    requires order { first ≤ end }
    requires within { end ≤ length record.now.entries }
    ensures { OnOk result ((kept : List Event) → HasKept record.now kept
        → IsFolded kept record.now.entries first end rows.old.items rows.new.items) }
{
    if first < end {
        rows.push(fold_of(record, first, end))?;
    }
    Ok(())
}

// The fold of the entries between two places.
fn fold_of(record: &Record<'_>, first: usize, end: usize) -> Says
    requires order { first ≤ end }
    requires within { end ≤ length record.now.entries }
    ensures { (kept : List Event) → HasKept record.now kept → IsFoldOf kept record.now.entries first end result }
{
    // Tells the proof that each place fits.
    let _entries = record.entries();
    Says::Fold {
        first: first as u32,
        end: end as u32,
        counts: counts_of(record, first, end),
    }
}
