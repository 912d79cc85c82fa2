// Which entries of a long journal are shown.

ghost use Rattle.std.specs.Prelude.{◌≡◌, ◌↔◌, ◌⊎◌, ◌<◌, ℕ, IsTrue, IfOk, length};
ghost use Rattle.rcv_story.specs.Marks.{IsMarked, AddsMarks, IsFromTo, HasMarked, IsBridged};
ghost use Rattle.rcv_story.specs.Shown.{IsAround, IsNear, IsToldOf, IsPicked, ArePicked, AreShown};

use crate::receipts::filled;
use crate::story::{Recovery, Story};
use rcv_fates::Record;
use std::alloc::{AllocError, Global};

/// A journal of at most so many entries is shown whole.
const WHOLE: usize = 160;

/// So many entries are shown at the beginning, and so many at the end.
const ENDS: usize = 8;

/// What is near the recoveries is shown: near all, if there are at most so many; else near so many first ones and so many
/// last ones.
const MOST_TOLD: usize = 6;

const FIRST_TOLD: usize = 4;

const LAST_TOLD: usize = 2;

/// So many entries are shown after such a Recover and before its Crash; so many before the Recover and after the Crash;
/// and so many on both sides of each role's first lost event.
const FAR: u32 = 6;

const NEAR: u32 = 2;

const BESIDE: u32 = 1;

/// A run of fewer entries between shown ones is shown too.
const LEAST_FOLD: usize = 5;

// Shows the entries of a range.
fn reveal(shown: &mut [bool], from: usize, end: usize)
    ensures { AddsMarks (IsFromTo from end) shown.old shown.new }
{
    for place in from..end.min(shown.len()) {
        shown[place] = true;
    }
}

// Shows an entry, with so many before and so many after it.
fn reveal_around(shown: &mut [bool], place: u32, before: u32, after: u32)
    ensures { AddsMarks (IsAround place before after) shown.old shown.new }
{
    let from = place.saturating_sub(before) as usize;
    let end = place as usize + after as usize + 1;
    reveal(shown, from, end);
}

// Shows what is near a recovery: its Recover, its Crash, and where each role goes back to.
fn reveal_recovery(shown: &mut [bool], recovery: &Recovery)
    ensures { AddsMarks (IsNear recovery.now) shown.old shown.new }
{
    reveal_around(shown, recovery.place, NEAR, FAR);
    if let Some(crash) = recovery.crash {
        reveal_around(shown, crash, FAR, NEAR);
    }
    for first in recovery.firsts {
        if let Some(first) = first {
            reveal_around(shown, first, BESIDE, BESIDE);
        }
    }
}

// Whether what is near the recovery with this number, of so many, is shown.
fn is_told(count: usize, number: usize) -> bool
    requires { number < count }
    ensures { IsTrue result ↔ IsToldOf count number }
{
    count <= MOST_TOLD || number < FIRST_TOLD || count - number <= LAST_TOLD
}

// Shows the beginning, the end, and what is near recoveries.
fn pick(shown: &mut [bool], recoveries: &[Recovery])
    ensures { AddsMarks (IsPicked (length shown.old) recoveries.now) shown.old shown.new }
{
    let count = shown.len();
    reveal(shown, 0, ENDS);
    reveal(shown, count.saturating_sub(ENDS), count);
    for (number, recovery) in recoveries.iter().enumerate() {
        if is_told(recoveries.len(), number) {
            reveal_recovery(shown, recovery);
        }
    }
}

// For each of so many entries whether it is so shown.
fn picked(alloc: Global, count: usize, recoveries: &[Recovery]) -> Result<Vec<bool>, AllocError>
    ensures { IfOk result (λ picked. ArePicked count recoveries.now picked.items) }
{
    let mut picked = filled(alloc, count, false)?;
    pick(picked.as_mut_slice(), recoveries);
    Ok(picked)
}

// Whether one of the entries of a range is marked.
fn has_marked(marks: &[bool], from: usize, end: usize) -> bool
    ensures { IsTrue result ↔ HasMarked marks.now from end }
{
    for place in from..end.min(marks.len()) {
        if marks[place] {
            return true;
        }
    }
    false
}

// Whether the entry at a place is in a short run between marked ones.
fn is_bridged(marks: &[bool], place: usize) -> bool
    requires { place < length marks.now }
    ensures { IsTrue result ↔ IsBridged marks.now place }
{
    for lower in place.saturating_sub(LEAST_FOLD)..place {
        if marks[lower] && has_marked(marks, place + 1, lower + LEAST_FOLD + 1) {
            return true;
        }
    }
    false
}

// Whether the entry at a place is shown, of a longer journal.
fn is_shown(picked: &[bool], place: usize) -> bool
    requires { place < length picked.now }
    ensures { IsTrue result ↔ (IsMarked picked.now place ⊎ IsBridged picked.now place) }
{
    picked[place] || is_bridged(picked, place)
}

/// For each entry of a journal with this story whether it is shown; the others are folded. A journal of up to 160
/// entries is shown whole. Of a longer one its beginning and its end are shown, and what is near recoveries: near all, or
/// near the first four and the last two; and what is short between these. Fails if memory runs out.
pub fn shown_entries(
    alloc: Global,
    record: &Record<'_>,
    story: &Story,
) -> Result<Vec<bool>, AllocError>
    ensures { IfOk result (λ shown. AreShown (length record.now.entries) story.now.recoveries.items shown.items) }
{
    let count = record.entries().len();
    if count <= WHOLE {
        return filled(alloc, count, true);
    }
    let picked = picked(alloc, count, story.recoveries.as_slice())?;
    let mut shown = Vec::new(alloc);
    for place in 0..count {
        shown.push(is_shown(picked.as_slice(), place))?;
    }
    Ok(shown)
}
