// The notes beside the columns: who recovers, and what a fold holds.

ghost use Rattle.std.specs.Prelude.{◌≡◌, ◌-◌, IfOk};
ghost use Rattle.rcv_scene.specs.Wording.{counted, SaysRecovers, undone_words, entries_words, is_calm, crash_words, failure_words};

use crate::cast::Cast;
use crate::wording::{Piece, text_of};
use rcv_picture::group::{Counts, Says};
use rcv_picture::letters::{Letters, width_of};
use rcv_picture::pixels::Pixels;
use rcv_picture::short_name::shortened;
use rcv_tree::entry::Entry;
use std::alloc::{AllocError, Global};

/// The most letters of a name in a note.
const NAME: usize = 12;

/// Who recovers if a role does: its host, if it is on one. Fails if memory runs out.
pub fn who_recovers(alloc: Global, cast: &Cast<'_>, role: u8) -> Result<Vec<u8>, AllocError>
    ensures { IfOk result (λ text. SaysRecovers text.items) }
{
    let name = match cast.host_of(role) {
        Some(host) => host,
        None => cast.name_of(role),
    };
    let name = shortened(alloc, name, NAME)?;
    text_of(
        alloc,
        &[Piece::Word(name.as_slice()), Piece::Word(b" recovers")],
    )
}

// A number with a word. The word is another one if the number isn't 1.
fn counted(alloc: Global, number: u32, one: &[u8], many: &[u8]) -> Result<Vec<u8>, AllocError>
    ensures { IfOk result (λ text. text.items ≡ counted number one.now many.now) }
{
    let word = if number == 1 { one } else { many };
    text_of(alloc, &[Piece::Number(number), Piece::Word(word)])
}

/// How many events a Recover undoes. Fails if memory runs out.
pub fn undone_text(alloc: Global, undone: u32) -> Result<Vec<u8>, AllocError>
    ensures { IfOk result (λ text. text.items ≡ undone_words undone) }
{
    counted(alloc, undone, b" event undone", b" events undone")
}

/// How many entries a fold holds. Fails if memory runs out.
pub fn entries_text(alloc: Global, first: u32, end: u32) -> Result<Vec<u8>, AllocError>
    ensures { IfOk result (λ text. text.items ≡ entries_words (end - first)) }
{
    counted(alloc, end.saturating_sub(first), b" entry", b" entries")
}

// Whether there are none of either.
fn is_calm(counts: &Counts) -> bool
    ensures { result ≡ is_calm counts.now.crashes counts.now.recoveries }
{
    counts.crashes == 0 && counts.recoveries == 0
}

// How many there are.
fn crashes_text(alloc: Global, crashes: u32, recoveries: u32) -> Result<Vec<u8>, AllocError>
    ensures { IfOk result (λ text. text.items ≡ crash_words crashes recoveries) }
{
    let crashes = counted(alloc, crashes, b" crash, ", b" crashes, ")?;
    let recoveries = counted(alloc, recoveries, b" recovery", b" recoveries")?;
    text_of(
        alloc,
        &[
            Piece::Word(crashes.as_slice()),
            Piece::Word(recoveries.as_slice()),
        ],
    )
}

/// How many crashes and recoveries a fold holds. Fails if memory runs out.
pub fn failures_text(alloc: Global, counts: &Counts) -> Result<Vec<u8>, AllocError>
    ensures { IfOk result (λ text. text.items ≡ failure_words counts.now.crashes counts.now.recoveries) }
{
    if is_calm(counts) {
        return Vec::from_slice(alloc, b"no crash here");
    }
    crashes_text(alloc, counts.crashes, counts.recoveries)
}

// How wide the notes beside a row are.
fn width_beside(
    alloc: Global,
    cast: &Cast<'_>,
    entries: &[Entry],
    row: &Says,
) -> Result<Pixels, AllocError> {
    let (above, below) = match row {
        Says::Entry { place, .. } => match entries.get(*place as usize) {
            Some(Entry::Recover { role, undone, .. }) => (
                who_recovers(alloc, cast, role.0)?,
                undone_text(alloc, *undone)?,
            ),
            _ => return Ok(Pixels(0)),
        },
        Says::Fold { first, end, counts } => (
            entries_text(alloc, *first, *end)?,
            failures_text(alloc, counts)?,
        ),
        Says::Arrow { .. } | Says::Nothing => return Ok(Pixels(0)),
    };
    let above = width_of(above.as_slice(), Letters::Bold);
    Ok(above.max(width_of(below.as_slice(), Letters::Small)))
}

/// How wide the notes beside these rows are. Fails if memory runs out.
pub fn width_of_notes(
    alloc: Global,
    cast: &Cast<'_>,
    entries: &[Entry],
    rows: &[Says],
) -> Result<Pixels, AllocError> {
    let mut widest = Pixels(0);
    for row in rows {
        widest = widest.max(width_beside(alloc, cast, entries, row)?);
    }
    Ok(widest)
}
