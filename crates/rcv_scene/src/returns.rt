// The row of a Recover. It says of each role where the role goes back to and what is next for it there, or that it goes
// on.

ghost use Rattle.std.specs.Prelude.{◌≡◌, ◌↔◌, ◌<◌, [], ◌∷◌, ◌++◌, IsTrue, IfOk, IfSome, OnOk, slice_get, decimal};
ghost use Rattle.rcv_session.specs.Session.{roles_of};
ghost use Rattle.rcv_scene.specs.Seen.{drawn_in};
ghost use Rattle.rcv_scene.specs.Grid.{grid_of, scene_of};
ghost use Rattle.rcv_scene.specs.Recoveries.{loses, verb, pill_look, return_look, entry_point, entry_point_or_none, last_point, IsReturnText, NamesAll, first_words, IsNextText};
ghost use Rattle.rcv_scene.specs.Recoveries.{IsAtPlace, AddsNumber, AddsPillTexts, AddsPill, AddsRole, AddsRoles, AddsWho, AddsRecover};

use crate::cast::next_at;
use crate::layout::Layout;
use crate::notes::{undone_text, who_recovers};
use crate::shapes::Shapes;
use crate::spans::{at, back, further};
use crate::wording::{Piece, text_of};
use rcv_picture::letters::{Letters, width_of};
use rcv_picture::look::Look;
use rcv_picture::pixels::{Pixels, place};
use rcv_picture::shape::Anchor;
use rcv_picture::short_name::shortened;
use rcv_story::story::Recovery;
use rcv_tree::entry::Entry;
use rcv_tree::point::Point;
use rcv_tree::role::{RoleId, RoleSet};
use std::alloc::{AllocError, Global};

// The height of a pill.
const PILL: Pixels = Pixels(34);

// Whether this is the recovery at a place.
fn is_at(recovery: &Recovery, at: u32) -> bool
    ensures { IsTrue result ↔ (recovery.now.place ≡ at) }
{
    recovery.place == at
}

// The recovery at a place.
fn recovery_at<'b>(recoveries: &'b [Recovery], at: u32) -> Option<&'b Recovery>
    ensures { IfSome result (λ found. IsAtPlace recoveries.now at found.now) }
{
    for recovery in recoveries {
        if is_at(recovery, at) {
            return Some(recovery);
        }
    }
    None
}

// A point, with other words before and after it.
fn point_words<'x>(
    alloc: Global,
    before: &'x [u8],
    point: Point,
    after: &'x [u8],
) -> Result<Vec<u8>, AllocError>
    ensures { IfOk result (λ text. text.items ≡ before.now ++ decimal point ++ after.now) }
{
    text_of(
        alloc,
        &[
            Piece::Word(before),
            Piece::Number(u32::from(point.0)),
            Piece::Word(after),
        ],
    )
}

// Puts such a point at the end of a text.
fn put_point<'x>(
    text: &mut Vec<u8>,
    alloc: Global,
    before: &'x [u8],
    point: Point,
    after: &'x [u8],
) -> Result<(), AllocError>
    ensures { OnOk result (text.new.items ≡ text.old.items ++ (before.now ++ decimal point ++ after.now)) }
{
    let more = point_words(alloc, before, point, after)?;
    text.extend_from_slice(more.as_slice())
}

// Puts a point at the end of what is next: with the label, or the number alone.
fn add_next(
    text: &mut Vec<u8>,
    layout: &Layout<'_>,
    point: Point,
    first: bool,
    labels: bool,
) -> Result<(), AllocError>
    ensures { OnOk result (AddsNumber text.old.items point text.new.items) }
{
    let before: &[u8] = if first { b" " } else { b" or " };
    let after = label_after(layout, point, labels)?;
    put_point(text, layout.alloc, before, point, after.as_slice())?;
    Ok(())
}

// The label of a point with a space before it; nothing without labels.
fn label_after(layout: &Layout<'_>, point: Point, labels: bool) -> Result<Vec<u8>, AllocError> {
    if !labels {
        return Ok(Vec::new(layout.alloc));
    }
    let label = shortened(layout.alloc, layout.cast.message(point).label, 10)?;
    text_of(
        layout.alloc,
        &[Piece::Word(b" "), Piece::Word(label.as_slice())],
    )
}

// The word before what is next.
fn next_word(alloc: Global) -> Result<Vec<u8>, AllocError>
    ensures { IfOk result (λ text. NamesAll [] text.items) }
{
    let text = text_of(alloc, &[Piece::Word(b"next")])?;
    Ok(text)
}

// What is next, with the labels, or with the numbers alone.
fn next_text(layout: &Layout<'_>, next: &[Point], labels: bool) -> Result<Vec<u8>, AllocError>
    ensures { IfOk result (λ text. NamesAll next.now text.items) }
{
    let mut text = next_word(layout.alloc)?;
    for (number, point) in next.iter().enumerate() {
        add_next(&mut text, layout, *point, number == 0, labels)?;
    }
    Ok(text)
}

// Whether a text of small letters fits.
fn fits(text: &[u8], room: Pixels) -> bool {
    width_of(text, Letters::Small) + Pixels(12) <= room
}

// A point, and how many more there are.
fn first_words(alloc: Global, first: Point, others: usize) -> Result<Vec<u8>, AllocError>
    ensures { IfOk result (λ text. text.items ≡ first_words first others) }
{
    text_of(
        alloc,
        &[
            Piece::Word(b"next "),
            Piece::Number(u32::from(first.0)),
            Piece::Word(b" or "),
            Piece::Count(others),
            Piece::Word(b" more"),
        ],
    )
}

// The first of what is next, and how many more there are.
fn first_text(alloc: Global, first: Point, others: &[Point]) -> Result<Vec<u8>, AllocError>
    ensures { IfOk result (λ text. IsNextText (first ∷ others.now) text.items) }
{
    let text = first_words(alloc, first, others.len())?;
    Ok(text)
}

// That nothing is next.
fn nothing_text(alloc: Global) -> Result<Vec<u8>, AllocError>
    ensures { IfOk result (λ text. IsNextText [] text.items) }
{
    let text = text_of(alloc, &[Piece::Word(b"nothing left")])?;
    Ok(text)
}

// What is next, in the fullest form that has room.
#[tactic(auto, using(crate::proofs::Returning::said_all))]
fn next_that_fits(layout: &Layout<'_>, next: &[Point], room: Pixels) -> Result<Vec<u8>, AllocError>
    ensures { IfOk result (λ text. IsNextText next.now text.items) }
{
    if next.is_empty() {
        return nothing_text(layout.alloc);
    }
    let full = next_text(layout, next, true)?;
    if fits(full.as_slice(), room) {
        return Ok(full);
    }
    let numbers = next_text(layout, next, false)?;
    if fits(numbers.as_slice(), room) || next.len() == 1 {
        return Ok(numbers);
    }
    match next {
        [first, others @ ..] => first_text(layout.alloc, *first, others),
        [] => Ok(numbers),
    }
}

// Whether a role, which is below 8, loses events by a recovery.
fn loses(recovery: &Recovery, role: u8) -> bool
    requires { role < 8 }
    ensures { result ≡ loses recovery.now role }
{
    match recovery.firsts[role as usize] {
        Some(_) => true,
        None => false,
    }
}

// `back to` or `stays at`.
fn verb_of(lost: bool) -> &'static [u8]
    ensures { result.now ≡ verb lost }
{
    if lost { b"back to " } else { b"stays at " }
}

// Where a role goes back to, or where it stays.
fn return_text(
    layout: &Layout<'_>,
    kept: u32,
    lost: bool,
    room: Pixels,
) -> Result<Vec<u8>, AllocError>
    ensures { IfOk result (λ text. IsReturnText lost kept text.items) }
{
    let verb = verb_of(lost);
    if kept == 0 {
        return text_of(layout.alloc, &[Piece::Word(verb), Piece::Word(b"start")]);
    }
    let long = text_of(
        layout.alloc,
        &[
            Piece::Word(verb),
            Piece::Word(b"event "),
            Piece::Number(kept),
        ],
    )?;
    if width_of(long.as_slice(), Letters::Bold) + Pixels(12) <= room {
        return Ok(long);
    }
    text_of(layout.alloc, &[Piece::Word(verb), Piece::Number(kept)])
}

// The point of an event; 0 for another entry.
fn entry_point(entry: &Entry) -> u16
    ensures { result ≡ entry_point entry.now }
{
    match entry {
        Entry::Send(event) => event.point.0,
        Entry::Recv(event) => event.point.0,
        Entry::Crash(_) => 0,
        Entry::Recover { .. } => 0,
    }
}

// The point of the entry at a place; 0 if there is none.
fn point_at(layout: &Layout<'_>, at: u32) -> u16
    ensures { result ≡ entry_point_or_none (slice_get layout.now.entries.now at) }
{
    match layout.entry_at(at) {
        Some(entry) => entry_point(entry),
        None => 0,
    }
}

// The point of the last event that a role, which is below 8, keeps; 0 if it keeps none.
fn last_point(layout: &Layout<'_>, recovery: &Recovery, role: u8) -> u16
    requires { role < 8 }
    ensures { result ≡ last_point (scene_of layout.now) recovery.now role }
{
    match recovery.lasts[role as usize] {
        Some(at) => point_at(layout, at),
        None => 0,
    }
}

// How a pill looks, and what stands in it.
fn looks_of(lost: bool) -> (Look, Look)
    ensures { (result.0 ≡ pill_look lost) × (result.1 ≡ return_look lost) }
{
    if lost {
        (Look::LostPill, Look::Lost)
    } else {
        (Look::KeptPill, Look::Bold)
    }
}

// The pill of a role with these texts.
fn add_texts(
    shapes: &mut Shapes,
    layout: &Layout<'_>,
    y: Pixels,
    role: u8,
    lost: bool,
    to: Vec<u8>,
    next: Vec<u8>,
) -> Result<(), AllocError>
    ensures { OnOk result (AddsPillTexts (grid_of layout.now) y role lost to.items next.items (drawn_in shapes.old) (drawn_in shapes.new)) }
{
    let x = layout.x(role);
    let widest = width_of(to.as_slice(), Letters::Bold).max(width_of(
        next.as_slice(),
        Letters::Small,
    ));
    let width = (layout.column - Pixels(8)).min(widest + Pixels(14));
    let corner = place(x - width.half(), y - PILL.half());
    let looks = looks_of(lost);
    shapes.rect(corner, width, PILL, Pixels(8), looks.0)?;
    shapes.text(at(x, back(y, 3)), Anchor::Middle, looks.1, to)?;
    shapes.text(at(x, further(y, 10)), Anchor::Middle, Look::Note, next)?;
    Ok(())
}

// The pill of a role: what it goes back to, and what is next there. If the last event isn't the role's own, it fails as
// if memory ran out.
fn add_pill(
    shapes: &mut Shapes,
    layout: &Layout<'_>,
    recovery: &Recovery,
    y: Pixels,
    role: u8,
    kept: u32,
) -> Result<(), AllocError>
    requires { role < 8 }
    ensures { OnOk result (AddsPill (scene_of layout.now) recovery.now y role kept (drawn_in shapes.old) (drawn_in shapes.new)) }
{
    let lost = loses(recovery, role);
    let room = layout.column - Pixels(8);
    let to = return_text(layout, kept, lost, room)?;
    let point = last_point(layout, recovery, role);
    let Some(next) = next_at(layout.setup, RoleId(role), point) else {
        return Err(AllocError);
    };
    let next = next_that_fits(layout, next, room)?;
    add_texts(shapes, layout, y, role, lost, to, next)
}

// What is drawn of a role, which is below 8.
fn add_role(
    shapes: &mut Shapes,
    layout: &Layout<'_>,
    recovery: &Recovery,
    y: Pixels,
    role: u8,
    concerned: RoleSet,
    kept: &[u32; 8],
) -> Result<(), AllocError>
    requires { role < 8 }
    ensures { OnOk result (AddsRole (scene_of layout.now) recovery.now y role concerned kept.now (drawn_in shapes.old) (drawn_in shapes.new)) }
{
    if concerned.has(RoleId(role)) {
        return add_pill(shapes, layout, recovery, y, role, kept[role as usize]);
    }
    let place = at(further(layout.x(role), 8), back(y, 8));
    shapes.words(place, Anchor::Start, Look::NoteGood, b"goes on")
}

// Of each role, where it goes back to, or that it goes on.
fn add_roles(
    shapes: &mut Shapes,
    layout: &Layout<'_>,
    recovery: &Recovery,
    y: Pixels,
    concerned: RoleSet,
    kept: &[u32; 8],
) -> Result<(), AllocError>
    ensures { OnOk result (AddsRoles (scene_of layout.now) recovery.now y (roles_of layout.now.setup.now) concerned kept.now
        (drawn_in shapes.old) (drawn_in shapes.new)) }
{
    for role in 0..layout.setup.roles() {
        add_role(shapes, layout, recovery, y, role, concerned, kept)?;
    }
    Ok(())
}

// Who recovers, and how much is undone.
fn add_who(
    shapes: &mut Shapes,
    layout: &Layout<'_>,
    y: Pixels,
    role: u8,
    undone: u32,
) -> Result<(), AllocError>
    ensures { OnOk result (AddsWho (scene_of layout.now) y undone (drawn_in shapes.old) (drawn_in shapes.new)) }
{
    let who = who_recovers(layout.alloc, &layout.cast, role)?;
    let above = at(layout.notes, back(y, 3));
    shapes.text(above, Anchor::Start, Look::Lost, who)?;
    let count = undone_text(layout.alloc, undone)?;
    let below = at(layout.notes, further(y, 11));
    shapes.text(below, Anchor::Start, Look::Note, count)?;
    Ok(())
}

/// What the row of a Recover shows, so high: of each role, where it goes back to or that it goes on; who recovers; and
/// how many events are undone. If the story doesn't know the Recover, it fails as if memory ran out.
pub fn add_recover(
    shapes: &mut Shapes,
    layout: &Layout<'_>,
    at: u32,
    y: Pixels,
    role: u8,
    concerned: RoleSet,
    kept: &[u32; 8],
    undone: u32,
) -> Result<(), AllocError>
    ensures { OnOk result (AddsRecover (scene_of layout.now) at y concerned kept.now undone (drawn_in shapes.old) (drawn_in shapes.new)) }
{
    let Some(recovery) = recovery_at(layout.story.recoveries.as_slice(), at) else {
        return Err(AllocError);
    };
    add_roles(shapes, layout, recovery, y, concerned, kept)?;
    add_who(shapes, layout, y, role, undone)?;
    Ok(())
}
