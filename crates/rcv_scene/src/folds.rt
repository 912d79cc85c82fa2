// The rows of entries that are folded.

ghost use Rattle.std.specs.Prelude.{◌≡◌, ◌≤◌, ◌<◌, ◌++◌, IfOk, OnOk};
ghost use Rattle.rcv_session.specs.Session.{roles_of};
ghost use Rattle.rcv_scene.specs.Seen.{seen, drawn_in};
ghost use Rattle.rcv_scene.specs.Grid.{column, grid_of, scene_of, IsFoldRow};
ghost use Rattle.rcv_scene.specs.Folds.{times, all_words, lost_words, AddsDone, AddsFoldParts, fold_numbers, fold_notes, AddsFold, IsFoldDrawn};
ghost use Rattle.rcv_scene.specs.declared.counts.Act.TheVariants.{Sends, Takes, Loses};

use crate::counts::{Act, times};
use crate::layout::{Layout, Row, Stand};
use crate::notes::{entries_text, failures_text};
use crate::shapes::Shapes;
use crate::spans::{at, back, further};
use crate::wording::{Piece, text_of};
use rcv_picture::group::Counts;
use rcv_picture::look::Look;
use rcv_picture::pixels::Pixels;
use rcv_picture::shape::{Anchor, Shape};
use std::alloc::{AllocError, Global};

// How often a role sent and took a message.
fn all_text(alloc: Global, sent: u32, taken: u32) -> Result<Vec<u8>, AllocError>
    ensures { IfOk result (λ text. text.items ≡ all_words sent taken) }
{
    text_of(
        alloc,
        &[
            Piece::Number(sent),
            Piece::Word(b" sent "),
            Piece::Number(taken),
            Piece::Word(b" taken"),
        ],
    )
}

// How many of these events are undone.
fn lost_text(alloc: Global, undone: u32) -> Result<Vec<u8>, AllocError>
    ensures { IfOk result (λ text. text.items ≡ lost_words undone) }
{
    text_of(
        alloc,
        &[Piece::Number(undone), Piece::Word(b" of them undone")],
    )
}

// What a role did, in its column.
fn add_done(
    shapes: &mut Shapes,
    alloc: Global,
    x: Pixels,
    y: Pixels,
    sent: u32,
    taken: u32,
    undone: u32,
) -> Result<(), AllocError>
    ensures { OnOk result (AddsDone x y sent taken undone (drawn_in shapes.old) (drawn_in shapes.new)) }
{
    if sent == 0 && taken == 0 {
        shapes.words(at(x, further(y, 4)), Anchor::Middle, Look::Note, b"nothing")?;
        return Ok(());
    }
    let all = all_text(alloc, sent, taken)?;
    if undone == 0 {
        shapes.text(at(x, further(y, 4)), Anchor::Middle, Look::Small, all)?;
        return Ok(());
    }
    shapes.text(at(x, back(y, 2)), Anchor::Middle, Look::Small, all)?;
    let lost = lost_text(alloc, undone)?;
    shapes.text(at(x, further(y, 12)), Anchor::Middle, Look::NoteLost, lost)?;
    Ok(())
}

// What a role did by the entries of a fold, in its column.
fn add_role(
    shapes: &mut Shapes,
    layout: &Layout<'_>,
    y: Pixels,
    role: u8,
    first: u32,
    end: u32,
) -> Result<(), AllocError>
    requires { first ≤ end }
    ensures { OnOk result (AddsDone (column (grid_of layout.now) role) y (times (scene_of layout.now) role Sends first end)
        (times (scene_of layout.now) role Takes first end) (times (scene_of layout.now) role Loses first end)
        (drawn_in shapes.old) (drawn_in shapes.new)) }
{
    let sent = times(layout, role, Act::Sends, first, end);
    let taken = times(layout, role, Act::Takes, first, end);
    let undone = times(layout, role, Act::Loses, first, end);
    add_done(shapes, layout.alloc, layout.x(role), y, sent, taken, undone)
}

// What each role did.
fn add_roles(
    shapes: &mut Shapes,
    layout: &Layout<'_>,
    y: Pixels,
    first: u32,
    end: u32,
) -> Result<(), AllocError>
    requires { first ≤ end }
    ensures { OnOk result (AddsFoldParts (scene_of layout.now) y first end (roles_of layout.now.setup.now) (drawn_in shapes.old) (drawn_in shapes.new)) }
{
    for role in 0..layout.setup.roles() {
        add_role(shapes, layout, y, role, first, end)?;
    }
    Ok(())
}

// The numbers of the first and the last entry of a fold, beside the columns.
fn add_numbers(
    shapes: &mut Shapes,
    layout: &Layout<'_>,
    y: Pixels,
    first: u32,
    end: u32,
) -> Result<(), AllocError>
    ensures { OnOk result (drawn_in shapes.new ≡ drawn_in shapes.old ++ fold_numbers (grid_of layout.now) y first end) }
{
    let x = layout.numbers;
    let number = text_of(layout.alloc, &[Piece::Place(first)])?;
    shapes.text(at(x, back(y, 3)), Anchor::End, Look::Note, number)?;
    let number = text_of(
        layout.alloc,
        &[Piece::Word(b"\xe2\x80\x93"), Piece::Number(end)],
    )?;
    shapes.text(at(x, further(y, 10)), Anchor::End, Look::Note, number)
}

// How many entries a fold holds, and how many crashes and recoveries, beside the columns.
fn add_notes(
    shapes: &mut Shapes,
    layout: &Layout<'_>,
    y: Pixels,
    first: u32,
    end: u32,
    counts: &Counts,
) -> Result<(), AllocError>
    ensures { OnOk result (drawn_in shapes.new ≡ drawn_in shapes.old ++ fold_notes (grid_of layout.now) y first end counts.now) }
{
    let x = layout.notes;
    let entries = entries_text(layout.alloc, first, end)?;
    shapes.text(at(x, back(y, 2)), Anchor::Start, Look::Bold, entries)?;
    let failures = failures_text(layout.alloc, counts)?;
    shapes.text(at(x, further(y, 11)), Anchor::Start, Look::Note, failures)
}

// The row of a fold.
fn row_of(layout: &Layout<'_>, first: u32) -> Result<Row, AllocError>
    ensures { IfOk result (λ row. IsFoldRow (scene_of layout.now) first row) }
{
    match layout.stand(first)? {
        Stand::Own(_) => Err(AllocError),
        Stand::Folded(row) => Ok(row),
    }
}

// What is drawn of a fold that has this row.
fn add_fold(
    shapes: &mut Shapes,
    layout: &Layout<'_>,
    row: &Row,
    first: u32,
    end: u32,
    counts: &Counts,
) -> Result<(), AllocError>
    requires { first ≤ end }
    ensures { OnOk result (AddsFold (scene_of layout.now) row.now first end counts.now (drawn_in shapes.old) (drawn_in shapes.new)) }
{
    let corner = at(layout.left - Pixels(6), further(row.top, 4));
    let height = row.bottom - row.top - Pixels(8);
    let width = layout.width_of_columns() + Pixels(12);
    shapes.rect(corner, width, height, Pixels(6), Look::FoldBox)?;
    add_numbers(shapes, layout, row.middle, first, end)?;
    add_roles(shapes, layout, row.middle, first, end)?;
    add_notes(shapes, layout, row.middle, first, end, counts)?;
    Ok(())
}

/// The row of the entries from the first up to before the end, with these counts. Fails if memory runs out, and in the
/// same way if the entries don't stand in one fold.
pub fn fold_shapes(
    layout: &Layout<'_>,
    first: u32,
    end: u32,
    counts: &Counts,
) -> Result<Vec<Shape>, AllocError>
    ensures { IfOk result (λ shapes. IsFoldDrawn (scene_of layout.now) first end counts.now (seen shapes.items)) }
{
    if end < first {
        return Err(AllocError);
    }
    let row = row_of(layout, first)?;
    let mut shapes = Shapes::new(layout.alloc);
    add_fold(&mut shapes, layout, &row, first, end, counts)?;
    Ok(shapes.finish())
}
