// What stands under the columns: how each role ended.

ghost use Rattle.std.specs.Prelude.{◌≡◌, ◌++◌, IfOk, OnOk};
ghost use Rattle.rcv_scene.specs.Seen.{seen, drawn_in};
ghost use Rattle.rcv_scene.specs.Grid.{column, grid_of};
ghost use Rattle.rcv_scene.specs.Feet.{end_look, end_word, kept_words, foot_texts, AddsFoot, AreFeet};

use crate::ends::{End, RoleEnd};
use crate::layout::{FOOT, Layout};
use crate::shapes::Shapes;
use crate::spans::{at, further};
use crate::wording::{Piece, text_of};
use rcv_picture::look::Look;
use rcv_picture::pixels::{Pixels, place};
use rcv_picture::shape::{Anchor, Shape};
use rcv_picture::short_name::LABEL;
use rcv_tree::role::RoleId;
use std::alloc::{AllocError, Global};

// How a role's end looks, and the word for it.
fn look_of(end: End) -> Look
    ensures { result ≡ end_look end }
{
    match end {
        End::Done => Look::Good,
        End::Limit | End::Waits | End::Down => Look::Failed,
    }
}

fn word_of(end: End) -> &'static [u8]
    ensures { result.now ≡ end_word end }
{
    match end {
        End::Done => b"done",
        End::Limit => b"limit",
        End::Waits => b"waits",
        End::Down => b"down",
    }
}

// How many events a role kept, of how many that it made.
fn kept_text(alloc: Global, kept: u32, raw: u32) -> Result<Vec<u8>, AllocError>
    ensures { IfOk result (λ text. text.items ≡ kept_words kept raw) }
{
    text_of(
        alloc,
        &[
            Piece::Word(b"kept "),
            Piece::Number(kept),
            Piece::Word(b" of "),
            Piece::Number(raw),
        ],
    )
}

// The middle of a role's column.
fn column_of(layout: &Layout<'_>, role: RoleId) -> Pixels
    ensures { result ≡ column (grid_of layout.now) role }
{
    layout.x(role.0)
}

// The texts of a foot.
fn add_texts(
    shapes: &mut Shapes,
    x: Pixels,
    y: Pixels,
    end: End,
    kept: Vec<u8>,
) -> Result<(), AllocError>
    ensures { OnOk result (drawn_in shapes.new ≡ drawn_in shapes.old ++ foot_texts x y end kept.items) }
{
    let look = look_of(end);
    shapes.words(at(x, further(y, 15)), Anchor::Middle, look, word_of(end))?;
    shapes.text(at(x, further(y, 29)), Anchor::Middle, Look::Note, kept)
}

// The foot of a role.
fn add_foot(shapes: &mut Shapes, layout: &Layout<'_>, role: &RoleEnd) -> Result<(), AllocError>
    ensures { OnOk result (AddsFoot (grid_of layout.now) layout.now.end role.now (drawn_in shapes.old) (drawn_in shapes.new)) }
{
    let x = column_of(layout, role.role);
    let y = layout.end;
    let kept = kept_text(layout.alloc, role.kept, role.raw)?;
    let corner = place(x - layout.column.half() + Pixels(6), y);
    shapes.rect(
        corner,
        layout.column - Pixels(12),
        FOOT,
        Pixels(6),
        Look::Box,
    )?;
    add_texts(shapes, x, y, role.end, kept)?;
    Ok(())
}

/// The feet of the roles, which ended so. Fails if memory runs out.
pub fn feet(layout: &Layout<'_>, ends: &[RoleEnd]) -> Result<Vec<Shape>, AllocError>
    ensures { IfOk result (λ shapes. AreFeet (grid_of layout.now) layout.now.end ends.now (seen shapes.items)) }
{
    let mut shapes = Shapes::new(layout.alloc);
    for role in ends {
        add_foot(&mut shapes, layout, role)?;
    }
    Ok(shapes.finish())
}

/// The labels that are shortened, in full, from this height downwards, and where they end. Fails if memory runs out.
pub fn long_labels(layout: &Layout<'_>, top: Pixels) -> Result<(Vec<Shape>, Pixels), AllocError> {
    let mut shapes = Shapes::new(layout.alloc);
    let mut y = top;
    let mut number: u32 = 0;
    for message in layout.cast.messages.iter() {
        number = number.saturating_add(1);
        if message.label.len() > LABEL {
            y = y + Pixels(14);
            let text = text_of(
                layout.alloc,
                &[
                    Piece::Word(b"point "),
                    Piece::Number(number),
                    Piece::Word(b": "),
                    Piece::Word(message.label),
                ],
            )?;
            shapes.text(place(layout.left, y), Anchor::Start, Look::Note, text)?;
        }
    }
    Ok((shapes.finish(), y))
}
