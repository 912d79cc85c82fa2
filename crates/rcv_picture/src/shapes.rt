// Shapes as elements.

ghost use Rattle.std.specs.Prelude.{◌≡◌, ◌++◌, OnOk, codes, flat_map};
ghost use Rattle.rcv_picture.specs.declared.shape.Shape.TheVariants.{Line, Rect, Circle};
ghost use Rattle.rcv_picture.specs.Tree.{escaped, attribute_text, attributes_text, spelled};
ghost use Rattle.rcv_picture.specs.Drawn.{anchor_word, attribute, place_text, way, path_node, text_attributes};
ghost use Rattle.rcv_picture.specs.Drawn.{text_node, shape_node, shape_text};

use crate::look::Look;
use crate::markup::{put_attribute, put_class, put_digits, put_number, put_words};
use crate::pixels::{At, Pixels};
use crate::shape::{Anchor, Shape};
use rcv_text::writer::Writer;
use std::alloc::AllocError;

// Adds a straight line to the text.
fn put_line(text: &mut Writer, from: At, to: At, look: Look) -> Result<(), AllocError>
    ensures { OnOk result (text.new ≡ text.old ++ spelled (shape_node (Line from to look))) }
{
    text.word(b"<line")?;
    put_class(text, look)?;
    put_number(text, b"x1", from.x)?;
    put_number(text, b"y1", from.y)?;
    put_number(text, b"x2", to.x)?;
    put_number(text, b"y2", to.y)?;
    text.word(b"/>")
}

// Adds a rectangle to the text.
fn put_rect(
    text: &mut Writer,
    corner: At,
    width: Pixels,
    height: Pixels,
    round: Pixels,
    look: Look,
) -> Result<(), AllocError>
    ensures { OnOk result (text.new ≡ text.old ++ spelled (shape_node (Rect corner width height round look))) }
{
    text.word(b"<rect")?;
    put_class(text, look)?;
    put_number(text, b"x", corner.x)?;
    put_number(text, b"y", corner.y)?;
    put_number(text, b"width", width)?;
    put_number(text, b"height", height)?;
    put_number(text, b"rx", round)?;
    text.word(b"/>")
}

// Adds a circle to the text.
fn put_circle(text: &mut Writer, center: At, radius: Pixels, look: Look) -> Result<(), AllocError>
    ensures { OnOk result (text.new ≡ text.old ++ spelled (shape_node (Circle center radius look))) }
{
    text.word(b"<circle")?;
    put_class(text, look)?;
    put_number(text, b"cx", center.x)?;
    put_number(text, b"cy", center.y)?;
    put_number(text, b"r", radius)?;
    text.word(b"/>")
}

// Adds a place of a way to the text.
fn put_place(text: &mut Writer, at: &At) -> Result<(), AllocError>
    ensures { OnOk result (text.new ≡ text.old ++ escaped (place_text at.now)) }
{
    text.byte(b' ')?;
    put_digits(text, at.x.0 as u64)?;
    text.byte(b' ')?;
    put_digits(text, at.y.0 as u64)
}

// Adds the places of a way to the text.
fn put_places(text: &mut Writer, places: &[At]) -> Result<(), AllocError>
    ensures { OnOk result (text.new ≡ text.old ++ flat_map (λ at. escaped (place_text at)) places.now) }
{
    for at in places {
        put_place(text, at)?;
    }
    Ok(())
}

// Adds a way to the text, as an attribute.
fn put_way(text: &mut Writer, places: &[At]) -> Result<(), AllocError>
    ensures { OnOk result (text.new ≡ text.old ++ attribute_text (attribute (codes "d") (way places.now))) }
{
    text.word(b" d=\"M")?;
    put_places(text, places)?;
    text.byte(b'"')
}

// Adds straight lines from place to place to the text.
fn put_path(text: &mut Writer, places: &[At], look: Look) -> Result<(), AllocError>
    ensures { OnOk result (text.new ≡ text.old ++ spelled (path_node places.now look)) }
{
    text.word(b"<path")?;
    put_class(text, look)?;
    put_way(text, places)?;
    text.word(b"/>")
}

// Which part of a text stands at its place, in SVG's words.
fn word_of(anchor: Anchor) -> &'static [u8]
    ensures { result.now ≡ anchor_word anchor }
{
    match anchor {
        Anchor::Start => b"start",
        Anchor::Middle => b"middle",
        Anchor::End => b"end",
    }
}

// Adds to the text which part of a text stands at its place, as an attribute.
fn put_anchor(text: &mut Writer, anchor: Anchor) -> Result<(), AllocError>
    ensures { OnOk result (text.new ≡ text.old
        ++ attribute_text (attribute (codes "text-anchor") (anchor_word anchor))) }
{
    put_attribute(text, b"text-anchor", word_of(anchor))
}

// Adds the tag of a text to the text.
fn put_text_tag(text: &mut Writer, place: At, anchor: Anchor, look: Look) -> Result<(), AllocError>
    ensures { OnOk result (text.new ≡ text.old
        ++ codes "<text" ++ attributes_text (text_attributes place anchor look) ++ codes ">") }
{
    text.word(b"<text")?;
    put_class(text, look)?;
    put_number(text, b"x", place.x)?;
    put_number(text, b"y", place.y)?;
    put_anchor(text, anchor)?;
    text.byte(b'>')
}

// Adds words in one line to the text.
fn put_text(
    text: &mut Writer,
    place: At,
    anchor: Anchor,
    look: Look,
    words: &[u8],
) -> Result<(), AllocError>
    ensures { OnOk result (text.new ≡ text.old ++ spelled (text_node place anchor look words.now)) }
{
    put_text_tag(text, place, anchor, look)?;
    put_words(text, words)?;
    text.word(b"</text>")
}

// Adds a shape to the text.
#[tactic(auto, unfolding(crate::specs::Drawn::shape_text))]
fn put_shape(text: &mut Writer, shape: &Shape) -> Result<(), AllocError>
    ensures { OnOk result (text.new ≡ text.old ++ shape_text shape.now) }
{
    match shape {
        Shape::Line { from, to, look } => put_line(text, *from, *to, *look),
        Shape::Rect {
            corner,
            width,
            height,
            round,
            look,
        } => put_rect(text, *corner, *width, *height, *round, *look),
        Shape::Circle {
            center,
            radius,
            look,
        } => put_circle(text, *center, *radius, *look),
        Shape::Path { places, look } => put_path(text, places.as_slice(), *look),
        Shape::Text {
            place,
            anchor,
            look,
            text: words,
        } => put_text(text, *place, *anchor, *look, words.as_slice()),
    }
}

/// Adds shapes to the text, one after another. Fails if memory runs out.
pub fn put_shapes(text: &mut Writer, shapes: &[Shape]) -> Result<(), AllocError>
    ensures { OnOk result (text.new ≡ text.old ++ flat_map shape_text shapes.now) }
{
    for shape in shapes {
        put_shape(text, shape)?;
    }
    Ok(())
}
