// A picture's text.

ghost use Rattle.std.specs.Prelude.{◌≡◌, [], ◌++◌, IfOk, OnOk, codes};
ghost use Rattle.rcv_picture.specs.Tree.{attribute_text, attributes_text, spelled};
ghost use Rattle.rcv_picture.specs.Drawn.{words_in, style, view_box, root_attributes, head_sizes, head_shape};
ghost use Rattle.rcv_picture.specs.Drawn.{arrow_head, arrow_heads, background, drawn, tree_of};

use crate::group::Group;
use crate::groups::put_groups;
use crate::markup::{put_attribute, put_digits, put_number, put_words_in};
use crate::picture::Picture;
use crate::pixels::Pixels;
use crate::style::style;
use rcv_text::writer::Writer;
use std::alloc::{AllocError, Global};

// Adds to the text which part of the plane is seen, as an attribute.
fn put_view_box(text: &mut Writer, width: Pixels, height: Pixels) -> Result<(), AllocError>
    ensures { OnOk result (text.new ≡ text.old ++ attribute_text (view_box width.0 height.0)) }
{
    text.word(b" viewBox=\"0 0 ")?;
    put_digits(text, width.0 as u64)?;
    text.byte(b' ')?;
    put_digits(text, height.0 as u64)?;
    text.byte(b'"')
}

// Adds the tag of the picture to the text.
fn put_root(text: &mut Writer, width: Pixels, height: Pixels) -> Result<(), AllocError>
    ensures { OnOk result (text.new ≡ text.old
        ++ codes "<svg" ++ attributes_text (root_attributes width.0 height.0) ++ codes ">") }
{
    text.word(b"<svg")?;
    put_attribute(text, b"xmlns", b"http://www.w3.org/2000/svg")?;
    put_number(text, b"width", width)?;
    put_number(text, b"height", height)?;
    put_view_box(text, width, height)?;
    put_attribute(text, b"role", b"img")?;
    text.byte(b'>')
}

// Adds to the text how large each head of an arrow is, as attributes.
#[tactic(auto, unfolding(crate::specs::Tree::attribute_text, crate::specs::Drawn::head_sizes))]
fn put_head_sizes(text: &mut Writer) -> Result<(), AllocError>
    ensures { OnOk result (text.new ≡ text.old ++ attributes_text head_sizes) }
{
    text.word(
        b" viewBox=\"0 0 14 14\" refX=\"13\" refY=\"7\" markerWidth=\"7\" markerHeight=\"7\" \
        markerUnits=\"userSpaceOnUse\" orient=\"auto\"",
    )
}

// Adds the shape of the head of an arrow to the text.
fn put_head_shape(text: &mut Writer, class: &[u8]) -> Result<(), AllocError>
    ensures { OnOk result (text.new ≡ text.old ++ spelled (head_shape class.now)) }
{
    text.word(b"<path")?;
    put_attribute(text, b"class", class)?;
    put_attribute(text, b"d", b"M 0 0 L 14 7 L 0 14 Z")?;
    text.word(b"/>")
}

// Adds the head of arrows with this name and class to the text.
fn put_arrow_head(text: &mut Writer, name: &[u8], class: &[u8]) -> Result<(), AllocError>
    ensures { OnOk result (text.new ≡ text.old ++ spelled (arrow_head name.now class.now)) }
{
    text.word(b"<marker")?;
    put_attribute(text, b"id", name)?;
    put_head_sizes(text)?;
    text.byte(b'>')?;
    put_head_shape(text, class)?;
    text.word(b"</marker>")
}

// Adds the heads of arrows to the text.
fn put_arrow_heads(text: &mut Writer) -> Result<(), AllocError>
    ensures { OnOk result (text.new ≡ text.old ++ spelled arrow_heads) }
{
    text.word(b"<defs>")?;
    put_arrow_head(text, b"tip", b"tip")?;
    put_arrow_head(text, b"tip-undone", b"tip undone-tip")?;
    put_arrow_head(text, b"tip-again", b"tip again-tip")?;
    put_arrow_head(text, b"tip-back", b"tip back-tip")?;
    text.word(b"</defs>")
}

// Adds to the text what lies behind all.
fn put_background(text: &mut Writer, width: Pixels, height: Pixels) -> Result<(), AllocError>
    ensures { OnOk result (text.new ≡ text.old ++ spelled (background width.0 height.0)) }
{
    text.word(b"<rect")?;
    put_attribute(text, b"class", b"background")?;
    put_number(text, b"width", width)?;
    put_number(text, b"height", height)?;
    text.word(b"/>")
}

// Adds the style sheet to the text.
fn put_style(text: &mut Writer) -> Result<(), AllocError>
    ensures { OnOk result (text.new ≡ text.old ++ spelled (words_in (codes "style") [] style)) }
{
    put_words_in(text, b"style", style())
}

// Adds a picture of this size to the text, with this title, this description and these groups.
fn put_picture(
    text: &mut Writer,
    width: Pixels,
    height: Pixels,
    title: &[u8],
    description: &[u8],
    groups: &[Group],
) -> Result<(), AllocError>
    ensures { OnOk result (text.new ≡ text.old
        ++ spelled (drawn width.0 height.0 title.now description.now groups.now)) }
{
    put_root(text, width, height)?;
    text.byte(b'\n')?;
    put_words_in(text, b"title", title)?;
    text.byte(b'\n')?;
    put_words_in(text, b"desc", description)?;
    text.byte(b'\n')?;
    put_style(text)?;
    text.byte(b'\n')?;
    put_arrow_heads(text)?;
    text.byte(b'\n')?;
    put_background(text, width, height)?;
    put_groups(text, groups)?;
    text.word(b"\n</svg>")
}

/// The picture as an SVG that stands alone: its tree, spelled. It has no line feed at its end. Fails if memory runs
/// out.
pub fn picture_text(alloc: Global, picture: &Picture) -> Result<Vec<u8>, AllocError>
    ensures { IfOk result (λ text. text.items ≡ spelled (tree_of picture.now)) }
{
    let mut text = Writer::new(alloc);
    put_picture(
        &mut text,
        picture.width,
        picture.height,
        picture.title.as_slice(),
        picture.description.as_slice(),
        picture.groups.as_slice(),
    )?;
    Ok(text.finish())
}
