// Groups as elements, with what they say in their tags.

ghost use Rattle.std.specs.Prelude.{◌≡◌, [], ◌+◌, ◌++◌, OnOk, codes, flat_map};
ghost use Rattle.rcv_picture.specs.Tree.{escaped, attributes_text, spelled, all_spelled, nodes};
ghost use Rattle.rcv_picture.specs.declared.group.Says.TheVariants.{Entry, Fold, Arrow};
ghost use Rattle.rcv_picture.specs.Drawn.{tag_of, words_in, run_words, event_words, crash_words, undone_words};
ghost use Rattle.rcv_picture.specs.Drawn.{fold_words, title_nodes, titles_of, tagged, group_line};

use crate::group::{Counts, Group, Says};
use crate::markup::{put_attribute, put_digits, put_words_in};
use crate::shape::Shape;
use crate::shapes::put_shapes;
use rcv_text::writer::Writer;
use std::alloc::AllocError;

// The number of an entry, counted from 1.
fn number_of(place: u32) -> u64
    ensures { result ≡ place + 1 }
{
    place as u64 + 1
}

// Adds the tag of an entry's group to the text.
#[tactic(auto, unfolding(crate::specs::Tree::attribute_text))]
fn put_entry(text: &mut Writer, place: u32, undone: bool) -> Result<(), AllocError>
    ensures { OnOk result (text.new ≡ text.old
        ++ codes "<g" ++ attributes_text (tag_of (Entry place undone)) ++ codes ">") }
{
    text.word(b"<g")?;
    put_attribute(
        text,
        b"class",
        if undone { b"mark undone" } else { b"mark" },
    )?;
    text.word(b" id=\"e")?;
    put_digits(text, number_of(place))?;
    text.word(b"\">")
}

// Adds the tag of folded entries to the text.
#[tactic(auto, unfolding(crate::specs::Tree::attribute_text))]
fn put_fold(text: &mut Writer, first: u32, end: u32, counts: Counts) -> Result<(), AllocError>
    ensures { OnOk result (text.new ≡ text.old
        ++ codes "<g" ++ attributes_text (tag_of (Fold first end counts)) ++ codes ">") }
{
    text.word(b"<g class=\"fold\" id=\"f")?;
    put_digits(text, number_of(first))?;
    text.byte(b'-')?;
    put_digits(text, end as u64)?;
    text.word(b"\">")
}

// Adds the tag of an arrow to the text.
#[tactic(auto, unfolding(crate::specs::Tree::attribute_text))]
fn put_arrow(text: &mut Writer, send: u32, receive: u32, undone: bool) -> Result<(), AllocError>
    ensures { OnOk result (text.new ≡ text.old
        ++ codes "<g" ++ attributes_text (tag_of (Arrow send receive undone)) ++ codes ">") }
{
    text.word(b"<g")?;
    put_attribute(
        text,
        b"class",
        if undone { b"arrow undone" } else { b"arrow" },
    )?;
    text.word(b" id=\"e")?;
    put_digits(text, number_of(send))?;
    text.word(b"-e")?;
    put_digits(text, number_of(receive))?;
    text.word(b"\">")
}

// Adds the tag of a group to the text.
fn put_tag(text: &mut Writer, says: Says) -> Result<(), AllocError>
    ensures { OnOk result (text.new ≡ text.old ++ codes "<g" ++ attributes_text (tag_of says) ++ codes ">") }
{
    match says {
        Says::Nothing => text.word(b"<g>"),
        Says::Entry { place, undone } => put_entry(text, place, undone),
        Says::Fold { first, end, counts } => put_fold(text, first, end, counts),
        Says::Arrow {
            send,
            receive,
            undone,
        } => put_arrow(text, send, receive, undone),
    }
}

// Adds to the text which entries are folded.
#[tactic(auto, unfolding(crate::specs::Drawn::run_words))]
fn put_run(text: &mut Writer, first: u32, end: u32) -> Result<(), AllocError>
    ensures { OnOk result (text.new ≡ text.old ++ escaped (run_words first end)) }
{
    text.word(b"entries ")?;
    put_digits(text, number_of(first))?;
    text.word(b" to ")?;
    put_digits(text, end as u64)?;
    text.word(b": ")
}

// Adds to the text how many events there are.
fn put_events(text: &mut Writer, counts: Counts) -> Result<(), AllocError>
    ensures { OnOk result (text.new ≡ text.old ++ escaped (event_words counts)) }
{
    put_digits(text, counts.sends as u64)?;
    text.word(b" sent, ")?;
    put_digits(text, counts.receives as u64)?;
    text.word(b" received, ")
}

// Adds to the text how many crashes and recoveries there are.
#[tactic(auto, unfolding(crate::specs::Drawn::crash_words))]
fn put_crashes(text: &mut Writer, counts: Counts) -> Result<(), AllocError>
    ensures { OnOk result (text.new ≡ text.old ++ escaped (crash_words counts)) }
{
    put_digits(text, counts.crashes as u64)?;
    text.word(b" crashes, ")?;
    put_digits(text, counts.recoveries as u64)?;
    text.word(b" recoveries; ")
}

// Adds to the text how many events aren't kept.
#[tactic(auto, unfolding(crate::specs::Drawn::undone_words))]
fn put_undone(text: &mut Writer, counts: Counts) -> Result<(), AllocError>
    ensures { OnOk result (text.new ≡ text.old ++ escaped (undone_words counts)) }
{
    put_digits(text, counts.undone as u64)?;
    text.word(b" undone")
}

// Adds the words for folded entries to the text, made of their numbers.
fn put_numbers(text: &mut Writer, first: u32, end: u32, counts: Counts) -> Result<(), AllocError>
    ensures { OnOk result (text.new ≡ text.old ++ escaped (fold_words first end counts)) }
{
    put_run(text, first, end)?;
    put_events(text, counts)?;
    put_crashes(text, counts)?;
    put_undone(text, counts)
}

// Adds the title of folded entries to the text.
fn put_fold_title(text: &mut Writer, first: u32, end: u32, counts: Counts) -> Result<(), AllocError>
    ensures { OnOk result (text.new ≡ text.old ++ spelled (words_in (codes "title") [] (fold_words first end counts))) }
{
    text.word(b"<title>")?;
    put_numbers(text, first, end, counts)?;
    text.word(b"</title>")
}

// Adds a title to the text, if it has words.
fn put_title(text: &mut Writer, title: &[u8]) -> Result<(), AllocError>
    ensures { OnOk result (text.new ≡ text.old ++ all_spelled (nodes (title_nodes title.now))) }
{
    if title.is_empty() {
        return Ok(());
    }
    put_words_in(text, b"title", title)
}

// Adds the title of a group to the text, if it has one.
fn put_group_title(text: &mut Writer, says: Says, title: &[u8]) -> Result<(), AllocError>
    ensures { OnOk result (text.new ≡ text.old ++ all_spelled (nodes (titles_of says title.now))) }
{
    match says {
        Says::Fold { first, end, counts } => put_fold_title(text, first, end, counts),
        _ => put_title(text, title),
    }
}

// Adds shapes to the text, in a group that says this.
fn put_tagged(
    text: &mut Writer,
    says: Says,
    title: &[u8],
    shapes: &[Shape],
) -> Result<(), AllocError>
    ensures { OnOk result (text.new ≡ text.old ++ spelled (tagged says title.now shapes.now)) }
{
    put_tag(text, says)?;
    put_group_title(text, says, title)?;
    put_shapes(text, shapes)?;
    text.word(b"</g>")
}

// Adds a group on a line to the text.
#[tactic(auto, unfolding(crate::specs::Drawn::group_line))]
fn put_line_of(text: &mut Writer, group: &Group) -> Result<(), AllocError>
    ensures { OnOk result (text.new ≡ text.old ++ group_line group.now) }
{
    text.byte(b'\n')?;
    put_tagged(
        text,
        group.says,
        group.title.as_slice(),
        group.shapes.as_slice(),
    )
}

/// Adds groups to the text, each after a line feed. Fails if memory runs out.
pub fn put_groups(text: &mut Writer, groups: &[Group]) -> Result<(), AllocError>
    ensures { OnOk result (text.new ≡ text.old ++ flat_map group_line groups.now) }
{
    for group in groups {
        put_line_of(text, group)?;
    }
    Ok(())
}
