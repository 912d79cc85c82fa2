// The messages of a protocol's picture: their words, and how they are drawn.

ghost use Rattle.std.specs.Prelude.{◌≡◌, ◌++◌, IfOk, OnOk, IsTrue};
ghost use Rattle.rcv_charts.specs.MessageTitles.{names_text, message_title};
ghost use Rattle.rcv_charts.specs.Titles.{has_title, is_titled};
ghost use Rattle.rcv_charts.specs.Chart.{AddsOne, first_upper, first_lower, upper, lower};

use crate::columns::Columns;
use crate::drawing::{Drawing, titled};
use crate::shapes::{circle, end_text, line, middle_text, text};
use crate::words::{cut, is_cut};
use rcv_picture::group::Group;
use rcv_picture::look::Look;
use rcv_picture::pixels::{At, Pixels};
use rcv_picture::shape::Shape;
use rcv_text::writer::Writer;
use rcv_tree::name::{Name, Names};
use rcv_tree::point::Point;
use rcv_tree::role::RoleId;
use std::alloc::{AllocError, Global};

/// A message of a text.
#[derive(Drop)]
pub struct Message<'a> {
    pub label: &'a Name,
    pub sorts: &'a Names,
    pub sender: RoleId,
    pub receiver: RoleId,
    pub point: Point,
}

// Names, with commas between.
fn write_names(text: &mut Writer, names: &[Name]) -> Result<(), AllocError>
    ensures { OnOk result (text.new ≡ text.old ++ names_text names.now) }
{
    let Some((first, others)) = names.split_first() else {
        return Ok(());
    };
    text.word(first.as_slice())?;
    for name in others {
        text.word(b", ")?;
        text.word(name.as_slice())?;
    }
    Ok(())
}

// The title of a message. Fails if memory runs out.
fn title_of(alloc: Global, roles: &Names, message: &Message<'_>) -> Result<Vec<u8>, AllocError>
    ensures value { IfOk result (λ title. title.items ≡ message_title roles.now (
      message.now.point,
      record {
        label = message.now.label.now;
        sorts = message.now.sorts.now;
        sender = message.now.sender;
        receiver = message.now.receiver;
      },
    )) }
    ensures titled { IfOk result (λ title. IsTrue (is_titled title.items)) }
{
    let mut text = Writer::new(alloc);
    text.word(b"point ")?;
    text.number(message.point.0)?;
    text.word(b": ")?;
    text.word(message.label.as_slice())?;
    text.word(b"(")?;
    write_names(&mut text, message.sorts.as_slice())?;
    text.word(b") from ")?;
    text.word(roles.name(message.sender))?;
    text.word(b" to ")?;
    text.word(roles.name(message.receiver))?;
    Ok(text.finish())
}

impl Message<'_> {
    // Its sorts.
    fn sorts(&self, alloc: Global) -> Result<Vec<u8>, AllocError> {
        let mut text = Writer::new(alloc);
        write_names(&mut text, self.sorts.as_slice())?;
        Ok(text.finish())
    }

    /// Its label and its sorts, cut if they are long. Fails if memory runs out.
    pub fn shown(&self, alloc: Global) -> Result<Vec<u8>, AllocError> {
        let label = cut(alloc, self.label.as_slice())?;
        let sorts = cut(alloc, self.sorts(alloc)?.as_slice())?;
        with_sorts(alloc, label.as_slice(), sorts.as_slice())
    }

    /// Its label and its sorts in full, if they are cut. Fails if memory runs out.
    pub fn whole_if_cut(&self, alloc: Global) -> Result<Option<Vec<u8>>, AllocError> {
        let sorts = self.sorts(alloc)?;
        if is_cut(self.label.as_slice()) || is_cut(sorts.as_slice()) {
            let whole = with_sorts(alloc, self.label.as_slice(), sorts.as_slice())?;
            Ok(Some(whole))
        } else {
            Ok(None)
        }
    }
}

// A label, and after it the sorts in brackets, if there are any.
fn with_sorts(alloc: Global, label: &[u8], sorts: &[u8]) -> Result<Vec<u8>, AllocError> {
    let mut text = Writer::new(alloc);
    text.word(label)?;
    if !sorts.is_empty() {
        text.word(b"(")?;
        text.word(sorts)?;
        text.word(b")")?;
    }
    Ok(text.finish())
}

// The number of a point.
fn number_of(alloc: Global, point: Point) -> Result<Vec<u8>, AllocError> {
    let mut number = Writer::new(alloc);
    number.number(point.0)?;
    Ok(number.finish())
}

// An arrow at this height, with the point at the sender and the label above. Fails if memory runs out.
fn arrow(
    alloc: Global,
    columns: Columns,
    message: &Message<'_>,
    y: Pixels,
) -> Result<Vec<Shape>, AllocError>
    ensures upper { IfOk result (λ shapes. first_upper shapes.items ≡ y.0) }
    ensures lower { IfOk result (λ shapes. first_lower shapes.items ≡ y.0) }
{
    let from = columns.middle(message.sender);
    let to = columns.middle(message.receiver);
    let goes_right = from < to;
    let start = if goes_right {
        from + Pixels(9)
    } else {
        from - Pixels(9)
    };
    let end = if goes_right {
        to - Pixels(1)
    } else {
        to + Pixels(1)
    };
    let words = message.shown(alloc)?;
    let above = y - Pixels(4);
    let label = if goes_right {
        text(from + Pixels(14), above, Look::Label, words)
    } else {
        end_text(from - Pixels(14), above, Look::Label, words)
    };
    let mut shapes = Vec::new(alloc);
    shapes.push(line(At { x: start, y }, At { x: end, y }, Look::Wire))?;
    shapes.push(label)?;
    shapes.push(circle(At { x: from, y }, 8, Look::Send))?;
    let number = number_of(alloc, message.point)?;
    shapes.push(middle_text(from, y + Pixels(3), Look::PointOnSend, number))?;
    Ok(shapes)
}

// A message at this height. Fails if memory runs out.
fn group_of(
    alloc: Global,
    roles: &Names,
    columns: Columns,
    message: &Message<'_>,
    y: Pixels,
) -> Result<Group, AllocError>
    ensures title { IfOk result (λ group. group.title.items ≡ message_title roles.now (
      message.now.point,
      record {
        label = message.now.label.now;
        sorts = message.now.sorts.now;
        sender = message.now.sender;
        receiver = message.now.receiver;
      },
    )) }
    ensures upper { IfOk result (λ group. upper group ≡ y.0) }
    ensures lower { IfOk result (λ group. lower group ≡ y.0) }
    ensures titled { IfOk result (λ group. IsTrue (has_title group)) }
{
    let shapes = arrow(alloc, columns, message, y)?;
    Ok(titled(title_of(alloc, roles, message)?, shapes))
}

/// Draws a message. Fails if memory runs out.
pub fn draw_message(
    alloc: Global,
    drawing: &mut Drawing,
    roles: &Names,
    columns: Columns,
    message: &Message<'_>,
) -> Result<(), AllocError>
    ensures { OnOk result (AddsOne (message_title roles.now (
      message.now.point,
      record {
        label = message.now.label.now;
        sorts = message.now.sorts.now;
        sender = message.now.sender;
        receiver = message.now.receiver;
      },
    )) drawing.old drawing.new) }
{
    drawing.skip(Pixels(30));
    let group = group_of(alloc, roles, columns, message, drawing.down())?;
    drawing.put_group(group)
}
