// The boxes of a machine's states: what the role does there, with a line for each step.

ghost use Rattle.std.specs.Prelude.{◌≡◌, ◌≤◌, [], ◌∷◌, ◌++◌, OnOk, IfOk, IsTrue, length, codes, decimal};
ghost use Rattle.std.specs.List.{All, join_by};
ghost use Rattle.rcv_points.specs.Follow.{net_in};
ghost use Rattle.rcv_project.specs.Act.{AreInText, owned_view};
ghost use Rattle.rcv_charts.specs.States.{StateView, next_in};
ghost use Rattle.rcv_charts.specs.StateTitles.{IsBox, places_title, act_word, step_text, step_texts};
ghost use Rattle.rcv_charts.specs.Machine.{Adds, ShowsBox};
ghost use Rattle.rcv_tree.specs.Lists.{lists_in};
ghost use Rattle.rcv_charts.specs.Titles.{has_title, is_titled, texts_in};

use crate::drawing::{Drawing, titled};
use crate::shapes::{end_text, line, rect, text};
use crate::stand::{Frame, HEAD, STEP, frame_of};
use crate::states::State;
use crate::words::{cut, widest};
use rcv_picture::group::Group;
use rcv_picture::letters::{Letters, width_of};
use rcv_picture::look::Look;
use rcv_picture::pixels::{Pixels, place};
use rcv_picture::shape::Shape;
use rcv_points::points::Points;
use rcv_project::local::OwnedAct;
use rcv_text::writer::Writer;
use rcv_tree::name::Names;
use rcv_tree::point::Point;
use std::alloc::{AllocError, Global};

// How many places a head lists.
const LISTED: usize = 6;

/// Whose boxes are drawn: the names of the roles, and the points of the text.
#[derive(Clone, Copy, Drop)]
pub struct Source<'a> {
    pub alloc: Global,
    pub roles: &'a Names,
    pub points: &'a Points,
}

// The head of a state: the points after which the role is in it.
fn head_of(alloc: Global, state: &State) -> Result<Vec<u8>, AllocError> {
    let mut head = Writer::new(alloc);
    let mut places = state.places();
    if let Some((first, others)) = places.split_first() {
        if *first == 0 {
            head.word(b"start")?;
            places = others;
            if !others.is_empty() {
                head.word(b" or ")?;
            }
        }
    }
    let mut before: &[u8] = b"after ";
    for place in places.iter().take(LISTED) {
        head.word(before)?;
        head.number(*place)?;
        before = b", ";
    }
    if LISTED < places.len() {
        head.word("…".as_bytes())?;
    }
    Ok(head.finish())
}

// A step as its line says it. Fails if memory runs out.
fn step_of(source: &Source<'_>, act: &OwnedAct, point: Point) -> Result<Vec<u8>, AllocError>
    requires first { 1 ≤ point }
    requires last { point ≤ length source.now.points.now.messages }
    ensures { IfOk result (λ step. step.items
        ≡ step_text source.now.roles.now (net_in source.now.points.now) (owned_view act.now) point) }
{
    let mut words = Writer::new(source.alloc);
    let label = cut(source.alloc, source.points.label(point))?;
    match act {
        OwnedAct::Sends(_) => {
            words.number(point.0)?;
            words.word(b" ! ")?;
            words.word(label.as_slice())?;
            words.word(b" to ")?;
            words.word(source.roles.name(source.points.receiver(point)))?;
        }
        OwnedAct::Receives(from, _) => {
            words.number(point.0)?;
            words.word(b" ? ")?;
            words.word(label.as_slice())?;
            words.word(b" from ")?;
            words.word(source.roles.name(*from))?;
        }
        OwnedAct::Done => (),
    }
    Ok(words.finish())
}

// The steps of a state. Fails if memory runs out.
fn steps_of(source: &Source<'_>, state: &State) -> Result<Vec<Vec<u8>>, AllocError>
    requires { AreInText (net_in source.now.points.now) (next_in state.now.act) }
    ensures { IfOk result (λ steps. lists_in steps.items
        ≡ step_texts source.now.roles.now (net_in source.now.points.now) state.now.act) }
{
    let mut steps = Vec::new(source.alloc);
    for point in state.next() {
        steps.push(step_of(source, state.act(), *point)?)?;
    }
    Ok(steps)
}

/// How wide the box of each of these states is. Fails if memory runs out.
pub fn boxes_width(source: &Source<'_>, states: &[State]) -> Result<Pixels, AllocError>
    requires { All (λ (state : StateView). AreInText (net_in source.now.points.now) (next_in state.act)) states.now }
{
    let mut most = Pixels(120);
    for state in states {
        let head = head_of(source.alloc, state)?;
        most = most.max(width_of(head.as_slice(), Letters::Head) + Pixels(40));
        most = most.max(widest(steps_of(source, state)?.as_slice(), Letters::Plain));
    }
    Ok(most + Pixels(28))
}

/// Writes places as the title of their state.
pub fn write_title(text: &mut Writer, places: &[u16]) -> Result<(), AllocError>
    ensures { OnOk result (text.new ≡ text.old ++ places_title places.now) }
{
    text.word(b"places ")?;
    write_places(text, places)
}

// Places, with commas between.
fn write_places(text: &mut Writer, places: &[u16]) -> Result<(), AllocError>
    ensures { OnOk result (text.new ≡ text.old ++ join_by decimal (codes ", ") places.now) }
{
    let Some((first, others)) = places.split_first() else {
        return Ok(());
    };
    text.number(*first)?;
    for place in others {
        text.word(b", ")?;
        text.number(*place)?;
    }
    Ok(())
}

// The title of a state: its places. Fails if memory runs out.
fn title_of(alloc: Global, state: &State) -> Result<Vec<u8>, AllocError>
    ensures value { IfOk result (λ title. title.items ≡ places_title state.now.places) }
    ensures titled { IfOk result (λ title. IsTrue (is_titled title.items)) }
{
    let mut title = Writer::new(alloc);
    write_title(&mut title, state.places())?;
    Ok(title.finish())
}

// How round the box of a state is, and how the word on its right looks.
fn look_of(state: &State) -> (u32, Look) {
    if state.is_done() {
        (13, Look::NoteGood)
    } else {
        (7, Look::Note)
    }
}

// What separates the head of a box from the rest. If the role's part ends there, the inner edge of the box instead.
fn seam(state: &State, frame: Frame, left: Pixels, wide: Pixels) -> Shape
    ensures { texts_in (result ∷ []) ≡ [] }
{
    let y = frame.top;
    if state.is_done() {
        let corner = place(left + Pixels(3), y + Pixels(3));
        let height = frame.height - Pixels(6);
        return rect(corner, wide - Pixels(6), height, 10, Look::Grid);
    }
    let under = y + HEAD - Pixels(1);
    let right = left + wide;
    line(place(left, under), place(right, under), Look::Grid)
}

// The box of a state with the word for what the role does there. Fails if memory runs out.
fn box_of(
    alloc: Global,
    state: &State,
    frame: Frame,
    left: Pixels,
    wide: Pixels,
) -> Result<Vec<Shape>, AllocError>
    ensures { IfOk result (λ shapes. texts_in shapes.items ≡ act_word state.now.act ∷ []) }
{
    let y = frame.top;
    let (round, look) = look_of(state);
    let word = Vec::from_slice(alloc, state.word())?;
    let mut shapes = Vec::new(alloc);
    shapes.push(rect(place(left, y), wide, frame.height, round, Look::Box))?;
    shapes.push(seam(state, frame, left, wide))?;
    shapes.push(end_text(left + wide - Pixels(12), y + Pixels(17), look, word))?;
    Ok(shapes)
}

// Adds a line for each step of a state below its head. Fails if memory runs out.
fn add_steps(
    alloc: Global,
    shapes: &mut Vec<Shape>,
    steps: &[Vec<u8>],
    left: Pixels,
    top: Pixels,
) -> Result<(), AllocError>
    ensures { OnOk result (texts_in shapes.new.items
        ≡ texts_in shapes.old.items ++ lists_in steps.now) }
{
    let mut base = top + Pixels(40);
    for step in steps {
        let words = Vec::from_slice(alloc, step.as_slice())?;
        shapes.push(text(left + Pixels(14), base, Look::Plain, words))?;
        base = base + STEP;
    }
    Ok(())
}

// The box of a state. Fails if memory runs out.
fn group_of(
    source: &Source<'_>,
    state: &State,
    frame: Frame,
    left: Pixels,
    wide: Pixels,
) -> Result<Group, AllocError>
    requires { AreInText (net_in source.now.points.now) (next_in state.now.act) }
    ensures shown { IfOk result (λ group. IsBox source.now.roles.now (net_in source.now.points.now) state.now group) }
    ensures titled { IfOk result (λ group. IsTrue (has_title group)) }
{
    let mut shapes = box_of(source.alloc, state, frame, left, wide)?;
    let head = head_of(source.alloc, state)?;
    shapes.push(text(left + Pixels(12), frame.top + Pixels(17), Look::Head, head))?;
    let steps = steps_of(source, state)?;
    add_steps(source.alloc, &mut shapes, steps.as_slice(), left, frame.top)?;
    Ok(titled(title_of(source.alloc, state)?, shapes))
}

/// Draws the boxes of these states in their frames. Fails if memory runs out.
pub fn draw_boxes(
    source: &Source<'_>,
    drawing: &mut Drawing,
    states: &[State],
    frames: &[Frame],
    left: Pixels,
    wide: Pixels,
) -> Result<(), AllocError>
    requires { All (λ (state : StateView). AreInText (net_in source.now.points.now) (next_in state.act)) states.now }
    ensures { OnOk result (Adds (length states.now)
        (ShowsBox source.now.roles.now (net_in source.now.points.now) states.now) drawing.old drawing.new) }
{
    for (index, state) in states.iter().enumerate() {
        let frame = frame_of(frames, index);
        let group = group_of(source, state, frame, left, wide)?;
        drawing.put_group(group)?;
        let down = drawing.down();
        drawing.skip(frame.top + frame.height - down);
    }
    Ok(())
}
