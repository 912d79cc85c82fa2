// The ways of a machine's wires: up and down beside the boxes, in lanes.

ghost use Rattle.std.specs.Prelude.{◌≡◌, ◌<◌, IfOk, OnOk, IsTrue, length};
ghost use Rattle.std.specs.List.{All};
ghost use Rattle.rcv_charts.specs.Machine.{Adds, IsWire, ShowsWire, wire_title};
ghost use Rattle.rcv_charts.specs.Titles.{has_title, is_titled};

use crate::boxes::write_title;
use crate::drawing::{Drawing, titled};
use crate::lanes::Lanes;
use crate::shapes::{circle, path};
use crate::stand::{Frame, HEAD, STEP, frame_of};
use crate::states::State;
use crate::wires::Wire;
use rcv_picture::group::Group;
use rcv_picture::look::Look;
use rcv_picture::pixels::{Pixels, place};
use rcv_text::writer::Writer;
use std::alloc::{AllocError, Global};

// The heights at which a wire starts and ends. It goes back if it doesn't lead to a state further down.
#[derive(Clone, Copy, Drop)]
struct Way {
    start: Pixels,
    end: Pixels,
    is_back: bool,
}

impl Way {
    // The way of a wire between boxes that stand there.
    fn of(frames: &[Frame], wire: &Wire) -> Way {
        let from = frame_of(frames, wire.from);
        let to = frame_of(frames, wire.to);
        Way {
            start: from.top + HEAD + Pixels::of(wire.step) * 20 + STEP.half(),
            end: to.top + HEAD.half(),
            is_back: to.top <= from.top,
        }
    }

    // How far it goes.
    fn length(&self) -> Pixels {
        self.start.max(self.end) - self.start.min(self.end)
    }
}

// A way, and the number of its wire.
#[derive(Clone, Copy, Drop)]
struct Numbered {
    wire: usize,
    way: Way,
}

/// The lanes in which the ways of wires go: for each wire the number of its lane, on its side of the boxes.
#[derive(Drop)]
pub struct Ways {
    lanes: Vec<usize>,
    forth: Lanes,
    back: Lanes,
}

// Ways of these wires, the short ones first. Fails if memory runs out.
fn short_first(
    alloc: Global,
    frames: &[Frame],
    wires: &[Wire],
) -> Result<Vec<Numbered>, AllocError> {
    let mut ways = Vec::new(alloc);
    for (number, wire) in wires.iter().enumerate() {
        ways.push(Numbered {
            wire: number,
            way: Way::of(frames, wire),
        })?;
    }
    ways.sort_by_key(|numbered| numbered.way.length())?;
    Ok(ways)
}

// The title of a wire. Fails if memory runs out.
fn title_of(alloc: Global, states: &[State], wire: &Wire) -> Result<Vec<u8>, AllocError>
    requires { wire.now.from < length states.now }
    ensures value { IfOk result (λ title. title.items ≡ wire_title states.now wire.now) }
    ensures titled { IfOk result (λ title. IsTrue (is_titled title.items)) }
{
    let mut title = Writer::new(alloc);
    title.word(b"from ")?;
    write_title(&mut title, states[wire.from].places())?;
    title.word(b" by point ")?;
    title.number(wire.point.0)?;
    Ok(title.finish())
}

impl Ways {
    /// The ways between boxes that stand there. The short ones take their lanes first. Fails if memory runs out.
    pub fn of(alloc: Global, frames: &[Frame], wires: &[Wire]) -> Result<Ways, AllocError> {
        let mut lanes = Vec::new(alloc);
        for _ in wires {
            lanes.push(0)?;
        }
        let mut forth = Lanes::new(alloc);
        let mut back = Lanes::new(alloc);
        for numbered in short_first(alloc, frames, wires)?.as_slice() {
            let way = numbered.way;
            let side = if way.is_back { &mut back } else { &mut forth };
            let lane = side.put(alloc, way.start, way.end)?;
            if numbered.wire < lanes.len() {
                lanes[numbered.wire] = lane;
            }
        }
        Ok(Ways { lanes, forth, back })
    }

    /// How much room they need on the left, and on the right.
    pub fn left(&self) -> Pixels {
        Pixels::of(self.back.count()) * 12 + Pixels(14)
    }

    pub fn right(&self) -> Pixels {
        Pixels::of(self.forth.count()) * 12 + Pixels(14)
    }

    // The way of the wire with this number, beside boxes between these edges. Fails if memory runs out.
    fn group(
        &self,
        alloc: Global,
        states: &[State],
        frames: &[Frame],
        number: usize,
        wire: &Wire,
        left: Pixels,
        right: Pixels,
    ) -> Result<Group, AllocError>
        requires { wire.now.from < length states.now }
        ensures title { IfOk result (λ group. IsWire states.now wire.now group) }
        ensures titled { IfOk result (λ group. IsTrue (has_title group)) }
    {
        let lane = self.lanes.get(number).copied().unwrap_or(0);
        let away = Pixels::of(lane) * 12 + Pixels(16);
        let way = Way::of(frames, wire);
        let (edge, x, look) = if way.is_back {
            (left, left - away, Look::WireAgain)
        } else {
            (right, right + away, Look::Wire)
        };
        let corners = [
            place(edge, way.start),
            place(x, way.start),
            place(x, way.end),
            place(edge, way.end),
        ];
        let mut shapes = Vec::new(alloc);
        shapes.push(path(alloc, &corners, look)?)?;
        shapes.push(circle(place(edge, way.start), 3, Look::Dot))?;
        Ok(titled(title_of(alloc, states, wire)?, shapes))
    }

    /// Draws the ways of the wires, beside boxes between these edges. Fails if memory runs out.
    pub fn draw(
        &self,
        alloc: Global,
        drawing: &mut Drawing,
        states: &[State],
        frames: &[Frame],
        wires: &[Wire],
        left: Pixels,
        right: Pixels,
    ) -> Result<(), AllocError>
        requires { All (λ wire. wire.from < length states.now) wires.now }
        ensures { OnOk result (Adds (length wires.now) (ShowsWire states.now wires.now) drawing.old drawing.new) }
    {
        for (number, wire) in wires.iter().enumerate() {
            let group = self.group(alloc, states, frames, number, wire, left, right)?;
            drawing.put_group(group)?;
        }
        Ok(())
    }
}
