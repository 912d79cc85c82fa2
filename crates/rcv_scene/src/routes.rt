// The ways of the messages: from the mark of each Send to that of its Recv.

use crate::layout::Layout;
use rcv_picture::group::Says;
use rcv_picture::pixels::Pixels;
use rcv_picture::shape::Anchor;
use std::alloc::{AllocError, Global};

/// The most lanes at one side of a column. Later ones share the last.
const LANES: usize = 40;

/// How far the first lane is from the middle of its column, and each other from the one before.
const NEAREST: Pixels = Pixels(24);

const APART: Pixels = Pixels(6);

/// Columns have room for so many lanes at each side, if they aren't made wider.
const FEW: usize = 6;

// A number of 64 bits has an upper half and a lower one.
const HALF: u64 = 0x1_0000_0000;

/// The right or left side of a column.
#[derive(Clone, Copy, Debug, PartialEq, Eq)]
pub enum Side {
    Left,
    Right,
}

impl Side {
    /// The side of the first column at which the other one stands.
    pub fn towards(from: Pixels, to: Pixels) -> Side {
        if from < to { Side::Right } else { Side::Left }
    }

    /// The other one.
    pub fn other(self) -> Side {
        match self {
            Side::Left => Side::Right,
            Side::Right => Side::Left,
        }
    }

    /// So far from a place, at this side of it.
    pub fn beside(self, x: Pixels, far: Pixels) -> Pixels {
        match self {
            Side::Left => x - far,
            Side::Right => x + far,
        }
    }

    /// Which part of a text stands at its place, if the text stands at this side of the place.
    pub fn anchor(self) -> Anchor {
        match self {
            Side::Left => Anchor::End,
            Side::Right => Anchor::Start,
        }
    }
}

/// What became of a message.
#[derive(Clone, Copy, Debug, PartialEq, Eq)]
pub enum Fate {
    /// This Recv took it.
    Received(u32),
    /// This Recover took it from its channel.
    Dropped(u32),
    /// It lies in its channel at the end.
    Waits,
}

/// The way of a message.
#[derive(Clone, Copy, Debug, PartialEq, Eq)]
pub struct Route {
    pub send: u32,
    pub fate: Fate,
    pub sender: u8,
    pub receiver: u8,
    /// The side of the receiver's column at which it comes.
    pub side: Side,
    /// The heights at which it begins and ends.
    pub from: Pixels,
    pub to: Pixels,
    /// It goes straight to the next row.
    pub straight: bool,
    /// How far its lane is from the middle of the receiver's column.
    pub lane: Pixels,
}

// A lane that is in use between two heights.
#[derive(Clone, Copy)]
struct Busy {
    from: Pixels,
    to: Pixels,
    lane: Pixels,
}

// The lanes at one side of a column.
#[derive(Drop)]
struct Lanes {
    // Where each is free again.
    ends: Vec<Pixels>,
    busy: Vec<Busy>,
}

/// The ways of all messages of a picture.
#[derive(Drop)]
pub struct Routes {
    /// Those of the wires, in their order, then those of messages that were dropped, then those that wait.
    pub routes: Vec<Route>,
    lanes: Vec<Lanes>,
}

// The number of a side of a role's column.
fn number_of(role: u8, side: Side) -> usize {
    match side {
        Side::Left => role as usize * 2,
        Side::Right => role as usize * 2 + 1,
    }
}

// The way of a message, except for its lane.
fn route_of(layout: &Layout<'_>, send: u32, fate: Fate) -> Route {
    let (sender, receiver) = match layout.event(send) {
        Some(event) => {
            let message = layout.cast.message(event.point);
            (message.sender, message.receiver)
        }
        None => (0, 0),
    };
    let row = layout.row(send);
    let from = if row.shown {
        row.middle
    } else {
        row.bottom - Pixels(4)
    };
    let mut straight = false;
    let to = match fate {
        Fate::Received(receive) => {
            let row_to = layout.row(receive);
            straight = layout.are_neighbours(send, receive);
            if row_to.shown {
                row_to.middle
            } else {
                row_to.top + Pixels(4)
            }
        }
        Fate::Dropped(recover) => {
            let row_to = layout.row(recover);
            if row_to.shown {
                row_to.top + Pixels(3)
            } else {
                row_to.top + Pixels(4)
            }
        }
        Fate::Waits => layout.end,
    };
    Route {
        send,
        fate,
        sender,
        receiver,
        side: Side::towards(layout.x(receiver), layout.x(sender)),
        from,
        to,
        straight,
        lane: NEAREST,
    }
}

// The messages of these wires, and those that were dropped or wait and whose Sends are shown.
fn routes_of(alloc: Global, layout: &Layout<'_>, wires: &[Says]) -> Result<Vec<Route>, AllocError> {
    let mut routes = Vec::new(alloc);
    for wire in wires {
        if let Says::Arrow { send, receive, .. } = wire {
            routes.push(route_of(layout, *send, Fate::Received(*receive)))?;
        } else {
            routes.push(route_of(layout, 0, Fate::Received(0)))?;
        }
    }
    for dropped in layout.story.dropped.iter() {
        if layout.is_shown(dropped.send) {
            routes.push(route_of(layout, dropped.send, Fate::Dropped(dropped.recover)))?;
        }
    }
    for send in layout.story.waiting.iter() {
        if layout.is_shown(*send) {
            routes.push(route_of(layout, *send, Fate::Waits))?;
        }
    }
    Ok(routes)
}

// The numbers of these routes in the order of their Sends: each as the Send in the upper half, and the number in the
// lower.
fn order_of(alloc: Global, routes: &[Route]) -> Result<Vec<u64>, AllocError> {
    let mut order = Vec::new(alloc);
    let mut number: u32 = 0;
    for route in routes {
        let send = u64::from(route.send).saturating_mul(HALF);
        order.push(send.saturating_add(u64::from(number)))?;
        number = number.saturating_add(1);
    }
    order.as_mut_slice().sort_unstable();
    Ok(order)
}

// Takes a lane for a way between two heights: the nearest that is free.
fn take_lane(lanes: &mut Lanes, from: Pixels, to: Pixels) -> Result<Pixels, AllocError> {
    let mut number = lanes.ends.len();
    for (index, end) in lanes.ends.iter().enumerate().rev() {
        if *end < from {
            number = index;
        }
    }
    if number >= lanes.ends.len() {
        if lanes.ends.len() < LANES {
            lanes.ends.push(Pixels(0))?;
        }
        number = lanes.ends.len().saturating_sub(1);
    }
    if let Some(end) = lanes.ends.get_mut(number) {
        *end = (*end).max(to);
    }
    let lane = NEAREST + APART * (number.min(LANES) as u32);
    lanes.busy.push(Busy { from, to, lane })?;
    Ok(lane)
}

// Gives the route with this number a lane, unless it is straight.
fn give_lane(
    routes: &mut Vec<Route>,
    lanes: &mut Vec<Lanes>,
    number: usize,
) -> Result<(), AllocError> {
    let Some(route) = routes.get_mut(number) else {
        return Ok(());
    };
    if route.straight {
        return Ok(());
    }
    if let Some(side) = lanes.get_mut(number_of(route.receiver, route.side)) {
        route.lane = take_lane(side, route.from, route.to)?;
    }
    Ok(())
}

/// The ways of the messages of a picture with these wires. Fails if memory runs out.
pub fn find_routes(
    alloc: Global,
    layout: &Layout<'_>,
    wires: &[Says],
) -> Result<Routes, AllocError> {
    let mut routes = routes_of(alloc, layout, wires)?;
    let mut lanes = Vec::new(alloc);
    for _ in 0..16 {
        lanes.push(Lanes {
            ends: Vec::new(alloc),
            busy: Vec::new(alloc),
        })?;
    }
    let order = order_of(alloc, routes.as_slice())?;
    for key in order.iter() {
        give_lane(&mut routes, &mut lanes, (*key % HALF) as usize)?;
    }
    Ok(Routes { routes, lanes })
}

impl Routes {
    /// How far from the middle of a role's column a text begins at this side and this height, so that no lane crosses
    /// it.
    pub fn text_from(&self, role: u8, side: Side, y: Pixels) -> Pixels {
        let mut far = Pixels(8);
        if let Some(lanes) = self.lanes.get(number_of(role, side)) {
            for busy in lanes.busy.iter() {
                if busy.from <= y && y <= busy.to {
                    far = far.max(busy.lane);
                }
            }
        }
        far + Pixels(6)
    }

    /// How much wider columns must be for all lanes to have room.
    pub fn wider(&self) -> Pixels {
        let mut most = FEW;
        for side in self.lanes.iter() {
            most = most.max(side.ends.len());
        }
        APART * (most.min(LANES).saturating_sub(FEW) as u32)
    }

    /// Whether no way before the one with this number is of a message that the same Recover dropped.
    pub fn is_first_dropped(&self, number: usize) -> bool {
        let Some(Fate::Dropped(recover)) = self.route(number).map(|route| route.fate) else {
            return false;
        };
        for before in self.routes.iter().take(number) {
            if before.fate == Fate::Dropped(recover) {
                return false;
            }
        }
        true
    }

    /// How far the lane of the way with this number is from the middle of the receiver's column.
    pub fn lane(&self, number: usize) -> Pixels {
        match self.route(number) {
            Some(route) => route.lane,
            None => NEAREST,
        }
    }

    /// The way with this number.
    pub fn route(&self, number: usize) -> Option<Route> {
        self.routes.get(number).copied()
    }
}
