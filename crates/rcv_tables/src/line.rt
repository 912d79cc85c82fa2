// The line: the lanes of a text one after the other, as one lane.

ghost use Rattle.std.specs.Prelude.{◌≡◌, ◌≤◌, ◌<◌, [], ◌∷◌, List, ℕ, IfOk, length, slice_index_or};
ghost use Rattle.rcv_tree.specs.Bits.{members};
ghost use Rattle.rcv_points.specs.Follow.{net_in};
ghost use Rattle.rcv_tables.specs.Line.{is_last, offered_from, offered_after, offered_on};
ghost use Rattle.rcv_tables.specs.OnLine.{AreOnLine};

use rcv_points::offered::Offered;
use rcv_points::points::Points;
use rcv_tree::point::{Point, PointSet};
use std::alloc::{AllocError, Global};
use std::marker::Model;

/// What the line offers, by place.
#[derive(Drop)]
pub struct Line {
    places: Vec<Offered>,
}

impl Model for Line {
    ghost use Rattle.std.specs.Prelude.{List, ℕ};

    ghost Value = { List (List ℕ) };

    ghost view = { λ a. a.places.items };
}

// Whether the lane is of the last stage that has a point.
fn in_last_stage(points: &Points, lane: u16) -> bool
    requires { lane < length points.now.lanes }
    ensures { result ≡ is_last (net_in points.now) lane }
{
    // There are lanes for all places.
    points.lanes();
    points.stage_of(lane) == points.stage_of(points.lane_of(points.count()))
}

// What the line offers at the start of a lane, if it offers this at the start of the next one.
fn from_lane(points: &Points, lane: u16, behind: PointSet) -> PointSet
    requires { lane < length points.now.lanes }
    ensures { (lanes : List ℕ) → members behind.0 ≡ offered_from (net_in points.now) lanes
        → members result.0 ≡ offered_from (net_in points.now) (lane ∷ lanes) }
{
    let start = points.lane_start(lane);
    if in_last_stage(points, lane) {
        start.as_set().union(behind)
    } else if start.as_slice().is_empty() {
        behind
    } else {
        start.as_set()
    }
}

// What the line offers at the end of a lane.
fn after_lane(points: &Points, lane: u16) -> PointSet
    requires { lane < length points.now.lanes }
    ensures { members result.0 ≡ offered_after (net_in points.now) lane }
{
    if in_last_stage(points, lane) {
        return PointSet::none();
    }
    // There are lanes for all places.
    points.lanes();
    let last = points.lane_of(points.count());
    let mut offered = PointSet::none();
    for back in 0..last.saturating_sub(lane) {
        offered = from_lane(points, last - back, offered);
    }
    offered
}

// What the line offers at a place.
fn at_place(points: &Points, place: u16) -> PointSet
    requires { place ≤ length points.now.messages }
    ensures { members result.0 ≡ offered_on (net_in points.now) place }
{
    // There are lanes for all places.
    points.lanes();
    let own = points.place(place);
    if own.as_slice().is_empty() {
        after_lane(points, points.lane_of(place))
    } else {
        own.as_set()
    }
}

impl Line {
    /// The line of a text. Fails if memory runs out.
    pub fn of(alloc: Global, points: &Points) -> Result<Line, AllocError>
        ensures { IfOk result (λ line. AreOnLine points.now line) }
    {
        let mut places = Vec::new(alloc);
        for place in 0..points.count() + 1 {
            places.push(Offered::of(alloc, at_place(points, place))?)?;
        }
        Ok(Line { places })
    }

    /// The points that the line offers at a place, ascending. It takes no memory.
    pub fn offered(&self, place: u16) -> &[Point]
        requires { place < length self.now }
        ensures { result.now ≡ slice_index_or self.now place [] }
    {
        self.places[place as usize].as_slice()
    }

    /// The same points as a set. It takes no memory.
    pub fn offered_set(&self, place: u16) -> PointSet
        requires { place < length self.now }
        ensures { slice_index_or self.now place [] ≡ members result.0 }
    {
        self.places[place as usize].as_set()
    }
}
