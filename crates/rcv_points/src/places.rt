// Places of a text, as a list of what was found.

ghost use Rattle.std.specs.Prelude.{◌≡◌, ◌≤◌, ◌↔◌, ℕ, true, [], IsTrue, length};
ghost use Rattle.rcv_tree.specs.Bits.{has_point, IsPoint};
ghost use Rattle.rcv_model.specs.Net.{IsIn};
ghost use Rattle.rcv_points.specs.Found.{Adds, Is};

use rcv_tree::point::{Point, PointSet};
use std::marker::Model;

// Places count from 0 to 256, and so many can be found.
const ALL: usize = 257;

/// Numbers from 0 to 256, each once, in the order in which they came. It takes no memory.
#[derive(Drop)]
pub struct Places {
    flags: [bool; ALL],
    items: [u16; ALL],
    count: usize,
    // What was found, except for the start.
    points: PointSet,
}

impl Model for Places {
    ghost use Rattle.std.specs.Prelude.{List, ℕ, take};
    ghost use Rattle.rcv_points.specs.Found.{AreFound};

    ghost Value = { List ℕ };

    ghost view = { λ a. take a.count a.items };

    ghost invariant = { λ a. AreFound a.flags a.items a.count a.points.0 };
}

impl Places {
    /// Nothing is found yet.
    pub fn new() -> Places
        ensures { result ≡ [] }
    {
        Places {
            flags: [false; ALL],
            items: [0; ALL],
            count: 0,
            points: PointSet::none(),
        }
    }

    /// Adds a place if it hasn't been found before.
    pub fn add(&mut self, place: u16)
        requires { place ≤ 256 }
        ensures adds { Adds (Is place) self.old self.new }
        ensures few { length self.new ≤ 257 }
    {
        if !self.has(place) {
            self.flags[place as usize] = true;
            self.items[self.count] = place;
            self.count += 1;
            self.points = self.points.union(PointSet::only(Point(place)));
        }
    }

    /// Whether the place was found.
    pub fn has(&self, place: u16) -> bool
        requires { place ≤ 256 }
        ensures { IsTrue result ↔ IsIn place self.now }
    {
        self.flags[place as usize]
    }

    /// The places, in the order in which they were found: at most 257.
    pub fn as_slice(&self) -> &[u16]
        ensures all { result.now ≡ self.now }
        ensures few { length self.now ≤ 257 }
    {
        &self.items[..self.count]
    }

    /// The points among the places. It takes no memory.
    pub fn points(&self) -> PointSet
        ensures { (p : ℕ) → IsPoint p → (has_point result.0 p ≡ true) ↔ IsIn p self.now }
    {
        self.points
    }
}
