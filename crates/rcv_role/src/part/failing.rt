// A role crashes, and what it loses.

ghost use Rattle.std.specs.Prelude.{◌≡◌, ◌<◌, length, slice_get, IfSome};
ghost use Rattle.rcv_tree.specs.Bits.{IsPoint};
ghost use Rattle.rcv_model.specs.Journal.{IsOwnDue};
ghost use Rattle.rcv_session.specs.Session.{rules_of};
ghost use Rattle.rcv_role.specs.Part.{with_crash, first_lost, point_there};

use crate::cell::LOG;
use crate::part::Part;
use rcv_tree::entry::{Entry, Timed};
use rcv_tree::point::Point;

impl<'a> Part<'a> {
    /// A crash, which is due: it logs the crash, and loses the states that the role hasn't saved.
    pub fn crash(&mut self)
        requires due { IsOwnDue (rules_of self.old.setup) self.old.role self.old.own }
        requires log { length self.old.log < LOG }
        ensures { self.new ≡ with_crash self.old }
    {
        let durable = self.tail.durable();
        self.tail.lose_to(durable);
        self.held = durable;
        self.numbers.crashes += 1;
        self.numbers.crashed = true;
        self.chosen = None;
        self.log.push_reserved(Timed {
            stamp: self.numbers.clock,
            step: Entry::Crash(self.role),
        });
    }

    /// The point of the first event that the role hasn't saved; none if it has saved all.
    pub fn first_lost(&self) -> Option<Point>
        ensures value { result ≡ first_lost self.now }
        ensures point { IfSome result IsPoint }
        ensures role { self.now.role < 8 }
    {
        let every = self.setup.every(self.role) as usize;
        let made = self.events.len();
        self.point_at(made - made % every)
    }

    // The point of an event, if the role made so many.
    fn point_at(&self, at: usize) -> Option<Point>
        ensures { result ≡ point_there (slice_get self.now.own.events at) }
    {
        match self.events.as_slice().get(at) {
            Some(event) => Some(event.point),
            None => None,
        }
    }
}
