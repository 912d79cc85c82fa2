// A run of a cell: poll after poll, under a watch and a gate.

ghost use Rattle.std.specs.Prelude.{◌≡◌, ◌+◌, ◌≤◌, [], ◌∷◌, ◌++◌, ◌↔◌, false, length, IsTrue};
ghost use Rattle.rcv_role.specs.Cell.{IsSettled, Goes};
ghost use Rattle.rcv_role.specs.Run.{IsFencedBy, Ran, signal_of};

use crate::cell::{Cell, LOG};
use crate::poll::{Poll, Stop};
use rcv_fence::Watch;
use rcv_gate::Gate;

impl<'a> Cell<'a> {
    /// Polls a role that isn't crashed until it can't go on, or a look at the watch shows a failure that reaches it, or
    /// so many turns, at least one, are made. Before each poll it looks at the watch once and then calls the gate. If
    /// the role crashes with an event that it hasn't saved, it raises the watch. The log has room for as many entries
    /// as turns. The watch stays one of the same fence. It takes no memory.
    pub fn run<G: Gate>(&mut self, watch: &mut Watch, gate: &G, turns: u32) -> Stop
        requires running { self.old.part.own.numbers.crashed ≡ false }
        requires turns { 1 ≤ turns }
        requires log { length self.old.part.log + turns ≤ LOG }
        requires settled { IsSettled self.old }
        ensures ran { Ran turns self.old self.new watch.old watch.new result }
        ensures fence { watch.new.fence ≡ watch.old.fence }
        ensures goes { Goes self.old self.new }
        ensures few { length self.new.part.log ≤ length self.old.part.log + turns }
    {
        self.known();
        for _ in 0..turns {
            if self.is_fenced(watch) {
                return Stop::Fenced;
            }
            gate.enter(self.role(), self.raw());
            match self.poll() {
                Poll::Moved => {}
                Poll::Waiting => return Stop::Waiting,
                Poll::Done => return Stop::Done,
                Poll::Tired => return Stop::Tired,
                Poll::Crashed => {
                    self.raise(watch);
                    return Stop::Crashed;
                }
            }
        }
        Stop::Spent
    }

    // Looks at the watch once: whether it shows a failure that reaches the role.
    fn is_fenced(&self, watch: &mut Watch) -> bool
        ensures fence { watch.new.fence ≡ watch.old.fence }
        ensures looks { watch.new.looks ≡ watch.old.looks + 1 }
        ensures raised { watch.new.raised ≡ watch.old.raised }
        ensures seen { watch.new.seen ≡ watch.old.seen ++ watch.new.last ∷ [] }
        ensures fenced { IsTrue result ↔ IsFencedBy self.now.part watch.new.last }
    {
        match watch.look() {
            None => false,
            Some((role, point)) => self.part.is_reached(role, point),
        }
    }

    // Raises the first event that the role hasn't saved, if there is one.
    fn raise(&self, watch: &mut Watch)
        ensures fence { watch.new.fence ≡ watch.old.fence }
        ensures looks { watch.new.looks ≡ watch.old.looks }
        ensures last { watch.new.last ≡ watch.old.last }
        ensures seen { watch.new.seen ≡ watch.old.seen }
        ensures raised { watch.new.raised ≡ watch.old.raised ++ signal_of self.now.part }
    {
        if let Some(point) = self.part.first_lost() {
            watch.raise(self.part.role(), point);
        }
    }
}
