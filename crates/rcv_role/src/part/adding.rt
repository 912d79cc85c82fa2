// A role makes one event more.

ghost use Rattle.std.specs.Prelude.{◌≡◌, ◌+◌, ◌^◌, ◌<◌, ◌∷◌, ◌++◌, [], false, length};
ghost use Rattle.rcv_checkpoint.specs.Changed.{IsChange};
ghost use Rattle.rcv_checkpoint.specs.Tail.{made, final_vars, with_held};
ghost use Rattle.rcv_ledger.specs.Ledger.{state_behind};
ghost use Rattle.rcv_core.specs.Setup.{vars_by};
ghost use Rattle.rcv_role.specs.Part.{IsOwn, IsBelow, with_event, entry_of_event};

use crate::cell::LOG;
use crate::part::Part;
use rcv_checkpoint::changed::Changed;
use rcv_checkpoint::state::State;
use rcv_checkpoint::tail::Tail;
use rcv_tree::entry::{Entry, Timed};
use rcv_tree::event::{Dir, Event};

// The state after an event, and which variables the event may have changed.
#[derive(Clone, Copy)]
struct Behind {
    state: State,
    change: Changed,
}

impl<'a> Part<'a> {
    /// Adds an event of the role, which isn't crashed, and logs it.
    pub fn add(&mut self, event: &Event)
        requires running { self.old.own.numbers.crashed ≡ false }
        requires own { IsOwn self.old.setup self.old.role event.now }
        requires below { IsBelow self.old }
        requires log { length self.old.log < LOG }
        ensures { self.new ≡ with_event self.old event.now (entry_of_event event.now) }
    {
        let _limit = self.setup.limit();
        let behind = self.behind(event);
        hold(&mut self.tail, &behind);
        self.held += 1;
        self.numbers.raw += 1;
        self.numbers.clock = event.stamp;
        self.events.push_reserved(*event);
        self.log.push_reserved(Timed {
            stamp: event.stamp,
            step: entry_of_event(event),
        });
        self.chosen = None;
    }

    // What stands after one event more.
    fn behind(&self, event: &Event) -> Behind
        requires running { self.now.own.numbers.crashed ≡ false }
        requires own { IsOwn self.now.setup self.now.role event.now }
        ensures state { result.state ≡ state_behind (vars_by self.now.setup) self.now.role
            (self.now.own.events ++ event.now ∷ []) }
        ensures change { IsChange result.change (vars_by self.now.setup self.now.role self.now.own.events)
            result.state.vars }
    {
        let mut vars = self.tail.top().vars;
        let change = self.setup.receive(event, &mut vars);
        Behind {
            state: State {
                k: place_behind(event),
                vars,
            },
            change,
        }
    }
}

// Saves the state after one event more. There is room for it.
fn hold(tail: &mut Tail, behind: &Behind)
    requires room { made tail.old < tail.old.room }
    requires few { made tail.old + 1 < 2 ^ 32 }
    requires change { IsChange behind.now.change (final_vars tail.old) behind.now.state.vars }
    ensures { tail.new ≡ with_held tail.old (tail.old.states ++ behind.now.state ∷ []) }
{
    let _saved = tail.save(behind.state.k, &behind.state.vars, behind.change);
}

// The place after an event.
fn place_behind(event: &Event) -> u16
    ensures { result ≡ event.now.point }
{
    event.point.0
}

// The entry of an event.
fn entry_of_event(event: &Event) -> Entry
    ensures { result ≡ entry_of_event event.now }
{
    match event.dir {
        Dir::Sent => Entry::Send(*event),
        Dir::Got => Entry::Recv(*event),
    }
}
