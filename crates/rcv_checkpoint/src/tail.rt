// A tail of states: those of a role from a base on.

ghost use Rattle.std.specs.Prelude.{◌≡◌, ◌+◌, ◌-◌, ◌*◌, ◌^◌, ◌<◌, ◌≤◌, ℕ, Some, [], ◌∷◌, ◌++◌, length, take, slice_get};
ghost use Rattle.std.specs.Prelude.{IfOk, IsOk, OnOk, OnErr};
ghost use Rattle.rcv_checkpoint.specs.Changed.{IsChange};
ghost use Rattle.rcv_checkpoint.specs.Tail.{TailView, made, place_of, HasState, final_vars, IsSaved, with_held, from_base};

use crate::changed::Changed;
use crate::stack::Stack;
use crate::state::State;
use rcv_tree::variables::Vars;
use std::alloc::{AllocError, Global};
use std::marker::Model;

// So many events are forgotten at once.
const BLOCK: u32 = 64;

/// The states of a role after `base`, `base + 1` and so on of its events; the earlier ones are forgotten. The states at
/// the multiples of `every` are durable: a crash loses those after the last of them.
#[derive(Drop)]
pub struct Tail {
    stack: Stack,
    // The first state of the stack is the one after so many events.
    before: u32,
    base: u32,
    every: u32,
}

impl Model for Tail {
    ghost use Rattle.rcv_checkpoint.specs.Tail.{TailView, tail_of, IsTail};

    ghost Value = { TailView };

    ghost view = { λ a. tail_of a.stack a.before a.base };

    ghost invariant = { λ a. IsTail a.stack a.before a.base a.every };
}

impl Tail {
    /// This state alone, before any event, with room for so many events. `every` is at least 1. Fails if memory runs
    /// out.
    pub fn new(alloc: Global, first: State, every: u32, room: u32) -> Result<Tail, AllocError>
        requires { 1 ≤ every }
        ensures { IfOk result (λ tail. tail ≡ record { base = 0; states = first ∷ []; every = every; room = room }) }
    {
        Ok(Tail {
            stack: Stack::new(alloc, first, every, room)?,
            before: 0,
            base: 0,
            every,
        })
    }

    /// How many events come before the first state that is held.
    pub fn base(&self) -> u32
        ensures { result ≡ self.now.base }
    {
        self.base
    }

    /// Adds the state after one event more, of at most 2^32 - 1: the event's point, and the variables after it, which
    /// differ from those before it as `change` says. Within the room it takes no memory and succeeds. Else it fails if
    /// memory runs out; then all is as before.
    #[inline(always)]
    pub fn save(&mut self, k: u16, vars: &Vars, change: Changed) -> Result<(), AllocError>
        requires few { made self.old + 1 < 2 ^ 32 }
        requires change { IsChange change (final_vars self.old) vars.now }
        ensures ok { OnOk result (self.new ≡ with_held self.old
            (self.old.states ++ record { k = k; vars = vars.now } ∷ [])) }
        ensures err { OnErr result (self.new ≡ self.old) }
        ensures room { made self.old < self.old.room → IsOk result }
    {
        self.stack.save(k, vars, change)
    }

    /// The state after so many events, from the base on. It takes no memory.
    pub fn state_at(&self, count: u32) -> State
        requires { HasState self.now count }
        ensures { slice_get self.now.states (place_of self.now count) ≡ Some result }
    {
        self.stack.state_at(count - self.before)
    }

    /// The state after all events. It takes no memory.
    pub fn top(&self) -> &State
        ensures { slice_get self.now.states (length self.now.states - 1) ≡ Some result.now }
    {
        self.stack.top()
    }

    /// How many events there are, forgotten ones too. It takes no memory.
    pub fn count(&self) -> u32
        ensures { result ≡ made self.now }
    {
        self.before + self.stack.count()
    }

    /// Goes back to so many events, from the base on. It takes no memory.
    pub fn rewind(&mut self, count: u32)
        requires { HasState self.old count }
        ensures { self.new ≡ with_held self.old (take (place_of self.old count + 1) self.old.states) }
    {
        self.stack.rewind(count - self.before);
    }

    /// How many events survive a crash: the greatest multiple of `every`. It takes no memory.
    pub fn durable(&self) -> u32
        ensures { IsSaved self.now result }
    {
        let events = self.count();
        events - events % self.every
    }

    /// A crash: the states above this count, a multiple of `every` from the base on, are gone. It takes no memory.
    pub fn lose_to(&mut self, count: u32)
        requires multiple { (k : ℕ) × (k * self.old.every ≡ count) }
        requires held { HasState self.old count }
        ensures { self.new ≡ with_held self.old (take (place_of self.old count + 1) self.old.states) }
    {
        self.rewind(count);
    }

    /// Forgets the states before the one after so many events, which is the base from then on. It takes no memory.
    ///
    /// What is forgotten gives its room to what is saved later: once it is at least as much as what stays, what stays
    /// moves over it. So moving costs no more than saving did.
    pub fn forget(&mut self, below: u32)
        requires { HasState self.old below }
        ensures { self.new ≡ from_base self.old below }
    {
        let blocks = (below - self.before) / BLOCK;
        let forgotten = blocks * BLOCK;
        self.base = below;
        if forgotten > 0 && forgotten >= self.stack.count() - forgotten {
            self.stack.drop_blocks(blocks);
            self.before += forgotten;
        }
    }
}
