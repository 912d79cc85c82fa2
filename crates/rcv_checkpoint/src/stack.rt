// A stack of states: the state of a role after each count of its events.

ghost use Rattle.std.specs.Prelude.{◌≡◌, ◌+◌, ◌*◌, ◌^◌, ◌<◌, ◌≤◌, ℕ, Some, [], ◌∷◌, ◌++◌, length, take, drop, slice_get};
ghost use Rattle.std.specs.Prelude.{IfOk, IsOk, OnOk, OnErr};
ghost use Rattle.rcv_checkpoint.specs.Stack.{StackView, held, with_states, IsDurable, last_vars};
ghost use Rattle.rcv_checkpoint.specs.Changed.{IsChange};

use crate::changed::Changed;
use crate::rows::Rows;
use crate::state::State;
use rcv_tree::variables::Vars;
use std::alloc::{AllocError, Global};
use std::marker::Model;

/// The states of a role after 0, 1, 2 and so on of its events, from the first one on. Contracts see them as a list. The
/// states at the multiples of `every` are durable: a crash loses those after the last of them.
#[derive(Drop)]
pub struct Stack {
    rows: Rows,
    // The state after all events that are held.
    last: State,
    every: u32,
    room: u32,
}

impl Model for Stack {
    ghost use Rattle.rcv_checkpoint.specs.Rows.{lists_of, states_of};
    ghost use Rattle.rcv_checkpoint.specs.Stack.{StackView, IsStack};

    ghost Value = { StackView };

    ghost view = { λ a. record { states = states_of (lists_of a.rows); every = a.every; room = a.room } };

    ghost invariant = { λ a. IsStack a.rows a.last a.every a.room };
}

impl Stack {
    /// The stack of this state alone, with room for so many events, any number. `every` is at least 1. Fails if memory
    /// runs out.
    pub fn new(alloc: Global, first: State, every: u32, room: u32) -> Result<Stack, AllocError>
        requires { 1 ≤ every }
        ensures { IfOk result (λ stack. stack ≡ record { states = first ∷ []; every = every; room = room }) }
    {
        Ok(Stack {
            rows: Rows::new(alloc, first, room)?,
            last: first,
            every,
            room,
        })
    }

    /// Adds the state after one event more, of at most 2^32 - 1: the event's point, and the variables after it, which
    /// differ from those before it as `change` says. Within the room of the stack it takes no memory and succeeds. Else
    /// it fails if memory runs out; then the stack is as before.
    #[inline(always)]
    pub fn save(&mut self, k: u16, vars: &Vars, change: Changed) -> Result<(), AllocError>
        requires few { held self.old + 1 < 2 ^ 32 }
        requires change { IsChange change (last_vars self.old) vars.now }
        ensures ok { OnOk result (self.new ≡ with_states self.old
            (self.old.states ++ record { k = k; vars = vars.now } ∷ [])) }
        ensures err { OnErr result (self.new ≡ self.old) }
        ensures room { held self.old < self.old.room → IsOk result }
    {
        self.rows.make_room(self.room)?;
        self.rows.push(&mut self.last, k, vars, change);
        Ok(())
    }

    /// The state after so many of the events that are held, at most all. It takes no memory.
    pub fn state_at(&self, count: u32) -> State
        requires { count ≤ held self.now }
        ensures { slice_get self.now.states count ≡ Some result }
    {
        self.rows.find(count as usize).state
    }

    /// The state after all events that are held. It takes no memory.
    pub fn last(&self) -> State
        ensures { slice_get self.now.states (held self.now) ≡ Some result }
    {
        self.last
    }

    /// The same state, which isn't copied.
    pub fn top(&self) -> &State
        ensures { slice_get self.now.states (held self.now) ≡ Some result.now }
    {
        &self.last
    }

    /// How many events are held, which is one fewer than there are states. It takes no memory.
    pub fn count(&self) -> u32
        ensures { result + 1 ≡ length self.now.states }
    {
        self.rows.points.len() as u32
    }

    /// Goes back to so many of the events that are held, at most all. It takes no memory.
    pub fn rewind(&mut self, count: u32)
        requires { count ≤ held self.old }
        ensures { self.new ≡ with_states self.old (take (count + 1) self.old.states) }
    {
        // Most roles keep all that they have.
        if count as usize == self.rows.points.len() {
            return;
        }
        let found = self.rows.find(count as usize);
        self.rows.cut(count as usize, found.changes);
        self.last = found.state;
    }

    /// How many of the events that are held survive a crash: the greatest multiple of `every`. It takes no memory.
    pub fn durable(&self) -> u32
        ensures { IsDurable self.now result }
    {
        let events = self.rows.points.len() as u32;
        events - events % self.every
    }

    /// A crash: the states above this count, a multiple of `every` and at most all that are held, are gone. It takes no
    /// memory.
    pub fn lose_to(&mut self, count: u32)
        requires multiple { (k : ℕ) × (k * self.old.every ≡ count) }
        requires held { count ≤ held self.old }
        ensures { self.new ≡ with_states self.old (take (count + 1) self.old.states) }
    {
        self.rewind(count);
    }

    /// Forgets the states before the one after so many blocks of 64 events, of at most all that are held; that one is
    /// the first from then on. It takes no memory, and what is saved later takes the room of what was forgotten.
    pub fn drop_blocks(&mut self, blocks: u32)
        requires { blocks * 64 ≤ held self.old }
        ensures { self.new ≡ with_states self.old (drop (blocks * 64) self.old.states) }
    {
        self.rows.drop_blocks(blocks as usize);
    }
}
