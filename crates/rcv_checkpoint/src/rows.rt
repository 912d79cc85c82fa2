// What a stack keeps: full states, and for each event what it changed.

ghost use Rattle.std.specs.Prelude.{◌≡◌, ◌+◌, ◌*◌, ◌<◌, ◌≤◌, ℕ, [], ◌∷◌, ◌++◌, length, take, drop, map, slice_index, vec_len, ◌-◌};
ghost use Rattle.std.specs.Prelude.{vec_capacity, IfOk, IsOk, IsTrue, OnOk};
ghost use Rattle.rcv_checkpoint.specs.Rows.{patched, states_of, state_in, AreRows, HasRoom, HasRoomForOne, KeepsRoom};
ghost use Rattle.rcv_checkpoint.specs.Rows.{AreSame, IsNoted, changes_before, lists_of};
ghost use Rattle.rcv_checkpoint.specs.Changed.{IsChange, IsOneChange};

use crate::changed::Changed;
use crate::state::State;
use rcv_tree::variables::Vars;
use std::alloc::{AllocError, Global};

// A full state is kept at the count 0 and at each count that this divides.
const BLOCK: usize = 64;

// So many variables a role has.
const VARS: usize = 16;

/// For each event its point and how many variables it changed, 3 bytes; for each such change the variable's place and
/// what it was changed to, 9 bytes; and at each 64th count a full state and where the changes after it begin, 144
/// bytes. An event that changes two variables costs 23 bytes and a quarter; a full state for each event would cost 136.
#[derive(Drop)]
pub struct Rows {
    pub points: Vec<u16>,
    pub changed: Vec<u8>,
    pub places: Vec<u8>,
    pub values: Vec<i64>,
    pub fulls: Vec<State>,
    pub starts: Vec<usize>,
}

impl Rows {
    /// Room for so many events, whatever they change, and the state before the first. Fails if memory runs out.
    pub fn new(alloc: Global, first: State, room: u32) -> Result<Rows, AllocError>
        ensures rows { IfOk result (λ rows. AreRows (lists_of rows)) }
        ensures states { IfOk result (λ rows. states_of (lists_of rows) ≡ first ∷ []) }
        ensures room { IfOk result (λ rows. HasRoom rows room) }
    {
        let events = room as usize;
        let mut rows = Rows {
            points: Vec::with_capacity(alloc, events)?,
            changed: Vec::with_capacity(alloc, events)?,
            places: Vec::with_capacity(alloc, events * VARS)?,
            values: Vec::with_capacity(alloc, events * VARS)?,
            fulls: Vec::with_capacity(alloc, events / BLOCK + 2)?,
            starts: Vec::with_capacity(alloc, events / BLOCK + 2)?,
        };
        put(&mut rows.fulls, first);
        put(&mut rows.starts, 0);
        Ok(rows)
    }

    /// Room for one event more. Within the room for so many events it is there; else it fails if memory runs out.
    pub fn make_room(&mut self, room: u32) -> Result<(), AllocError>
        requires rows { AreRows (lists_of self.old) }
        requires room { HasRoom self.old room }
        ensures lists { lists_of self.new ≡ lists_of self.old }
        ensures room { KeepsRoom self.old self.new }
        ensures ok { OnOk result (HasRoomForOne self.new) }
        ensures succeeds { length self.old.points.items < room → IsOk result }
    {
        if self.points.len() < room as usize {
            return Ok(());
        }
        self.points.reserve(1)?;
        self.changed.reserve(1)?;
        self.places.reserve(VARS)?;
        self.values.reserve(VARS)?;
        self.fulls.reserve(1)?;
        self.starts.reserve(1)?;
        Ok(())
    }

    /// Adds the state after one event more, at this point and with these variables. `last` is the state before it, and
    /// becomes this one. `change` says what the event changed of the variables.
    #[inline(always)]
    pub fn push(&mut self, last: &mut State, k: u16, vars: &Vars, change: Changed)
        requires rows { AreRows (lists_of self.old) }
        requires last { last.old ≡ state_in (lists_of self.old) (length self.old.points.items) }
        requires change { IsChange change last.old.vars vars.now }
        requires room { HasRoomForOne self.old }
        ensures rows { AreRows (lists_of self.new) }
        ensures states { states_of (lists_of self.new) ≡ states_of (lists_of self.old) ++ last.new ∷ [] }
        ensures count { length self.new.points.items ≡ length self.old.points.items + 1 }
        ensures last { last.new ≡ state_in (lists_of self.new) (length self.new.points.items) }
        ensures becomes { last.new ≡ record { k = k; vars = vars.now } }
        ensures room { KeepsRoom self.old self.new }
    {
        let changed = note(
            &mut self.places,
            &mut self.values,
            &mut last.vars,
            vars,
            change,
        );
        last.k = k;
        put(&mut self.points, k);
        put(&mut self.changed, changed);
        if self.points.len() % BLOCK == 0 {
            put(&mut self.fulls, *last);
            put(&mut self.starts, self.places.len());
        }
    }

    /// The state after so many events, and how many changes they made. Goes over at most 63 events.
    #[inline(always)]
    pub fn find(&self, count: usize) -> Found
        requires rows { AreRows (lists_of self.now) }
        requires held { count ≤ length self.now.points.items }
        ensures state { result.state ≡ state_in (lists_of self.now) count }
        ensures changes { result.changes ≡ changes_before self.now.changed.items count }
    {
        let block = count / BLOCK;
        let full = self.fulls[block];
        let mut k = full.k;
        let mut vars = full.vars.0;
        let mut start = self.starts[block];
        for number in block * BLOCK..count {
            let end = start + self.changed[number] as usize;
            k = self.points[number];
            patch(
                &mut vars,
                &self.places[start..end],
                &self.values[start..end],
            );
            start = end;
        }
        Found {
            state: State {
                k,
                vars: Vars(vars),
            },
            changes: start,
        }
    }

    /// Keeps the states up to this count, with the `changes` changes that lead to them.
    #[inline(always)]
    pub fn cut(&mut self, count: usize, changes: usize)
        requires rows { AreRows (lists_of self.old) }
        requires held { count ≤ length self.old.points.items }
        requires changes { changes ≡ changes_before self.old.changed.items count }
        ensures rows { AreRows (lists_of self.new) }
        ensures states { states_of (lists_of self.new) ≡ take (count + 1) (states_of (lists_of self.old)) }
        ensures count { length self.new.points.items ≡ count }
        ensures last { state_in (lists_of self.new) count ≡ state_in (lists_of self.old) count }
        ensures room { KeepsRoom self.old self.new }
    {
        self.points.truncate(count);
        self.changed.truncate(count);
        self.places.truncate(changes);
        self.values.truncate(changes);
        self.fulls.truncate(count / BLOCK + 1);
        self.starts.truncate(count / BLOCK + 1);
    }
}

impl Rows {
    /// Forgets the states before the one after so many blocks of 64 events. It takes no memory, and moves what stays to
    /// the front of the room, so that what is added from then on takes the room of what was forgotten.
    pub fn drop_blocks(&mut self, blocks: usize)
        requires rows { AreRows (lists_of self.old) }
        requires held { blocks * 64 ≤ length self.old.points.items }
        ensures rows { AreRows (lists_of self.new) }
        ensures states { states_of (lists_of self.new) ≡ drop (blocks * 64) (states_of (lists_of self.old)) }
        ensures count { length self.new.points.items + blocks * 64 ≡ length self.old.points.items }
        ensures last { state_in (lists_of self.new) (length self.new.points.items)
            ≡ state_in (lists_of self.old) (length self.old.points.items) }
        ensures room { KeepsRoom self.old self.new }
    {
        let events = blocks * BLOCK;
        let changes = self.starts[blocks];
        drop_first(&mut self.points, events);
        drop_first(&mut self.changed, events);
        drop_first(&mut self.places, changes);
        drop_first(&mut self.values, changes);
        drop_first(&mut self.fulls, blocks);
        drop_first(&mut self.starts, blocks);
        lessen(&mut self.starts, changes);
    }
}

// Takes the first so many items off a list.
fn drop_first<T: Copy + Drop>(list: &mut Vec<T>, count: usize)
    requires { count ≤ length list.old.items }
    ensures items { list.new.items ≡ drop count list.old.items }
    ensures room { vec_capacity list.new ≡ vec_capacity list.old }
{
    let rest = list.len() - count;
    list.rotate_left(count);
    list.truncate(rest);
}

// Takes so much from each number of a list.
fn lessen(list: &mut Vec<usize>, by: usize)
    ensures items { list.new.items ≡ map (λ x. x - by) list.old.items }
    ensures room { vec_capacity list.new ≡ vec_capacity list.old }
{
    for place in 0..list.len() {
        list[place] = list[place].saturating_sub(by);
    }
}

/// What stands at a count: the state, and how many changes were made until then.
#[derive(Clone, Copy)]
pub struct Found {
    pub state: State,
    pub changes: usize,
}

// Notes the variables that an event changed, answers how many, and makes them the same.
#[inline(always)]
fn note(
    places: &mut Vec<u8>,
    values: &mut Vec<i64>,
    vars: &mut Vars,
    to: &Vars,
    change: Changed,
) -> u8
    requires change { IsChange change vars.old to.now }
    requires places { vec_len places.old + 16 ≤ vec_capacity places.old }
    requires values { vec_len values.old + 16 ≤ vec_capacity values.old }
    ensures noted { IsNoted places.old.items places.new.items values.old.items values.new.items vars.old to.now result }
    ensures vars { vars.new ≡ to.now }
    ensures places { vec_capacity places.old ≤ vec_capacity places.new }
    ensures values { vec_capacity values.old ≤ vec_capacity values.new }
{
    match change {
        Changed::Nothing => 0,
        Changed::One(place) => note_one(places, values, vars, to, place),
        Changed::Any => note_all(places, values, vars, to),
    }
}

// Notes the one variable that an event changed, and makes it the same.
#[inline(always)]
fn note_one(
    places: &mut Vec<u8>,
    values: &mut Vec<i64>,
    vars: &mut Vars,
    to: &Vars,
    place: u8,
) -> u8
    requires change { IsOneChange place vars.old to.now }
    requires places { vec_len places.old + 16 ≤ vec_capacity places.old }
    requires values { vec_len values.old + 16 ≤ vec_capacity values.old }
    ensures noted { IsNoted places.old.items places.new.items values.old.items values.new.items vars.old to.now result }
    ensures vars { vars.new ≡ to.now }
    ensures places { vec_capacity places.old ≤ vec_capacity places.new }
    ensures values { vec_capacity values.old ≤ vec_capacity values.new }
{
    let value = to.0[place as usize];
    put(places, place);
    put(values, value);
    vars.0[place as usize] = value;
    1
}

// Notes the variables that differ, answers how many, and makes them the same. It goes over a quarter only if that
// differs.
fn note_all(places: &mut Vec<u8>, values: &mut Vec<i64>, vars: &mut Vars, to: &Vars) -> u8
    requires places { vec_len places.old + 16 ≤ vec_capacity places.old }
    requires values { vec_len values.old + 16 ≤ vec_capacity values.old }
    ensures noted { IsNoted places.old.items places.new.items values.old.items values.new.items vars.old to.now result }
    ensures vars { vars.new ≡ to.now }
    ensures places { vec_capacity places.old ≤ vec_capacity places.new }
    ensures values { vec_capacity values.old ≤ vec_capacity values.new }
{
    let mut changed = 0;
    for quarter in 0..VARS / 4 {
        let start = quarter * 4;
        if !are_same(vars, to, start) {
            for place in start..start + 4 {
                if vars.0[place] != to.0[place] {
                    put(places, place as u8);
                    put(values, to.0[place]);
                    vars.0[place] = to.0[place];
                    changed += 1;
                }
            }
        }
    }
    changed
}

// Whether four variables from this place on are the same.
#[inline(always)]
fn are_same(from: &Vars, to: &Vars, start: usize) -> bool
    requires { start + 4 ≤ 16 }
    ensures { IsTrue result → AreSame from.now to.now start }
{
    from.0[start] == to.0[start]
        && from.0[start + 1] == to.0[start + 1]
        && from.0[start + 2] == to.0[start + 2]
        && from.0[start + 3] == to.0[start + 3]
}

// Adds an item to a list that has room for it.
#[inline(always)]
fn put<T: Copy + Drop>(list: &mut Vec<T>, item: T)
    requires { vec_len list.old < vec_capacity list.old }
    ensures items { list.new.items ≡ list.old.items ++ item ∷ [] }
    ensures room { vec_capacity list.old ≤ vec_capacity list.new }
{
    match list.push(item) {
        Ok(()) => (),
        Err(_) => (),
    }
}

// Writes the values to the variables at these places, in turn.
fn patch(vars: &mut [i64; VARS], places: &[u8], values: &[i64])
    requires fit { (i : ℕ) → slice_index places.now i < 16 }
    requires same { length places.now ≡ length values.now }
    ensures { vars.new ≡ patched places.now values.now vars.old }
{
    for (number, place) in places.iter().enumerate() {
        vars[*place as usize] = values[number];
    }
}
