// To which protocols each one comes by calls, and an order in which each stands after those that it calls.

ghost use Rattle.std.specs.Prelude.{◌≡◌, ◌<◌, ◌≤◌, ◌+◌, ◌||◌, ◌&&◌, ℕ, All, length, IfOk};
ghost use Rattle.rcv_tree.specs.Bits.{has_bit};
ghost use Rattle.rcv_do.specs.Rows.{word, has, is_call, IsInside, AreRows, AreAcyclic, IsOrder, IsLeast, IsListed};

use crate::calls::Call;
use crate::set::Set;
use std::alloc::{AllocError, Global};

/// For each of so many protocols, those to which it comes by any number of calls, itself among them.
pub fn reached(alloc: Global, calls: &[Call], count: usize) -> Result<Vec<Set>, AllocError>
    requires few { count ≤ 64 }
    requires inside { All (IsInside count) calls.now }
    ensures { IfOk result (λ rows. AreRows calls.now count rows.items) }
{
    let mut rows = Vec::with_capacity(alloc, count)?;
    for place in 0..count {
        rows.push(Set::only(place))?;
    }
    for call in calls {
        add_call(rows.as_mut_slice(), call);
    }
    for place in 0..count {
        join_through(rows.as_mut_slice(), place);
    }
    Ok(rows)
}

// The holder's row with the protocol that is called.
fn add_call(rows: &mut [Set], call: &Call)
    requires few { length rows.old ≤ 64 }
    requires inside { IsInside (length rows.old) call.now }
    ensures long { length rows.new ≡ length rows.old }
    ensures added { (i j : ℕ) → j < 64 → has rows.new i j ≡ (has rows.old i j || is_call call.now i j) }
{
    if let Some(target) = call.target {
        rows[call.holder] = rows[call.holder].with(target);
    }
}

// Who comes to this place comes also to where it comes.
fn join_through(rows: &mut [Set], place: usize)
    requires { (place < length rows.old) × (length rows.old ≤ 64) }
    ensures long { length rows.new ≡ length rows.old }
    ensures joined { (i j : ℕ) → i < length rows.old → j < 64
        → has rows.new i j ≡ (has rows.old i j || (has rows.old i place && has rows.old place j)) }
{
    let through = rows[place];
    for index in 0..rows.len() {
        rows[index] = joined(rows[index], place, through);
    }
}

// The row, with another one if it has this place.
fn joined(row: Set, place: usize, through: Set) -> Set
    requires { place < 64 }
    ensures { (j : ℕ) → j < 64 → has_bit result.0 j ≡ (has_bit row.0 j || (has_bit row.0 place && has_bit through.0 j)) }
{
    if row.has(place) {
        row.union(through)
    } else {
        row
    }
}

/// The places to which the first one comes, except its own, so that each stands after those to which it comes: a row
/// with fewer places is a smaller number.
pub fn order_of(alloc: Global, rows: &[Set]) -> Result<Vec<usize>, AllocError>
    requires few { (0 < length rows.now) × (length rows.now ≤ 64) }
    requires acyclic { AreAcyclic rows.now }
    ensures { IfOk result (λ order. IsOrder rows.now order.items) }
{
    let mut order = Vec::with_capacity(alloc, rows.len())?;
    let mut listed = Vec::with_capacity(alloc, rows.len())?;
    for place in 0..rows.len() {
        listed.push(place == 0 || !rows[0].has(place))?;
    }
    while let Some(place) = least(rows, listed.as_slice()) {
        order.push(place)?;
        listed[place] = true;
    }
    Ok(order)
}

// The place of the least row that isn't listed yet.
fn least(rows: &[Set], listed: &[bool]) -> Option<usize>
    requires { length listed.now ≡ length rows.now }
    ensures { IsLeast rows.now listed.now (length rows.now) result }
{
    let mut found = None;
    for place in 0..rows.len() {
        found = lesser(rows, listed, found, place);
    }
    found
}

// The least one up to this place, given the least before it.
fn lesser(rows: &[Set], listed: &[bool], found: Option<usize>, place: usize) -> Option<usize>
    requires inside { place < length rows.now }
    requires long { length listed.now ≡ length rows.now }
    requires before { IsLeast rows.now listed.now place found }
    ensures { IsLeast rows.now listed.now (place + 1) result }
{
    if listed[place] {
        return found;
    }
    let word = word_at(rows, place);
    let Some(other) = found else {
        return Some(place);
    };
    if rows[other].0 <= word {
        return found;
    }
    Some(place)
}

// The row at this place, as a number.
fn word_at(rows: &[Set], place: usize) -> u64
    requires { place < length rows.now }
    ensures { result ≡ word rows.now place }
{
    rows[place].0
}
