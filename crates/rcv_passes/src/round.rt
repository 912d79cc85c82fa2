// A round: the places of several workers, each of them with a tool.

ghost use Rattle.std.specs.Prelude.{◌≡◌, ◌≤◌, length};
ghost use Rattle.std.specs.Thread.{IsSync};
ghost use denote.Param.Send.{IsSend};
ghost use Rattle.rcv_passes.specs.Round.{AreReady, AreOfOneKind, HaveRunWithEach, AreLikeBefore, CanBegin, HaveWorked};

use crate::activity::Activity;
use crate::board::Board;
use crate::place::Place;
use crate::work::work;
use std::thread::{Threads, join_mut};

/// Runs each place at least once, and goes on with those that aren't over until each is, or nobody moves any longer.
///
/// There are as many workers, and threads, as there are tools, from 1 to 8, but no more than places: each has a tool
/// and an equal part of the places. It goes over these pass after pass, and runs each place that isn't over once in a
/// pass. If none of them moves, it waits for those of the others, for a short while between two passes. It leaves if
/// all wait in vain, if workers only move in turn for some time, or after a bounded number of passes in vain. A single
/// worker never waits.
///
/// The threads are joined. It takes no memory.
pub fn run_round<R: Threads + Sync, C: Sync, T: Send, P: Place<T, C> + Send>(
    rt: &R,
    with: &C,
    places: &mut [P],
    tools: &mut [T],
) -> Activity
    requires least { 1 ≤ length tools.old }
    requires most { length tools.old ≤ 8 }
    requires alike { AreOfOneKind P.like tools.old }
    requires ready { AreReady P.ready places.old }
    ensures ran { HaveRunWithEach P.ready P.ran tools.old places.old places.new }
    ensures like { AreLikeBefore P.like tools.old tools.new }
    ensures alike { AreOfOneKind P.like tools.new }
{
    // Tell the proof so.
    tools_carry::<C, T, P>();
    kinds_join::<C, T, P>();
    let workers = tools.len().min(places.len()).max(1);
    let board = Board::new(workers);
    let (crew, _) = tools.split_at_mut(workers);
    share(rt, with, &board, 0, crew, places)
}

// The workers whose numbers go on from this one go over the places: in halves at one time, each half by half of the
// workers.
#[cycle(share)]
fn share<R: Threads + Sync, C: Sync, T: Send, P: Place<T, C> + Send>(
    rt: &R,
    with: &C,
    board: &Board,
    first: usize,
    tools: &mut [T],
    places: &mut [P],
) -> Activity
    requires { CanBegin P.like P.ready tools.old places.old }
    ensures { HaveWorked P.like P.ready P.ran tools.old tools.new places.old places.new }
{
    // Tells the proof so.
    tools_carry::<C, T, P>();
    if tools.len() == 1 {
        return work(with, board, first, &mut tools[0], places);
    }
    let half = tools.len() / 2;
    let part = part_for(half, tools.len(), places.len());
    let (front_tools, back_tools) = tools.split_at_mut(half);
    let (front, back) = places.split_at_mut(part);
    both(rt, with, board, first, front_tools, front, back_tools, back)
}

// Both halves at one time. (A function of its own, so that what the closures ask is what it is given.)
#[cycle(share)]
fn both<R: Threads + Sync, C: Sync, T: Send, P: Place<T, C> + Send>(
    rt: &R,
    with: &C,
    board: &Board,
    first: usize,
    front_tools: &mut [T],
    front: &mut [P],
    back_tools: &mut [T],
    back: &mut [P],
) -> Activity
    requires front { CanBegin P.like P.ready front_tools.old front.old }
    requires back { CanBegin P.like P.ready back_tools.old back.old }
    ensures front { HaveWorked P.like P.ready P.ran front_tools.old front_tools.new front.old front.new }
    ensures back { HaveWorked P.like P.ready P.ran back_tools.old back_tools.new back.old back.new }
{
    let second = first.saturating_add(front_tools.len());
    let mut others = || -> Activity
        requires { IsSync R.row × IsSync C.row × IsSend T.row × IsSend P.row × CanBegin P.like P.ready back_tools.now back.now }
        ensures { HaveWorked P.like P.ready P.ran back_tools.entry.now back_tools.exit.now back.entry.now back.exit.now }
    { share(rt, with, board, second, back_tools, back) };
    let mut own = || -> Activity
        requires { IsSync R.row × IsSync C.row × IsSend T.row × IsSend P.row × CanBegin P.like P.ready front_tools.now front.now }
        ensures { HaveWorked P.like P.ready P.ran front_tools.entry.now front_tools.exit.now front.entry.now front.exit.now }
    { share(rt, with, board, first, front_tools, front) };
    let (theirs, ours) = join_mut(rt, &mut others, &mut own);
    ours.and(theirs)
}

// How many of the places are for so many of all workers.
fn part_for(some: usize, all: usize, places: usize) -> usize
    requires some { some ≤ all }
    requires one { 1 ≤ all }
    ensures { result ≤ places }
{
    (places.saturating_mul(some) / all).min(places)
}

// Runs with a tool are runs with any other of its kind.
fn tools_carry<C, T, P: Place<T, C>>()
    ensures { (t u : T) (x y : P) → P.like t u → P.ran u x y → P.ran t x y }
{}

// Kinds of tools don't overlap.
fn kinds_join<C, T, P: Place<T, C>>()
    ensures reflexive { (t : T) → P.like t t }
    ensures symmetric { (t u : T) → P.like t u → P.like u t }
    ensures transitive { (t u v : T) → P.like t u → P.like u v → P.like t v }
{}
