// Items on workers: each goes through its own, one after another, and hands some of them to one that is idle.

ghost use Rattle.std.specs.Prelude.{◌≡◌, ◌<◌, ◌≤◌, true, false, length, IfSome, IfNone};
ghost use Rattle.std.specs.Thread.{IsSync};
ghost use denote.Param.Send.{IsSend};
ghost use Rattle.rcv_many.specs.Turns.{IsOver, AreDone};

use crate::hands::Hands;
use crate::turns::{Step, Turns};
use std::thread::{Threads, join_mut};

// How many turns of an item a worker makes between two looks for idle workers.
const TURNS: u32 = 64;

/// Makes turns of each item, with what the caller lends to them, until it has ended or stopped. At most so many threads
/// do this at a time, from 1 to 8, and the call joins them.
///
/// One thread at a time makes an item's turns, one after another. A worker goes on with its item until that is over, so
/// no more items are begun and not over at one time than there are workers. Before it begins one, and after each 64
/// turns, it looks for an idle worker, and hands it a part of the items that it hasn't begun. So no worker is idle for
/// longer than that, as long as one has an item that it hasn't begun. It takes no memory, and waits for nothing but the
/// threads that it has started.
pub fn run_all<R: Threads + Sync, C: Sync, T: Turns<C> + Send>(
    rt: &R,
    with: &C,
    items: &mut [T],
    workers: u32,
)
    requires least { 1 ≤ workers }
    requires most { workers ≤ 8 }
    ensures { AreDone T.ended T.stopped T.goes items.old items.new }
{
    let hands = Hands::new(workers - 1);
    work(rt, with, &hands, items);
}

// A worker goes through its items, one after another, and has nothing to do from then on. If workers were found idle,
// it shares those that are left with one of them, and both go on so.
#[cycle(workers)]
fn work<R: Threads + Sync, C: Sync, T: Turns<C> + Send>(
    rt: &R,
    with: &C,
    hands: &Hands,
    items: &mut [T],
)
    ensures { AreDone T.ended T.stopped T.goes items.old items.new }
{
    // Tells the proof that turns after turns are turns.
    turns_join::<C, T>();
    for next in 0..items.len() {
        let others = items.len() - next > 1;
        if let Some(idle) = run_one(with, hands, &mut items[next], others) {
            let (_, rest) = items.split_at_mut(next);
            return share(rt, with, hands, rest, idle);
        }
    }
    hands.give();
}

// If so many workers were idle, one takes an equal part of the items, the last ones, and this one the others.
#[cycle(workers)]
fn share<R: Threads + Sync, C: Sync, T: Turns<C> + Send>(
    rt: &R,
    with: &C,
    hands: &Hands,
    items: &mut [T],
    idle: usize,
)
    requires two { 2 ≤ length items.old }
    requires least { 1 ≤ idle }
    requires most { idle ≤ 7 }
    ensures { AreDone T.ended T.stopped T.goes items.old items.new }
{
    let part = (items.len() / (idle + 1)).max(1);
    let (mine, theirs) = items.split_at_mut(items.len() - part);
    let mut back = ||
        requires { IsSync R.row × IsSync C.row × IsSend T.row }
        ensures { AreDone T.ended T.stopped T.goes theirs.entry.now theirs.exit.now }
    { work(rt, with, hands, theirs) };
    let mut front = ||
        requires { IsSync R.row × IsSync C.row × IsSend T.row }
        ensures { AreDone T.ended T.stopped T.goes mine.entry.now mine.exit.now }
    { work(rt, with, hands, mine) };
    // The new thread has what isn't begun. If none can be made, that comes last.
    join_mut(rt, &mut back, &mut front);
}

// Makes turns of an item until it is over, or until workers were found idle who may take others. Says how many these
// were.
fn run_one<C, T: Turns<C>>(with: &C, hands: &Hands, item: &mut T, others: bool) -> Option<usize>
    ensures goes { T.goes item.old item.new }
    ensures over { IfNone result (IsOver T.ended T.stopped item.new) }
    ensures others { IfSome result (λ idle. (others ≡ true) × (1 ≤ idle) × (idle ≤ 7)) }
{
    loop {
        if others && let Some(idle) = hands.take() {
            return Some(idle);
        }
        if run_some(with, item) {
            return None;
        }
    }
}

// Makes some turns of an item, and says whether it is over.
fn run_some<C, T: Turns<C>>(with: &C, item: &mut T) -> bool
    ensures goes { T.goes item.old item.new }
    ensures over { result ≡ true → IsOver T.ended T.stopped item.new }
    ensures fewer { result ≡ false → T.left item.new < T.left item.old }
{
    for _ in 0..TURNS {
        match item.turn(with) {
            Step::More => {}
            Step::Ended => return true,
            Step::Stopped => return true,
        }
    }
    false
}

// Turns after turns are turns.
fn turns_join<C, T: Turns<C>>()
    ensures { (x y z : T) → T.goes x y → T.goes y z → T.goes x z }
{}
