// The recovery of a crashed role. The cells that it doesn't concern run beside it.

ghost use Rattle.std.specs.Prelude.{◌≡◌, ◌⊎◌, ◌≤◌, ◌<◌, false, length, All, OnOk, OnErr};
ghost use Rattle.rcv_model.specs.Final.{IsCrashed};
ghost use Rattle.rcv_core.specs.Book.{state_of};
ghost use Rattle.rcv_cells.specs.Home.{AreHome, SameBases};
ghost use Rattle.rcv_cells.specs.Running.{AreWatched, IsLowered, MayRun, HalfHasRun};
ghost use Rattle.rcv_rollback.specs.Back.{CanGoBack, HaveGoneBack};
ghost use Rattle.rcv_super.specs.Super.{HasWatches};
ghost use Rattle.rcv_super.specs.Beside.{IsIdle, AreIdle, ArePartedBehind, HaveMerged};
ghost use Rattle.rcv_super.specs.Steps.{HasRecovered};
ghost use Rattle.rcv_super.specs.Rounds.{HasRecoveredBeside};
ghost use Rattle.rcv_super.specs.InOrder.{IsInOrder, StaysInOrder};

use crate::known::{concerned_by, know_all};
use rcv_cells::house::{Crew, House};
use rcv_cells::lanes::{clear_logs, half_round};
use rcv_cells::meet::meet_all;
use rcv_cells::merging::merge_logs;
use rcv_cells::push::push_all;
use rcv_core::book::Book;
use rcv_fence::Watch;
use rcv_gate::Gate;
use rcv_role::cell::Cell;
use rcv_rollback::back::go_back;
use rcv_rollback::halves::{Half, split, unite};
use rcv_tree::entry::Entry;
use rcv_tree::role::RoleId;
use std::alloc::AllocError;
use std::thread::{Threads, join_mut};

// Whether there is a cell at the place, and it isn't crashed.
fn may_run<'a>(place: &Option<Cell<'a>>) -> bool
    ensures { result ≡ false → IsIdle place.now }
{
    let Some(cell) = place else {
        return false;
    };
    // Tells the proof that a cell that stays goes on by nothing.
    cell.known();
    !cell.crashed()
}

// Whether there is one in the half.
fn some_may_run<'a>(half: &Half<'a>) -> bool
    ensures { result ≡ false → AreIdle half.now.items }
{
    for role in 0..half.len() {
        if may_run(&half[role]) {
            return true;
        }
    }
    false
}

// The cells of a half run. A watch can't be shared between threads, so the session's own is lent.
fn run_half<'a, G: Gate + Sync, R: Threads + Sync>(
    crew: &Crew<R, G>,
    half: &mut [Option<Cell<'a>>],
    watch: &mut Watch,
    watches: &mut [Watch],
)
    requires least { 1 ≤ length watches.old }
    requires most { length watches.old ≤ 8 }
    requires lowered { IsLowered watch.old }
    requires watched { AreWatched watch.old watches.old }
    requires ready { All MayRun half.old }
    ensures ran { HalfHasRun watch.old half.old half.new }
    ensures watch { watch.new ≡ watch.old }
    ensures watched { AreWatched watch.old watches.new }
    ensures count { length watches.new ≡ length watches.old }
{
    let _activity = half_round(crew, half, watch, watches);
}

// The cells of one half go back on this thread. Meanwhile those of the other half run on the other threads, each under
// one of the watches.
fn go_back_beside<'a, 'b, G: Gate + Sync, R: Threads + Sync>(
    crew: &Crew<R, G>,
    book: &Book<'a>,
    back: &mut Half<'a>,
    beside: &mut Half<'b>,
    watch: &mut Watch,
    watches: &mut [Watch],
    role: RoleId,
)
    requires least { 2 ≤ crew.now.workers }
    requires most { crew.now.workers ≤ 8 }
    requires enough { crew.now.workers ≤ length watches.old }
    requires lowered { IsLowered watch.old }
    requires watched { AreWatched watch.old watches.old }
    requires back { CanGoBack book.now back.old.items }
    requires ready { All MayRun beside.old.items }
    ensures back { HaveGoneBack book.now back.old.items back.new.items }
    ensures beside { HalfHasRun watch.old beside.old.items beside.new.items }
    ensures watch { watch.new ≡ watch.old }
    ensures watched { AreWatched watch.old watches.new }
    ensures count { length watches.new ≡ length watches.old }
{
    let (others, _) = watches.split_at_mut(crew.workers - 1);
    join_mut(
        crew.rt,
        &mut ||
            requires { (1 ≤ length others.now) × (length others.now ≤ 8) × IsLowered watch.now
                × AreWatched watch.now others.now × All MayRun beside.now.items }
            ensures { HalfHasRun watch.entry.now beside.entry.now.items beside.exit.now.items
                × (watch.exit.now ≡ watch.entry.now) × AreWatched watch.entry.now others.exit.now
                × (length others.exit.now ≡ length others.entry.now) }
        { run_half(crew, beside.as_mut_slice(), watch, others) },
        &mut ||
            requires { CanGoBack book.now back.now.items }
            ensures { HaveGoneBack book.entry.now back.entry.now.items back.exit.now.items }
        {
            crew.gate.recovering(role);
            go_back(book, back)
        },
    );
}

// After a recovery the cells meet and come home, and the book has the merged entries of those that ran. Fails if memory
// runs out; then none of these entries stands there.
fn hand_in<'a>(
    book: &mut Book<'a>,
    lanes: &mut [Cell<'a>],
    merged: &mut Vec<Entry>,
    watch: &Watch,
    dear: bool,
) -> Result<(), AllocError>
    requires { ArePartedBehind watch.now book.old lanes.old }
    ensures count { length lanes.new ≡ length lanes.old }
    ensures home { OnOk result (AreHome book.new lanes.new) }
    ensures bases { OnOk result (SameBases lanes.old lanes.new) }
    ensures merged { OnOk result (HaveMerged book.old book.new lanes.old) }
    ensures same { OnErr result (book.new ≡ book.old) }
{
    // Tells the proof that the journal is legal, and the protocol accepted.
    let _entries = book.entries();
    let _protocol = book.setup().protocol();
    meet_all(lanes);
    merge_logs(lanes, merged)?;
    push_all(book, merged.as_slice(), lanes, dear);
    clear_logs(lanes);
    Ok(())
}

/// With the fence lowered, recovers a crashed role on one thread, while the cells that aren't concerned and aren't
/// crashed run on the others. If there are no such cells, no thread is started. The Recover goes into the book, and
/// after it the merged entries of those that ran. Fails if memory runs out; then the book is as it was or has the
/// Recover alone, and the cells aren't at home.
pub fn recover_beside<'a, G: Gate + Sync, R: Threads + Sync>(
    crew: &Crew<R, G>,
    house: &mut House<'a>,
    role: RoleId,
) -> Result<(), AllocError>
    requires workers { (2 ≤ crew.now.workers) × (crew.now.workers ≤ 8) }
    requires order { IsInOrder house.old }
    requires crashed { IsCrashed (state_of house.old.book) role }
    ensures order { OnOk result (StaysInOrder house.old house.new) }
    ensures recovered { OnOk result (HasRecoveredBeside house.old.book house.new.book role) }
    ensures failed { OnErr result ((house.new.book ≡ house.old.book)
        ⊎ HasRecovered house.old.book house.new.book role) }
    ensures watched { HasWatches house.new.watch house.new.watches.items }
{
    // Tells the proof that the journal is legal, the protocol accepted and its plan in range, and the states held.
    let _entries = house.book.entries();
    let _roles = house.book.setup().roles();
    know_all(&house.lanes);
    house.watch.lower();
    let entry = house.book.recovery(role)?;
    let concerned = concerned_by(&entry);
    let (mut back, mut beside) = split(crew.alloc, &mut house.lanes, concerned)?;
    // The room is there, so it succeeds.
    let _reserved = house.book.push(entry);
    part(crew, house, &mut back, &mut beside, role);
    unite(&mut house.lanes, &mut back, &mut beside, concerned);
    hand_in(
        &mut house.book,
        house.lanes.as_mut_slice(),
        &mut house.merged,
        &house.watch,
        house.dear,
    )
}

// The concerned cells go back, and the others run beside them, if they may.
fn part<'a, G: Gate + Sync, R: Threads + Sync>(
    crew: &Crew<R, G>,
    house: &mut House<'a>,
    back: &mut Half<'a>,
    beside: &mut Half<'a>,
    role: RoleId,
)
    requires least { 2 ≤ crew.now.workers }
    requires most { crew.now.workers ≤ 8 }
    requires lowered { IsLowered house.old.watch }
    requires watched { HasWatches house.old.watch house.old.watches.items }
    requires back { CanGoBack house.old.book back.old.items }
    requires ready { All MayRun beside.old.items }
    ensures back { HaveGoneBack house.old.book back.old.items back.new.items }
    ensures beside { HalfHasRun house.old.watch beside.old.items beside.new.items }
    ensures book { house.new.book ≡ house.old.book }
    ensures lanes { house.new.lanes ≡ house.old.lanes }
    ensures watch { house.new.watch ≡ house.old.watch }
    ensures watched { HasWatches house.new.watch house.new.watches.items }
{
    if !some_may_run(beside) {
        crew.gate.recovering(role);
        go_back(&house.book, back);
        return;
    }
    go_back_beside(
        crew,
        &house.book,
        back,
        beside,
        &mut house.watch,
        house.watches.as_mut_slice(),
        role,
    );
}
