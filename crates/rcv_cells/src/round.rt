// A round with the book.

ghost use Rattle.std.specs.Prelude.{◌≡◌, ◌≤◌, length, All, OnOk, OnErr};
ghost use Rattle.rcv_fence.specs.Shown.{with_raised};
ghost use Rattle.rcv_cells.specs.Home.{AreHome, IsReady, AllGo, HasGrown, SameBases};
ghost use Rattle.rcv_cells.specs.Running.{AreWatched, IsLowered, HaveRun, HasMadeRound};

use crate::house::{Crew, House};
use crate::lanes::{clear_logs, round};
use crate::meet::meet_all;
use crate::merging::merge_logs;
use crate::push::push_all;
use rcv_core::book::Book;
use rcv_fence::Watch;
use rcv_gate::Gate;
use rcv_passes::activity::Activity;
use rcv_role::cell::Cell;
use rcv_tree::entry::Entry;
use std::alloc::AllocError;
use std::thread::Threads;

// The cells run on the crew's workers, for each of which there is a watch.
fn go_out<'a, G: Gate + Sync, R: Threads + Sync>(
    crew: &Crew<R, G>,
    lanes: &mut [Cell<'a>],
    watch: &Watch,
    watches: &mut [Watch],
) -> Activity
    requires least { 1 ≤ crew.now.workers }
    requires most { crew.now.workers ≤ 8 }
    requires enough { crew.now.workers ≤ length watches.old }
    requires lowered { IsLowered watch.now }
    requires watched { AreWatched watch.now watches.old }
    requires ready { All IsReady lanes.old }
    ensures ran { HaveRun watch.now lanes.old lanes.new }
    ensures go { AllGo lanes.old lanes.new }
    ensures watched { AreWatched watch.now watches.new }
    ensures count { length watches.new ≡ length watches.old }
{
    let (mine, _) = watches.split_at_mut(crew.workers);
    round(crew, lanes, watch, mine)
}

// The cells go out under watches of a lowered fence, meet, and come home with their entries in the book.
fn go_and_return<'a, G: Gate + Sync, R: Threads + Sync>(
    crew: &Crew<R, G>,
    book: &mut Book<'a>,
    lanes: &mut [Cell<'a>],
    watch: &Watch,
    watches: &mut [Watch],
    merged: &mut Vec<Entry>,
    dear: bool,
) -> Result<Activity, AllocError>
    requires least { 1 ≤ crew.now.workers }
    requires most { crew.now.workers ≤ 8 }
    requires enough { crew.now.workers ≤ length watches.old }
    requires lowered { IsLowered watch.now }
    requires watched { AreWatched watch.now watches.old }
    requires home { AreHome book.old lanes.old }
    ensures home { OnOk result (AreHome book.new lanes.new) }
    ensures made { OnOk result (HasMadeRound watch.now book.old book.new lanes.old) }
    ensures grown { HasGrown book.old book.new }
    ensures same { OnErr result (book.new ≡ book.old) }
    ensures bases { OnOk result (SameBases lanes.old lanes.new) }
    ensures watched { AreWatched watch.now watches.new }
    ensures watches { length watches.new ≡ length watches.old }
{
    // Tells the proof that the journal is legal, and the protocol accepted.
    let _entries = book.entries();
    let _protocol = book.setup().protocol();
    let activity = go_out(crew, lanes, watch, watches);
    meet_all(lanes);
    merge_logs(lanes, merged)?;
    push_all(book, merged.as_slice(), lanes, dear);
    clear_logs(lanes);
    Ok(activity)
}

/// With the fence lowered, the cells go out on the crew's workers, meet, and come home with their entries in the book.
/// The answer says how much they moved side by side. Fails if memory runs out: then the book is as it was, and the
/// cells aren't at home.
pub fn make_round<'a, G: Gate + Sync, R: Threads + Sync>(
    crew: &Crew<R, G>,
    house: &mut House<'a>,
) -> Result<Activity, AllocError>
    requires least { 1 ≤ crew.now.workers }
    requires most { crew.now.workers ≤ 8 }
    requires watches { crew.now.workers ≤ length house.old.watches.items }
    requires watched { AreWatched house.old.watch house.old.watches.items }
    requires home { AreHome house.old.book house.old.lanes.items }
    ensures home { OnOk result (AreHome house.new.book house.new.lanes.items) }
    ensures made { OnOk result (HasMadeRound (with_raised house.old.watch 0) house.old.book house.new.book
        house.old.lanes.items) }
    ensures grown { HasGrown house.old.book house.new.book }
    ensures same { OnErr result (house.new.book ≡ house.old.book) }
    ensures bases { OnOk result (SameBases house.old.lanes.items house.new.lanes.items) }
    ensures lowered { house.new.watch ≡ with_raised house.old.watch 0 }
    ensures watched { AreWatched house.new.watch house.new.watches.items }
    ensures watches { length house.new.watches.items ≡ length house.old.watches.items }
    ensures dear { house.new.dear ≡ house.old.dear }
{
    house.watch.lower();
    go_and_return(
        crew,
        &mut house.book,
        house.lanes.as_mut_slice(),
        &house.watch,
        house.watches.as_mut_slice(),
        &mut house.merged,
        house.dear,
    )
}
