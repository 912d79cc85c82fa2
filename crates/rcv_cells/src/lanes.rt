// The cells of a session on threads.

ghost use Rattle.std.specs.Prelude.{◌≡◌, ◌+◌, ◌<◌, ◌≤◌, ℕ, length, All};
ghost use Rattle.rcv_role.specs.Cell.{CellView, without_log};
ghost use Rattle.rcv_cells.specs.Home.{cell_at, IsReady, AllGo};
ghost use Rattle.rcv_cells.specs.Running.{MayRun, AreWatched, IsLowered, Runs, HaveRun, HalfHasRun};

use crate::house::Crew;
use rcv_fence::Watch;
use rcv_gate::Gate;
use rcv_passes::activity::Activity;
use rcv_passes::place::{Pace, Place};
use rcv_passes::run_round;
use rcv_role::cell::Cell;
use rcv_role::poll::Stop;
use std::thread::Threads;

// How many steps a cell makes in one round at most, so that it hears of the fence and the other roles in between.
const ROUND_STEPS: usize = 1_024;

// How many steps a cell makes in one run at most: the others of its worker wait meanwhile.
const RUN_STEPS: u32 = 2;

/// Runs a cell for a few steps, unless it is crashed or has made as many as it may in one round. It is over, too, if it
/// has then made at least so many steps in this round.
pub fn run_cell<'a, G: Gate>(cell: &mut Cell<'a>, watch: &mut Watch, gate: &G, steps: u32) -> Pace
    requires { IsReady cell.old }
    ensures ready { IsReady cell.new }
    ensures ran { Runs watch.old.fence cell.old cell.new }
    ensures fence { watch.new.fence ≡ watch.old.fence }
{
    // Tells the proof that a cell that stays goes on by nothing.
    cell.known();
    if cell.crashed() {
        return Pace::Over;
    }
    let logged = cell.log().len();
    if logged >= ROUND_STEPS {
        return Pace::Over;
    }
    let stop = cell.run(watch, gate, turns_behind(logged));
    let now = cell.log().len();
    pace_of(stop, now > logged, now >= steps as usize)
}

// How many steps the next run of a cell with so many logged makes at most.
fn turns_behind(logged: usize) -> u32
    requires { logged < ROUND_STEPS }
    ensures some { 1 ≤ result }
    ensures room { logged + result ≤ ROUND_STEPS }
{
    RUN_STEPS.min((ROUND_STEPS - logged) as u32)
}

// What a run came to, by why it ended, whether it made steps, and whether the cell has made enough of them.
fn pace_of(stop: Stop, moved: bool, enough: bool) -> Pace {
    match stop {
        Stop::Done | Stop::Crashed | Stop::Tired | Stop::Fenced => Pace::Over,
        Stop::Spent | Stop::Waiting if enough => Pace::Over,
        Stop::Spent => Pace::Moved,
        Stop::Waiting if moved => Pace::Moved,
        Stop::Waiting => Pace::Waits,
    }
}

impl<'a, 'c, R, G: Gate> Place<Watch, Crew<'c, R, G>> for Cell<'a> {
    ghost use Rattle.std.proofs.Common.{◌≡◌, refl, sym, ◌∙◌, subst};
    ghost use Rattle.rcv_cells.specs.Home.{IsReady};
    ghost use Rattle.rcv_cells.specs.Running.{Runs, more_runs};

    ghost ready = { IsReady };

    ghost like = { λ watch other. other.fence ≡ watch.fence };

    ghost ran = { λ watch old new. Runs watch.fence old new };

    fn run(&mut self, tool: &mut Watch, with: &Crew<'c, R, G>) -> Pace {
        run_cell(self, tool, with.gate, with.steps)
    }

    ghost reflexive = { λ watch. refl };

    ghost symmetric = { λ watch other same. sym same };

    ghost transitive = { λ watch other third same then. then ∙ same };

    ghost joins = { λ watch old now new. more_runs };

    ghost carries = { λ watch other old new same ran. subst (λ f. Runs f old new) same ran };
}

impl<'a, 'c, R, G: Gate> Place<Watch, Crew<'c, R, G>> for Option<Cell<'a>> {
    ghost use Rattle.std.proofs.Common.{◌≡◌, refl, sym, ◌∙◌, subst};
    ghost use Rattle.rcv_cells.specs.Running.{MayRun, RanAt, more_runs_at};

    ghost ready = { MayRun };

    ghost like = { λ watch other. other.fence ≡ watch.fence };

    ghost ran = { λ watch old new. RanAt watch.fence old new };

    fn run(&mut self, tool: &mut Watch, with: &Crew<'c, R, G>) -> Pace {
        match self {
            None => Pace::Over,
            Some(cell) => run_cell(cell, tool, with.gate, with.steps),
        }
    }

    ghost reflexive = { λ watch. refl };

    ghost symmetric = { λ watch other same. sym same };

    ghost transitive = { λ watch other third same then. then ∙ same };

    ghost joins = { λ watch. more_runs_at watch.fence };

    ghost carries = { λ watch other old new same ran. subst (λ f. RanAt f old new) same ran };
}

/// The session's watch has lowered the fence. Runs each cell that isn't crashed, again and again, until it has made as
/// many steps as it shall in one round or nobody can go on. It uses as many threads as there are watches, from 1 to 8,
/// and joins these. It takes no memory.
pub fn round<'a, G: Gate + Sync, R: Threads + Sync>(
    crew: &Crew<R, G>,
    lanes: &mut [Cell<'a>],
    watch: &Watch,
    watches: &mut [Watch],
) -> Activity
    requires least { 1 ≤ length watches.old }
    requires most { length watches.old ≤ 8 }
    requires lowered { IsLowered watch.now }
    requires watched { AreWatched watch.now watches.old }
    requires ready { All IsReady lanes.old }
    ensures ran { HaveRun watch.now lanes.old lanes.new }
    ensures go { AllGo lanes.old lanes.new }
    ensures watched { AreWatched watch.now watches.new }
    ensures count { length watches.new ≡ length watches.old }
{
    run_round(crew.rt, crew, lanes, watches)
}

/// The same for the cells of a half, at their places.
pub fn half_round<'a, G: Gate + Sync, R: Threads + Sync>(
    crew: &Crew<R, G>,
    half: &mut [Option<Cell<'a>>],
    watch: &Watch,
    watches: &mut [Watch],
) -> Activity
    requires least { 1 ≤ length watches.old }
    requires most { length watches.old ≤ 8 }
    requires lowered { IsLowered watch.now }
    requires watched { AreWatched watch.now watches.old }
    requires ready { All MayRun half.old }
    ensures ran { HalfHasRun watch.now half.old half.new }
    ensures watched { AreWatched watch.now watches.new }
    ensures count { length watches.new ≡ length watches.old }
{
    run_round(crew.rt, crew, half, watches)
}

/// Clears all logs.
pub fn clear_logs(lanes: &mut [Cell])
    ensures count { length lanes.new ≡ length lanes.old }
    ensures cleared { (r : ℕ) (d : CellView) → r < length lanes.old
        → cell_at lanes.new r d ≡ without_log (cell_at lanes.old r d) }
{
    for role in 0..lanes.len() {
        lanes[role].clear_log();
    }
}
