// The logs of all cells in one list.

ghost use Rattle.std.specs.Prelude.{◌≤◌, length, All, OnOk};
ghost use Rattle.rcv_theory.specs.Round.{NeverFalls};
ghost use Rattle.rcv_merge.specs.Merge.{IsMergeOf};
ghost use Rattle.rcv_cells.specs.Home.{logs_in};

use rcv_merge::merge_round;
use rcv_role::cell::Cell;
use rcv_tree::entry::{Entry, Timed};
use std::alloc::AllocError;

/// Puts the merged entries of the logs of these cells, at most eight, into a list, instead of what is in it. Fails if
/// memory runs out.
pub fn merge_logs(lanes: &[Cell], merged: &mut Vec<Entry>) -> Result<(), AllocError>
    requires few { length lanes.now ≤ 8 }
    requires rise { All NeverFalls (logs_in lanes.now) }
    ensures { OnOk result (IsMergeOf (logs_in lanes.now) merged.new.items) }
{
    let mut logs: [&[Timed]; 8] = [&[]; 8];
    for role in 0..lanes.len() {
        logs[role] = lanes[role].log();
    }
    merge_round(&logs[..lanes.len()], merged)
}
