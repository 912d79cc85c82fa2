// Which counts are looked at: each, or every so many of them.

ghost use Rattle.std.specs.Prelude.{◌≡◌, ◌≤◌, length};
ghost use Rattle.rcv_costs.specs.Sampling.{AreShort, all_counts, step_for};

use rcv_tree::point::Point;

// So many counts are looked at, each of them.
const MOST: u64 = 2_000;

/// Every how many counts are looked at, if at most eight roles make the events at these points, at most 100,000 each.
pub fn step_of(points: &[Vec<Point>]) -> u32
    requires few { length points.now ≤ 8 }
    requires short { AreShort points.now }
    ensures value { result ≡ step_for (all_counts points.now) }
    ensures first { 1 ≤ result }
{
    let mut all = 0;
    for of_role in points {
        all += of_role.len() as u64 + 1;
    }
    (all.saturating_sub(1) / MOST + 1) as u32
}
