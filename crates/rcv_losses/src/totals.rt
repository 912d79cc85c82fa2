// What the costs of a role come to, and which is the worst.

ghost use Rattle.std.specs.Prelude.{◌≡◌, ◌<◌, ◌^◌, length};
ghost use Rattle.rcv_losses.specs.Totals.{costs_by, undone_in_all, kept_in_all, worse, worst_of};

use rcv_costs::Cost;
use rcv_tree::role::RoleId;

/// How many events the crashes of a role undo in all, each of them by itself.
pub fn undone_by(costs: &[Cost], role: RoleId) -> u64
    requires { length costs.now < 2 ^ 32 }
    ensures { result ≡ undone_in_all (costs_by role costs.now) }
{
    let mut undone = 0;
    for cost in costs {
        if cost.role == role {
            undone += cost.undone as u64;
        }
    }
    undone
}

/// How many events would be undone in all if after each crash of a role everybody were restarted: all events that are kept
/// then. At most 2^64 - 1: a greater number stands for that.
pub fn kept_by(costs: &[Cost], role: RoleId) -> u64
    ensures { result ≡ kept_in_all (costs_by role costs.now) }
{
    let mut kept = 0u64;
    for cost in costs {
        if cost.role == role {
            kept = kept.saturating_add(cost.kept);
        }
    }
    kept
}

// The worse one of two costs: the first of those that undo as many events.
fn worse(best: Option<Cost>, cost: Cost) -> Option<Cost>
    ensures { result ≡ worse best cost }
{
    match best {
        None => Some(cost),
        Some(best) if best.undone < cost.undone => Some(cost),
        Some(best) => Some(best),
    }
}

/// The worst of some costs: the first of those that undo the most events.
pub fn worst_of(costs: &[Cost]) -> Option<Cost>
    ensures { result ≡ worst_of costs.now }
{
    let mut worst = None;
    for cost in costs {
        worst = worse(worst, *cost);
    }
    worst
}

/// The worst of a role's crashes.
pub fn worst_by(costs: &[Cost], role: RoleId) -> Option<Cost>
    ensures { result ≡ worst_of (costs_by role costs.now) }
{
    let mut worst = None;
    for cost in costs {
        if cost.role == role {
            worst = worse(worst, *cost);
        }
    }
    worst
}
