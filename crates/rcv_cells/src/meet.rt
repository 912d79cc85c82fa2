// The ends of all channels learn what the other ends did.

ghost use Rattle.std.specs.Prelude.{◌≡◌, ◌<◌, ℕ, length};
ghost use Rattle.rcv_role.specs.Cell.{CellView};
ghost use Rattle.rcv_cells.specs.Home.{cell_at, AllMet, HavePaired, AllCanMeet, HasBegun, AllBegun};

use crate::two::{Together, two_together};
use rcv_role::cell::Cell;

// What two cells do: one meets the other as its sender, and each learns what the other did.
struct Meeting;

impl<'a> Together<Meeting> for Cell<'a> {
    ghost use Rattle.rcv_cells.specs.Home.{CanMeet, HaveTold};

    ghost can = { λ _. CanMeet };

    ghost done = { λ _ receiver receiver_now sender sender_now. HaveTold receiver receiver_now sender sender_now };

    fn act(&mut self, other: &mut Cell<'a>, _with: &Meeting) {
        let _held = self.meet_from(other);
    }
}

/// One cell meets another one as its sender: each learns what the other did.
pub fn meet_pair<'a>(lanes: &mut [Cell<'a>], from: usize, to: usize)
    requires from { from < length lanes.old }
    requires to { to < length lanes.old }
    requires apart { from ≡ to → ⊥ }
    requires pairs { AllCanMeet lanes.old }
    ensures met { AllMet lanes.old lanes.new }
    ensures paired { HavePaired lanes.old lanes.new from to }
    ensures begun { (d : CellView) → HasBegun (cell_at lanes.old to d) (cell_at lanes.old from d) }
{
    two_together(lanes, to, from, &Meeting);
}

// One cell meets each other one as their sender.
fn meet_from<'a>(lanes: &mut [Cell<'a>], from: usize)
    requires from { from < length lanes.old }
    requires pairs { AllCanMeet lanes.old }
    ensures met { AllMet lanes.old lanes.new }
    ensures begun { (r : ℕ) (d : CellView) → r < length lanes.old → (from ≡ r → ⊥)
        → HasBegun (cell_at lanes.old r d) (cell_at lanes.old from d) }
{
    for to in 0..lanes.len() {
        if to != from {
            meet_pair(lanes, from, to);
        }
    }
}

/// Each cell meets each other one.
pub fn meet_all<'a>(lanes: &mut [Cell<'a>])
    requires { AllCanMeet lanes.old }
    ensures met { AllMet lanes.old lanes.new }
    ensures begun { AllBegun lanes.old }
{
    for from in 0..lanes.len() {
        meet_from(lanes, from);
    }
}
