// A turn of several workers: a round, or a recovery with what runs beside it.

ghost use Rattle.std.specs.Prelude.{◌≡◌, ◌≤◌, OnOk, OnErr};
ghost use Rattle.rcv_model.specs.Final.{IsCrashed};
ghost use Rattle.rcv_session.specs.Session.{roles_of};
ghost use Rattle.rcv_core.specs.Book.{state_of, IsAtEnd, HasMore};
ghost use Rattle.rcv_cells.specs.Home.{AreHome, HaveBases};
ghost use Rattle.rcv_super.specs.Super.{Stands};
ghost use Rattle.rcv_super.specs.Bases.{IsStableIn};
ghost use Rattle.rcv_super.specs.Steps.{HasRecovered};
ghost use Rattle.rcv_super.specs.Rounds.{HasGoneRound};
ghost use Rattle.rcv_super.specs.InOrder.{CanTurn, IsInOrder, IsInOrderAt, StaysInOrder, HasMadeTurn, HasFailed};

use crate::alone::bring_home;
use crate::beside::recover_beside;
use crate::recovery::recover_alone;
use crate::sharing::Sharing;
use crate::step::make_step;
use crate::whereabouts::Whereabouts;
use rcv_cells::house::{Crew, House};
use rcv_cells::round::make_round;
use rcv_gate::Gate;
use rcv_tree::role::RoleId;
use std::alloc::{AllocError, Global};
use std::thread::Threads;

/// A turn of a crew, from where the cells stand. After it they are at home. They have forgotten the states before the
/// line, and no others. Fails if memory runs out; then the cells aren't at home.
pub fn go<'a, G: Gate + Sync, R: Threads + Sync>(
    crew: &Crew<R, G>,
    house: &mut House<'a>,
    sharing: &mut Sharing,
    at: Whereabouts,
    line: &[u32; 8],
) -> Result<(), AllocError>
    requires workers { (1 ≤ crew.now.workers) × (crew.now.workers ≤ 8) }
    requires can { CanTurn at line.now house.old }
    ensures order { OnOk result (IsInOrderAt line.now house.new) }
    ensures turned { OnOk result (HasMadeTurn crew.now.workers house.old.book house.new.book) }
    ensures failed { OnErr result (HasFailed crew.now.workers house.old.book house.new.book) }
{
    bring_home(crew.alloc, &mut house.book, &mut house.lanes, at, line)?;
    if crew.workers == 1 {
        return make_step(crew.alloc, &mut house.book, &mut house.lanes, crew.gate);
    }
    go_on(crew, house, sharing)
}

/// The recovery of a crashed role, with nobody running beside it. After it the cells are at home. Fails if memory runs
/// out; then the book is as it was, and the cells aren't at home.
pub fn recover_home<'a>(
    alloc: Global,
    house: &mut House<'a>,
    at: Whereabouts,
    line: &[u32; 8],
    role: RoleId,
) -> Result<(), AllocError>
    requires stands { Stands at house.old.book line.now house.old.lanes.items }
    requires left { IsAtEnd house.old.book → ⊥ }
    requires stable { IsStableIn house.old.book line.now }
    requires crashed { IsCrashed (state_of house.old.book) role }
    ensures home { OnOk result (AreHome house.new.book house.new.lanes.items) }
    ensures bases { OnOk result (HaveBases (roles_of house.new.book.setup) line.now house.new.lanes.items) }
    ensures recovered { OnOk result (HasRecovered house.old.book house.new.book role) }
    ensures same { OnErr result (house.new.book ≡ house.old.book) }
    ensures watch { house.new.watch ≡ house.old.watch }
    ensures watches { house.new.watches.items ≡ house.old.watches.items }
{
    bring_home(alloc, &mut house.book, &mut house.lanes, at, line)?;
    recover_alone(alloc, &mut house.book, &mut house.lanes, role)
}

// If a role is crashed, the least such role recovers, and the cells that aren't concerned run beside it. If none is,
// all cells run; if that added nothing, the next step of the one-thread order is made.
fn go_on<'a, G: Gate + Sync, R: Threads + Sync>(
    crew: &Crew<R, G>,
    house: &mut House<'a>,
    sharing: &mut Sharing,
) -> Result<(), AllocError>
    requires workers { (2 ≤ crew.now.workers) × (crew.now.workers ≤ 8) }
    requires order { IsInOrder house.old }
    requires more { HasMore house.old.book }
    ensures order { OnOk result (StaysInOrder house.old house.new) }
    ensures turned { OnOk result (HasMadeTurn crew.now.workers house.old.book house.new.book) }
    ensures failed { OnErr result (HasFailed crew.now.workers house.old.book house.new.book) }
{
    match house.book.first_crashed() {
        Some(role) => recover_beside(crew, house, role),
        None => round_or_step(crew, house, sharing),
    }
}

fn round_or_step<'a, G: Gate + Sync, R: Threads + Sync>(
    crew: &Crew<R, G>,
    house: &mut House<'a>,
    sharing: &mut Sharing,
) -> Result<(), AllocError>
    requires workers { (2 ≤ crew.now.workers) × (crew.now.workers ≤ 8) }
    requires order { IsInOrder house.old }
    requires more { HasMore house.old.book }
    ensures order { OnOk result (StaysInOrder house.old house.new) }
    ensures round { OnOk result (HasGoneRound house.old.book house.new.book) }
    ensures same { OnErr result (house.new.book ≡ house.old.book) }
{
    let before = house.book.len();
    let here = Crew {
        rt: crew.rt,
        alloc: crew.alloc,
        workers: sharing.workers(crew.workers),
        gate: crew.gate,
        steps: crew.steps,
    };
    let activity = make_round(&here, house)?;
    // Tells the proof that the journal is legal, and the protocol accepted.
    let _entries = house.book.entries();
    let _protocol = house.book.setup().protocol();
    sharing.count(house.book.len().saturating_sub(before), activity);
    if house.book.len() > before {
        return Ok(());
    }
    make_step(crew.alloc, &mut house.book, &mut house.lanes, crew.gate)
}
