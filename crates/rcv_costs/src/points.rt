// The points of the events that a role makes if nobody crashes.

ghost use Rattle.std.specs.Prelude.{◌≡◌, ◌<◌, ◌≤◌, length, map, IfOk};
ghost use Rattle.rcv_model.specs.Journal.{events_of};
ghost use Rattle.rcv_session.specs.Session.{roles_of};
ghost use Rattle.rcv_core.specs.Book.{state_of};
ghost use Rattle.rcv_costs.specs.Rehearsal.{DiffersInCrashes};
ghost use Rattle.rcv_costs.specs.Costs.{AreOwnPoints, points_of};

use crate::rehearsal::{crash_once, run_to_recovery};
use rcv_core::book::Book;
use rcv_core::setup::Setup;
use rcv_tree::point::Point;
use rcv_tree::role::RoleId;
use std::alloc::{AllocError, Global};

// No role makes more events than this: a crash at this count changes nothing of what the role does before.
const MOST: u32 = 100_000;

// The points of a declared role's kept events, in order.
fn kept_points(alloc: Global, book: &Book<'_>, role: RoleId) -> Result<Vec<Point>, AllocError>
    requires { role < roles_of book.now.setup }
    ensures { IfOk result (λ points. points.items ≡ points_of role (state_of book.now).kept) }
{
    let mut points = Vec::new(alloc);
    for number in 0..book.kept(role) {
        points.push(book.event(role, number).point)?;
    }
    Ok(points)
}

/// The points of the events that a declared role makes if nobody crashes, in order: at most 100,000. The setup gets a
/// plan in which this role alone crashes. Fails if memory runs out.
pub fn own_points(alloc: Global, setup: &mut Setup, role: RoleId) -> Result<Vec<Point>, AllocError>
    requires { role < roles_of setup.old }
    ensures points { IfOk result (λ points. AreOwnPoints setup.old role points.items) }
    ensures few { IfOk result (λ points. length points.items ≤ 100000) }
    ensures setup { DiffersInCrashes setup.old setup.new }
{
    crash_once(alloc, setup, role, MOST)?;
    // Tells the proof that the protocol is accepted.
    let _roles = setup.roles();
    let mut book = Book::new(alloc, setup)?;
    let _recovery = run_to_recovery(&mut book);
    // Tells the proof that the journal is legal.
    let _entries = book.entries();
    let points = kept_points(alloc, &book, role)?;
    Ok(points)
}
