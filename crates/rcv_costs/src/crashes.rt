// The costs of all crashes of a session, one after another.

ghost use Rattle.std.specs.Prelude.{◌≡◌, ◌<◌, ◌≤◌, length, slice_get, IfOk, OnOk};
ghost use Rattle.rcv_session.specs.Session.{roles_of};
ghost use Rattle.rcv_costs.specs.Rehearsal.{crash_session, DiffersInCrashes};
ghost use Rattle.rcv_costs.specs.Costs.{AreOwnPoints, AreAllPoints, point_before, at, IsCostBy, HasCosts, AreCosts};

use crate::losses::{again, lost, received};
use crate::numbers::{Cost, Costs};
use crate::points::own_points;
use crate::rehearsal::{crash_once, run_to_recovery};
use crate::sampling::step_of;
use rcv_core::book::Book;
use rcv_core::setup::Setup;
use rcv_tree::entry::Entry;
use rcv_tree::point::Point;
use rcv_tree::role::RoleId;
use std::alloc::{AllocError, Global};

// The point of the last of so many events; none if there are none.
fn point_before(points: &[Point], count: u32) -> Option<Point>
    ensures { result ≡ point_before points.now count }
{
    if count == 0 {
        return None;
    }
    points.get(count as usize - 1).copied()
}

// The point of the event after so many; none if there are no more.
fn point_after(points: &[Point], count: u32) -> Option<Point>
    ensures { result ≡ slice_get points.now count }
{
    points.get(count as usize).copied()
}

// What the one crash costs that the setup's plan has: that of this role, after so many of the events at these points.
fn cost_now(
    alloc: Global,
    setup: &Setup,
    role: RoleId,
    count: u32,
    points: &[Point],
) -> Result<Cost, AllocError>
    requires declared { role < roles_of setup.now }
    requires crash { setup.now ≡ crash_session setup.now role count }
    requires points { AreOwnPoints setup.now role points.now }
    requires count { count ≤ length points.now }
    ensures at { IfOk result (λ cost. at cost ≡ record { role = role; count = count }) }
    ensures cost { IfOk result (IsCostBy setup.now points.now) }
{
    // Tells the proof that the protocol is accepted.
    let _roles = setup.roles();
    let mut book = Book::new(alloc, setup)?;
    let Some(entry) = run_to_recovery(&mut book) else {
        unreachable!()
    };
    let Entry::Recover {
        concerned,
        undone,
        ..
    } = entry
    else {
        unreachable!()
    };
    // Until now nothing was undone: all entries are kept events, except for the Crash.
    let kept = book.len() as u64 - 1;
    let lost = lost(&book, role);
    let received = received(&book);
    // The room is there, so it succeeds.
    let _added = book.push(entry);
    let again = again(&book, &received);
    Ok(Cost {
        role,
        count,
        before: point_before(points, count),
        after: point_after(points, count),
        lost,
        undone,
        kept,
        concerned,
        again,
    })
}

// The costs of a declared role's crashes at the multiples of a step, after so many of the events at these points.
fn add_costs(
    alloc: Global,
    setup: &mut Setup,
    role: RoleId,
    points: &[Point],
    step: u32,
    list: &mut Vec<Cost>,
) -> Result<(), AllocError>
    requires declared { role < roles_of setup.old }
    requires points { AreOwnPoints setup.old role points.now }
    requires few { length points.now ≤ 100000 }
    requires step { 1 ≤ step }
    ensures list { OnOk result (HasCosts setup.old role points.now step list.old.items list.new.items) }
    ensures setup { DiffersInCrashes setup.old setup.new }
{
    // Tells the proof where the parts of a cost are declared.
    let _none: Option<Point> = None;
    for sample in 0..points.len() as u32 / step + 1 {
        let count = sample * step;
        crash_once(alloc, setup, role, count)?;
        list.push(cost_now(alloc, setup, role, count, points)?)?;
    }
    Ok(())
}

// For each role the points of the events that it makes if nobody crashes.
fn all_points(alloc: Global, setup: &mut Setup) -> Result<Vec<Vec<Point>>, AllocError>
    ensures points { IfOk result (λ points. AreAllPoints setup.old points.items) }
    ensures setup { DiffersInCrashes setup.old setup.new }
{
    let mut points = Vec::new(alloc);
    for role in 0..setup.roles() {
        points.push(own_points(alloc, setup, RoleId(role))?)?;
    }
    Ok(points)
}

/// What each role's crash costs, at each count of the events that it makes if nobody crashes. The crash lines of the
/// setup's plan don't count, and the setup gets a plan with another crash line instead. It runs the session once for
/// each cost, up to the recovery. So its time grows with the square of the events. With more than 2,000 counts it looks
/// at every so many of them. Fails if memory runs out.
pub fn costs_of(alloc: Global, setup: &mut Setup) -> Result<Costs, AllocError>
    ensures costs { IfOk result (AreCosts setup.old) }
    ensures few { IfOk result (λ costs. length costs.list.items ≤ 800008) }
    ensures setup { DiffersInCrashes setup.old setup.new }
{
    let roles = setup.roles();
    let points = all_points(alloc, setup)?;
    let step = step_of(points.as_slice());
    let mut list = Vec::new(alloc);
    for role in 0..roles {
        let of_role = points[role as usize].as_slice();
        add_costs(alloc, setup, RoleId(role), of_role, step, &mut list)?;
    }
    Ok(Costs { step, list })
}
