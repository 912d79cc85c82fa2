// What crashes cost in small sessions, counted by hand.

use rcv_core::setup::Setup;
use rcv_costs::{Cost, Costs, costs_of};
use rcv_input::read_input;
use rcv_tree::point::Point;
use rcv_tree::role::{RoleId, RoleSet};
use std::alloc::Global;
use std::test::Fail;

// How many bytes an input may have.
const MOST: usize = 1_048_576;

// The costs of a session; none if the input isn't taken, or no memory was left.
fn rehearsed(alloc: Global, input: &[u8]) -> Option<Costs> {
    if input.len() > MOST {
        return None;
    }
    let input = read_input(alloc, input).ok()?;
    let mut setup = Setup::new(alloc, input.accepted, input.scripts, input.plan).ok()?;
    costs_of(alloc, &mut setup).ok()
}

// The greatest number of undone events.
fn worst(costs: &Costs) -> u32 {
    let mut worst = 0;
    for cost in costs.list.as_slice() {
        worst = worst.max(cost.undone);
    }
    worst
}

// A role that only receives: nobody else is concerned, and it loses what it hasn't saved.
const ALONE: &[u8] = b"module m;
global protocol P(role A, role B) {
  a() from A to B;
  b() from A to B;
  c() from A to B;
}
%% plan
every B 2 crash A 1
";

#[test]
fn a_role_that_nobody_hears_costs_what_it_has_not_saved(rt: HostRuntime) -> Result<(), Fail> {
    let costs = rehearsed(rt.alloc(), ALONE).expect(&rt, "the session runs");
    assert_eq!(rt; costs.step, 1);
    let list = costs.list.as_slice();
    assert_eq!(rt; list.len(), 8);
    let third = Cost {
        role: RoleId(1),
        count: 3,
        before: Some(Point(3)),
        after: None,
        lost: 1,
        undone: 1,
        kept: 6,
        concerned: RoleSet(2),
        again: 1,
    };
    assert!(rt; list[7] == third);
    let second = Cost {
        count: 2,
        before: Some(Point(2)),
        after: Some(Point(3)),
        lost: 0,
        undone: 0,
        kept: 5,
        again: 0,
        ..third
    };
    assert!(rt; list[6] == second);
    let first = Cost {
        count: 1,
        before: Some(Point(1)),
        after: Some(Point(2)),
        lost: 1,
        undone: 1,
        kept: 4,
        again: 1,
        ..third
    };
    assert!(rt; list[5] == first);
    let before_any = Cost {
        count: 0,
        before: None,
        after: Some(Point(1)),
        lost: 0,
        undone: 0,
        kept: 0,
        again: 0,
        ..third
    };
    assert!(rt; list[4] == before_any);
    Ok(())
}

// A commit, its answer, and a note to a third role; B and C share a host.
const HOSTED: &[u8] = b"module m;
global protocol P(role A, role B, role C) {
  commit() from A to B;
  ack() from B to A;
  done() from A to C;
}
%% plan
every B 4 every C 4
host h = B, C
";

#[test]
fn a_host_fails_whole(rt: HostRuntime) -> Result<(), Fail> {
    let costs = rehearsed(rt.alloc(), HOSTED).expect(&rt, "the session runs");
    let list = costs.list.as_slice();
    // A 0 to 3, B 0 to 2, C 0 to 1.
    assert_eq!(rt; list.len(), 9);
    // C crashes after all is done, and B with it: both events of B are lost, and what A did on the answer goes too.
    let last = Cost {
        role: RoleId(2),
        count: 1,
        before: Some(Point(3)),
        after: None,
        lost: 3,
        undone: 5,
        kept: 6,
        concerned: RoleSet(7),
        again: 1,
    };
    assert!(rt; list[8] == last);
    // B crashes after its answer, before A has it.
    let answered = Cost {
        role: RoleId(1),
        count: 2,
        before: Some(Point(2)),
        after: None,
        lost: 2,
        undone: 2,
        kept: 3,
        concerned: RoleSet(7),
        again: 1,
    };
    assert!(rt; list[6] == answered);
    Ok(())
}

// The same protocol with and without an `every` line that saves less often.
const OFTEN: &[u8] = b"module m;
global protocol P(role A, role B) {
  rec Loop {
    choice at A {
      more() from A to B;
      got() from B to A;
      continue Loop;
    } or {
      stop() from A to B;
    }
  }
}
%% scripts
role A { var n = 0; on got set n = n + 1; pick more when n < 4; pick stop; }
%% plan
every B 4 every A 4
";

const SELDOM: &[u8] = b"module m;
global protocol P(role A, role B) {
  rec Loop {
    choice at A {
      more() from A to B;
      got() from B to A;
      continue Loop;
    } or {
      stop() from A to B;
    }
  }
}
%% scripts
role A { var n = 0; on got set n = n + 1; pick more when n < 4; pick stop; }
%% plan
every B 8 every A 8
";

#[test]
fn saving_twice_as_often_more_than_halves_the_worst(rt: HostRuntime) -> Result<(), Fail> {
    let often = rehearsed(rt.alloc(), OFTEN).expect(&rt, "the session runs");
    let seldom = rehearsed(rt.alloc(), SELDOM).expect(&rt, "the session runs");
    assert_eq!(rt; often.list.len(), 20);
    // So many of one role's events, and all but one of them of the other's.
    assert_eq!(rt; worst(&often), 3 + 2);
    assert_eq!(rt; worst(&seldom), 7 + 6);
    Ok(())
}
