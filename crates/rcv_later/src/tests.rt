// The setups of three sessions, which two workers make.

use crate::preparation::Preparation;
use crate::prepare::prepare;
use rcv_input::read_input;
use rcv_tree::role::RoleId;
use std::test::Fail;

// A protocol of one message whose receiver crashes at its first event.
const INPUT: &[u8] =
    b"module m;global protocol P(role A,role B){p()from A to B;}\n%% plan\ncrash B 1\nlimit 5";

// Whether there is a setup in which the receiver crashes at this count, and not before.
fn crashes_at(preparation: &Preparation<'_>, count: u32) -> bool {
    let Some(setup) = preparation.setup() else {
        return false;
    };
    let plan = setup.plan();
    plan.due(RoleId(1), count, 0) && (count == 0 || !plan.due(RoleId(1), count - 1, 0))
}

#[test]
fn each_session_crashes_one_later(rt: HostRuntime) -> Result<(), Fail> {
    let Ok(_taken) = read_input(rt.alloc(), INPUT) else {
        return Err(Fail::new("the input was refused"));
    };
    let all = prepare(&rt, rt.alloc(), INPUT, 3, 2)?;
    assert_eq!(rt; all.len(), 3);
    assert!(rt; crashes_at(&all[0], 1));
    assert!(rt; crashes_at(&all[1], 2));
    assert!(rt; crashes_at(&all[2], 3));
    Ok(())
}
