// The two logs of one round.

ghost use Rattle.std.specs.Prelude.{◌≡◌};
ghost use Rattle.rcv_merge.specs.Shown.{sent, got};

use crate::merge_round;
use rcv_tree::entry::{Entry, Timed};
use rcv_tree::event::{Dir, Event};
use rcv_tree::point::Point;
use rcv_tree::role::RoleId;
use std::test::Fail;

fn sent(role: u8, point: u16, stamp: u64) -> Entry
    ensures { result ≡ sent role point stamp }
{
    Entry::Send(Event {
        role: RoleId(role),
        dir: Dir::Sent,
        point: Point(point),
        value: 0,
        stamp,
        sent: stamp,
    })
}

fn got(role: u8, point: u16, stamp: u64, at: u64) -> Entry
    ensures { result ≡ got role point stamp at }
{
    Entry::Recv(Event {
        role: RoleId(role),
        dir: Dir::Got,
        point: Point(point),
        value: 0,
        stamp,
        sent: at,
    })
}

#[test]
fn logs_of_ping_take_turns(rt: HostRuntime) -> Result<(), Fail> {
    let first = [
        Timed {
            stamp: 1,
            step: sent(0, 1, 1),
        },
        Timed {
            stamp: 4,
            step: got(0, 2, 4, 3),
        },
    ];
    let second = [
        Timed {
            stamp: 2,
            step: got(1, 1, 2, 1),
        },
        Timed {
            stamp: 3,
            step: sent(1, 2, 3),
        },
    ];
    let mut merged = Vec::new(rt.alloc());
    // What stood in the list goes.
    merged.push(sent(1, 2, 9))?;
    merge_round(&[&first, &second], &mut merged)?;
    let expected = [
        sent(0, 1, 1),
        got(1, 1, 2, 1),
        sent(1, 2, 3),
        got(0, 2, 4, 3),
    ];
    assert_eq!(rt; merged.as_slice(), expected.as_slice());
    Ok(())
}
