// A full ring, an empty one, and one between two threads.

ghost use Rattle.std.specs.Prelude.{◌≡◌, ◌<◌, ◌^◌, [], IfSome};
ghost use Rattle.rcv_ring.specs.Points.{HasPoint};
ghost use Rattle.rcv_ring.specs.Shown.{through};

use crate::{Puller, Pusher, ring};
use rcv_tree::event::Message;
use rcv_tree::point::{Point, PointSet};
use std::test::Fail;
use std::thread;
use std::thread::{Threads, join};

// How often each end tries at most.
const TRIES: u64 = 1_000_000_000;

// The message with this number, of point 1.
fn message(n: u64) -> Message
    requires { n < 2 ^ 32 }
    ensures { (result.point ≡ 1) × (result.stamp ≡ n) }
{
    Message {
        point: Point(1),
        value: -(n as i64),
        stamp: n,
    }
}

// Sends so many messages, and says how many it sent.
fn send_all(mut pusher: Pusher, count: u64) -> (Pusher, u64)
    requires count { count < 2 ^ 32 }
    requires points { HasPoint pusher.points 1 }
    requires sent { pusher.sent ≡ [] }
    ensures ring { result.0.ring ≡ pusher.ring }
    ensures sent { through result.0 ≡ result.1 }
{
    let mut next = 0;
    for _ in 0..TRIES {
        if next >= count {
            break;
        }
        match pusher.push(message(next)) {
            Ok(()) => next += 1,
            Err(_) => thread::yield_now(),
        }
    }
    (pusher, next)
}

// Takes so many messages, and says whether they are the first ones, in order.
fn take_all(mut puller: Puller, count: u64) -> (Puller, bool)
    requires { count < 2 ^ 32 }
    ensures { result.0.ring ≡ puller.ring }
{
    let mut next = 0;
    let mut right = true;
    for _ in 0..TRIES {
        if next >= count {
            break;
        }
        match puller.pull() {
            Some(m) => {
                right = right && m == message(next);
                next += 1;
            }
            None => thread::yield_now(),
        }
    }
    (puller, right && next == count)
}

// Hands 100,000 messages from one thread to another, and says how many the ring holds at the end.
fn exchange<R: Threads + Sync>(rt: &R, pusher: Pusher, puller: Puller) -> Option<u32>
    requires points { HasPoint pusher.points 1 }
    requires sent { pusher.sent ≡ [] }
    requires ring { pusher.ring ≡ puller.ring }
{
    let ((mut pusher, sent), (mut puller, right)) = join(
        rt,
        move || -> (Pusher, u64)
            requires { HasPoint pusher.points 1 × (pusher.sent ≡ []) }
            ensures { result.0.ring ≡ pusher.ring }
        { send_all(pusher, 100_000) },
        move || -> (Puller, bool)
            ensures { result.0.ring ≡ puller.ring }
        { take_all(puller, 100_000) },
    );
    let held = puller.meet(&mut pusher);
    if right && sent == 100_000 {
        Some(held)
    } else {
        None
    }
}

#[test]
fn many_messages_arrive_in_order(rt: HostRuntime) -> Result<(), Fail> {
    let (pusher, puller) = ring(rt.alloc(), 4, PointSet([1, 0, 0, 0]))?;
    assert!(rt; exchange(&rt, pusher, puller) == Some(0));
    Ok(())
}

#[test]
fn a_full_ring_of_one_hands_the_message_back(rt: HostRuntime) -> Result<(), Fail> {
    let (mut pusher, mut puller) = ring(rt.alloc(), 1, PointSet([1, 0, 0, 0]))?;
    assert!(rt; puller.pull().is_none());
    assert!(rt; pusher.push(message(1)).is_ok());
    assert!(rt; pusher.push(message(2)) == Err(message(2)));
    assert!(rt; puller.pull() == Some(message(1)));
    assert!(rt; puller.pull().is_none());
    Ok(())
}

#[test]
fn what_is_taken_makes_room_behind_the_rest(rt: HostRuntime) -> Result<(), Fail> {
    let (mut pusher, mut puller) = ring(rt.alloc(), 2, PointSet([1, 0, 0, 0]))?;
    assert!(rt; pusher.push(message(1)).is_ok());
    assert!(rt; pusher.push(message(2)).is_ok());
    assert!(rt; puller.pull() == Some(message(1)));
    assert_eq!(rt; puller.meet(&mut pusher), 1);
    assert!(rt; pusher.push(message(3)).is_ok());
    assert_eq!(rt; puller.meet(&mut pusher), 2);
    assert!(rt; puller.pull() == Some(message(2)));
    assert!(rt; puller.pull() == Some(message(3)));
    assert_eq!(rt; puller.meet(&mut pusher), 0);
    assert!(rt; puller.pull().is_none());
    Ok(())
}
