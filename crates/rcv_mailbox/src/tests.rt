// Channels that fill up, go back, and give messages again.

ghost use Rattle.std.specs.Prelude.{◌≡◌, ◌≤◌};

use crate::{Full, Inbox, Post, channel};
use rcv_tree::event::Message;
use rcv_tree::point::{Point, PointSet};
use std::test::Fail;

// Point 1 alone.
const POINTS: PointSet = PointSet([1, 0, 0, 0]);

// The message with this number, of point 1.
fn message(n: u64) -> Message
    requires { n ≤ 1000 }
    ensures { (result.point ≡ 1) × (result.stamp ≡ n) }
{
    Message {
        point: Point(1),
        value: -(n as i64),
        stamp: n,
    }
}

#[test]
fn a_room_of_one_takes_one_message(rt: HostRuntime) -> Result<(), Fail> {
    let (mut post, mut inbox) = channel(rt.alloc(), 1, 5, POINTS)?;
    assert!(rt; post.send(message(1)).is_ok());
    match post.send(message(2)) {
        Ok(()) => return Err("it was sent".into()),
        Err(Full(back)) => assert!(rt; back == message(2)),
    }
    assert!(rt; inbox.receive() == Some(message(1)));
    assert!(rt; inbox.receive().is_none());
    Ok(())
}

#[test]
fn a_rewind_takes_what_is_on_its_way(rt: HostRuntime) -> Result<(), Fail> {
    let (mut post, mut inbox) = channel(rt.alloc(), 4, 8, POINTS)?;
    assert!(rt; post.send(message(1)).is_ok());
    assert!(rt; post.send(message(2)).is_ok());
    assert!(rt; post.send(message(3)).is_ok());
    assert!(rt; post.send(message(4)).is_ok());
    assert!(rt; inbox.receive() == Some(message(1)));
    assert_eq!(rt; inbox.meet(&mut post), 3);
    inbox.rewind(0, &mut post, 3);
    assert_eq!(rt; inbox.meet(&mut post), 0);
    assert!(rt; post.send(message(7)).is_ok());
    assert!(rt; inbox.receive() == Some(message(1)));
    assert!(rt; inbox.receive() == Some(message(2)));
    assert!(rt; inbox.receive() == Some(message(3)));
    assert_eq!(rt; inbox.meet(&mut post), 1);
    assert!(rt; inbox.receive() == Some(message(7)));
    assert!(rt; inbox.receive().is_none());
    Ok(())
}

#[test]
fn going_back_alone_gives_messages_again(rt: HostRuntime) -> Result<(), Fail> {
    let (mut post, mut inbox) = channel(rt.alloc(), 2, 8, POINTS)?;
    assert!(rt; post.send(message(1)).is_ok());
    assert!(rt; post.send(message(2)).is_ok());
    assert!(rt; inbox.receive() == Some(message(1)));
    assert!(rt; inbox.receive() == Some(message(2)));
    assert!(rt; post.send(message(3)).is_ok());
    inbox.rewind_alone(1);
    assert!(rt; inbox.receive() == Some(message(2)));
    assert!(rt; inbox.receive() == Some(message(3)));
    Ok(())
}
