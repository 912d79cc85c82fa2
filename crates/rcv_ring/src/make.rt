// How a ring is made.

ghost use Rattle.std.specs.Prelude.{◌≡◌, ◌≤◌, IfOk};
ghost use Rattle.rcv_ring.specs.Shown.{fresh};

use crate::end::End;
use crate::pull::Puller;
use crate::push::Pusher;
use crate::rule::Key;
use rcv_tree::point::PointSet;
use std::alloc::{AllocError, Global};

/// Makes a ring with room for so many messages, 1 to 1,024, each of one of these points. Nothing was sent yet. Fails
/// if memory runs out.
pub fn ring(alloc: Global, room: u32, points: PointSet) -> Result<(Pusher, Puller), AllocError>
    requires { (1 ≤ room) × (room ≤ 1024) }
    ensures pusher { IfOk result (λ ends. ends.0 ≡ fresh ends.0.ring room points.0) }
    ensures puller { IfOk result (λ ends. ends.1 ≡ fresh ends.0.ring room points.0) }
{
    let room = u64::from(room);
    let PointSet(points) = points;
    let key = Key { room, points };
    let (pusher, puller) = End::both(alloc, &key)?;
    let pusher = Pusher {
        end: pusher,
        put: 0,
        seen: 0,
        room,
    };
    let puller = Puller {
        end: puller,
        got: 0,
        seen: 0,
        room,
    };
    Ok((pusher, puller))
}
