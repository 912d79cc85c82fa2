// How a channel is made.

ghost use Rattle.std.specs.Prelude.{◌≡◌, ◌≤◌, IfOk};
ghost use Rattle.rcv_mailbox.specs.Ends.{IsChannel, new_end};

use crate::inbox::Inbox;
use crate::post::Post;
use rcv_ring::ring;
use rcv_tree::point::PointSet;
use std::alloc::{AllocError, Global};

/// Makes a channel for messages of these points, with room for so many in flight, 1 to 1,024. Reserves room to keep
/// `limit` messages at each end, any number, so that no later call takes memory. Fails if memory runs out.
pub fn channel(
    alloc: Global,
    room: u32,
    limit: u32,
    points: PointSet,
) -> Result<(Post, Inbox), AllocError>
    requires { (1 ≤ room) × (room ≤ 1024) }
    ensures channel { IfOk result (λ ends. IsChannel ends.0 ends.1) }
    ensures post { IfOk result (λ ends. ends.0 ≡ new_end ends.0.base.ring room limit points.0) }
    ensures inbox { IfOk result (λ ends. ends.1 ≡ new_end ends.0.base.ring room limit points.0) }
{
    let (pusher, puller) = ring(alloc, room, points)?;
    let put = Vec::with_capacity(alloc, limit as usize)?;
    let taken = Vec::with_capacity(alloc, limit as usize)?;
    let post = Post {
        pusher,
        put,
        limit,
        dropped: 0,
        rewound: 0,
    };
    let inbox = Inbox {
        puller,
        taken,
        got: 0,
        limit,
        dropped: 0,
        rewound: 0,
    };
    Ok((post, inbox))
}
