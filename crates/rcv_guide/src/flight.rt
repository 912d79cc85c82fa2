// The messages of a channel, found in the log of its sender.

ghost use Rattle.std.specs.Prelude.{◌≡◌, ◌<◌, length, drop, IfOk};
ghost use Rattle.rcv_model.specs.Run.{put, puts_on};
ghost use Rattle.rcv_points.specs.Follow.{net_in};
ghost use Rattle.rcv_ledger.specs.Logs.{log_at};
ghost use Rattle.rcv_depend.specs.Logs.{AreSound, IsSound};

use rcv_ledger::ledger::Ledger;
use rcv_points::points::Points;
use rcv_tree::event::{Dir, Event, Message};
use rcv_tree::role::RoleId;
use std::alloc::{AllocError, Global};

// Whether an event of a role is a Send from it to another.
fn puts(points: &Points, from: RoleId, to: RoleId, event: &Event) -> bool
    requires { IsSound (net_in points.now) from event.now }
    ensures { result ≡ puts_on (net_in points.now) from to event.now }
{
    match event.dir {
        Dir::Sent => points.receiver(event.point) == to,
        Dir::Got => false,
    }
}

/// The messages that a role with a log put on its channel to another, in order, except for the first so many. It goes
/// once over the role's kept events. Fails if memory runs out.
pub fn flying(
    alloc: Global,
    ledger: &Ledger,
    points: &Points,
    from: RoleId,
    to: RoleId,
    taken: usize,
) -> Result<Vec<Message>, AllocError>
    requires role { from < length ledger.now.logs }
    requires sound { AreSound (net_in points.now) ledger.now.logs }
    ensures { IfOk result (λ all. all.items ≡ drop taken (put (net_in points.now) from to (log_at ledger.now.logs from))) }
{
    let mut messages = Vec::new(alloc);
    let mut left = taken;
    for place in 0..ledger.made(from) {
        let event = ledger.event(from, place);
        if !puts(points, from, to, event) {
            continue;
        }
        if left > 0 {
            left -= 1;
            continue;
        }
        messages.push(event.message())?;
    }
    Ok(messages)
}
