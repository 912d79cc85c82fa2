// The Sends of each role, which are found by their stamps.

ghost use Rattle.std.specs.Prelude.{◌≡◌, ◌<◌, [], length, replicate, IfOk, OnOk, MatchOption};
ghost use Rattle.std.specs.List.Sorted.{IsNonDecreasingBy};
ghost use Rattle.rcv_tree.specs.Lists.{lists_in};
ghost use Rattle.rcv_fates.specs.Sends.{with_sent, HasNoStamp, HasSent};

use rcv_tree::role::RoleId;
use std::alloc::{AllocError, Global};

/// Where a Send stands among the entries, with its stamp.
#[derive(Clone, Copy, Debug, PartialEq, Eq)]
pub struct Sent {
    pub stamp: u64,
    pub place: u32,
}

/// For each role its Sends, in order.
pub type SendLists = Vec<Vec<Sent>>;

/// So many roles without Sends. Fails if memory runs out.
pub fn no_sends(alloc: Global, roles: u8) -> Result<SendLists, AllocError>
    ensures { IfOk result (λ lists. lists_in lists.items ≡ replicate roles []) }
{
    let mut lists = Vec::new(alloc);
    for _role in 0..roles {
        lists.push(Vec::new(alloc))?;
    }
    Ok(lists)
}

/// Adds a Send of a role. Fails if memory runs out.
pub fn note(lists: &mut SendLists, role: RoleId, sent: Sent) -> Result<(), AllocError>
    requires { role < length lists.old.items }
    ensures { OnOk result (lists_in lists.new.items ≡ with_sent (lists_in lists.old.items) role sent) }
{
    lists[role.0 as usize].push(sent)?;
    Ok(())
}

/// The place of a Send with this stamp, among Sends whose stamps don't fall; none if no Send has it. It takes no
/// memory.
pub fn place_of(sends: &[Sent], stamp: u64) -> Option<u32>
    requires { IsNonDecreasingBy (λ x. x.stamp) sends.now }
    ensures { MatchOption result (HasNoStamp sends.now stamp) (λ place. HasSent sends.now stamp place) }
{
    let number = sends.partition_point(|sent| sent.stamp < stamp);
    let sent = sends.get(number)?;
    if sent.stamp == stamp {
        Some(sent.place)
    } else {
        None
    }
}
