// The stamps of each role's events that are kept so far.

ghost use Rattle.std.specs.Prelude.{◌≡◌, ◌↔◌, ◌<◌, [], ℕ, length, replicate, take, IsTrue, IfOk, OnOk};
ghost use Rattle.std.specs.List.Sorted.{IsNonDecreasing};
ghost use Rattle.rcv_guide.specs.Guide.{roles_of, IsMemory};
ghost use Rattle.rcv_told.specs.Told.{Remembered, made};
ghost use Rattle.rcv_tree.specs.Lists.{lists_in};
ghost use Rattle.rcv_retold.specs.Stamps.{stamps_at, with_stamp, cut_to, IsStamp};

use rcv_guide::guide::Guide;
use rcv_tree::role::RoleId;
use std::alloc::{AllocError, Global};

/// For each role the stamps of its events, in order.
pub type Stamps = Vec<Vec<u64>>;

/// So many roles without events. Fails if memory runs out.
pub fn no_stamps(alloc: Global, roles: u8) -> Result<Stamps, AllocError>
    ensures { IfOk result (λ stamps. lists_in stamps.items ≡ replicate roles []) }
{
    let mut stamps = Vec::new(alloc);
    for _role in 0..roles {
        stamps.push(Vec::new(alloc))?;
    }
    Ok(stamps)
}

/// Adds the stamp of a role's event. Fails if memory runs out.
pub fn note(stamps: &mut Stamps, role: RoleId, stamp: u64) -> Result<(), AllocError>
    requires { role < length stamps.old.items }
    ensures { OnOk result (lists_in stamps.new.items ≡ with_stamp (lists_in stamps.old.items) role stamp) }
{
    stamps[role.0 as usize].push(stamp)?;
    Ok(())
}

// Keeps only so many of a role's first stamps.
fn cut(stamps: &mut Stamps, role: usize, count: usize)
    requires { role < length stamps.old.items }
    ensures { lists_in stamps.new.items ≡ cut_to (lists_in stamps.old.items) role count }
{
    stamps[role].truncate(count);
}

/// Keeps, for each role, only as many of its first stamps as it has kept events.
pub fn cut_all(stamps: &mut Stamps, guide: &Guide)
    requires { length stamps.old.items ≡ roles_of guide.now }
    ensures count { length stamps.new.items ≡ length stamps.old.items }
    ensures each { (m : Remembered) → IsMemory guide.now m → (r : ℕ) → r < roles_of guide.now
        → stamps_at (lists_in stamps.new.items) r ≡ take (made m r) (stamps_at (lists_in stamps.old.items) r) }
{
    for role in 0..guide.roles() {
        let made = guide.made(RoleId(role));
        cut(stamps, role as usize, made as usize);
    }
}

/// Whether the stamp is one of these, which grow. It takes no memory. Its time grows with the logarithm of how many
/// there are.
pub fn has(stamps: &[u64], stamp: u64) -> bool
    requires { IsNonDecreasing stamps.now }
    ensures { IsTrue result ↔ IsStamp stamps.now stamp }
{
    let number = stamps.partition_point(|one| *one < stamp);
    match stamps.get(number) {
        Some(one) => *one == stamp,
        None => false,
    }
}
