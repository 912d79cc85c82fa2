// The numbers of each role: what of it is forgotten, how much it did, and whether it is down.

ghost use Rattle.std.specs.Prelude.{◌≡◌, ℕ, ◌+◌, ◌<◌, ◌≤◌, ◌^◌, ◌==◌, if◌then◌else◌, false, length, replicate, IfOk};
ghost use Rattle.rcv_tree.specs.Bits.{has_bit};
ghost use Rattle.rcv_guide.specs.Numbers.{at_start, numbers_at, with_advanced, with_crash, with_seeds, latest_from, AreBack};

use rcv_ledger::ledger::Ledger;
use rcv_tree::event::Event;
use rcv_tree::role::{RoleId, RoleSet};
use std::alloc::{AllocError, Global};

/// At most so many roles.
pub const ROLES: usize = 8;

/// The numbers of a role.
#[derive(Clone, Copy)]
pub struct Numbers {
    /// How many of its remembered events, its first, are forgotten except for their messages.
    pub seeds: u32,
    /// How many of its events are forgotten, and the point of the last of them; 0 if none is.
    pub forgotten: u64,
    pub point: u16,
    /// How many events it ever made.
    pub raw: u64,
    /// How often some of its events were taken back.
    pub attempt: u64,
    pub clock: u64,
    pub down: bool,
}

impl Numbers {
    /// Before the first event.
    pub fn new() -> Numbers
        ensures { result ≡ at_start }
    {
        Numbers {
            seeds: 0,
            forgotten: 0,
            point: 0,
            raw: 0,
            attempt: 0,
            clock: 0,
            down: false,
        }
    }
}

/// The numbers of so many roles before their first event. Fails if memory runs out.
pub fn fresh(alloc: Global, roles: u8) -> Result<Vec<Numbers>, AllocError>
    ensures { IfOk result (λ numbers. numbers.items ≡ replicate roles at_start) }
{
    let mut numbers = Vec::new(alloc);
    for _role in 0..roles {
        numbers.push(Numbers::new())?;
    }
    Ok(numbers)
}

/// Records one event more of its role. The event's stamp is the role's clock from now on.
pub fn advance(numbers: &mut Vec<Numbers>, event: &Event)
    requires declared { event.now.role < length numbers.old.items }
    requires few { (numbers_at numbers.old.items event.now.role).raw + 1 < 2 ^ 64 }
    ensures { numbers.new.items ≡ with_advanced numbers.old.items event.now }
{
    let own = &mut numbers[event.role.0 as usize];
    own.raw += 1;
    own.clock = event.stamp;
}

/// Marks a role as down.
pub fn fall(numbers: &mut Vec<Numbers>, role: RoleId)
    requires declared { role < length numbers.old.items }
    ensures { numbers.new.items ≡ with_crash numbers.old.items role }
{
    numbers[role.0 as usize].down = true;
}

/// Records how many of a role's remembered events are its seeds.
pub fn set_seeds(numbers: &mut Vec<Numbers>, role: RoleId, seeds: u32)
    requires declared { role < length numbers.old.items }
    ensures { numbers.new.items ≡ with_seeds numbers.old.items role seeds }
{
    numbers[role.0 as usize].seeds = seeds;
}

// The greatest clock of the roles of a set; 0 if it is empty.
fn latest(numbers: &[Numbers], roles: RoleSet) -> u64
    requires { length numbers.now ≤ 8 }
    ensures { result ≡ latest_from roles.0 0 numbers.now }
{
    let mut latest = 0;
    for role in 0..numbers.len() {
        latest = clock_in(numbers, roles, role).max(latest);
    }
    latest
}

// The clock of a role, if it is in the set; else 0.
fn clock_in(numbers: &[Numbers], roles: RoleSet, role: usize) -> u64
    requires eight { role < 8 }
    requires declared { role < length numbers.now }
    ensures { result ≡ (if has_bit roles.0 role then (numbers_at numbers.now role).clock else 0) }
{
    if !roles.has(RoleId(role as u8)) {
        return 0;
    }
    numbers[role].clock
}

/// Records a recovery. No role of the failed group is down any more. A role is in its next attempt if some of its
/// logged events aren't within these counts. The clocks of the concerned roles are one more than their greatest.
pub fn go_back(
    numbers: &mut Vec<Numbers>,
    ledger: &Ledger,
    group: RoleSet,
    concerned: RoleSet,
    counts: &[u32; 8],
)
    requires eight { length numbers.old.items ≤ 8 }
    requires same { length ledger.now.logs ≡ length numbers.old.items }
    requires attempts { (r : ℕ) → r < length numbers.old.items → (numbers_at numbers.old.items r).attempt + 1 < 2 ^ 64 }
    requires clocks { (r : ℕ) → r < length numbers.old.items → (numbers_at numbers.old.items r).clock + 1 < 2 ^ 64 }
    ensures { AreBack numbers.old.items numbers.new.items group.0 concerned.0 ledger.now.logs counts.now }
{
    let clock = latest(numbers.as_slice(), concerned) + 1;
    for role in 0..numbers.len() {
        let old = numbers[role];
        let number = RoleId(role as u8);
        numbers[role] = Numbers {
            seeds: old.seeds,
            forgotten: old.forgotten,
            point: old.point,
            raw: old.raw,
            attempt: attempt_behind(&old, counts[role] as usize, ledger.made(number)),
            clock: clock_behind(&old, concerned.has(number), clock),
            down: down_behind(&old, group.has(number)),
        };
    }
}

// Whether a role is down after a recovery, in which it is one of the failed ones or not.
fn down_behind(own: &Numbers, fails: bool) -> bool
    ensures { result ≡ (if fails then false else own.now.down) }
{
    if fails {
        return false;
    }
    own.down
}

// The number of its attempt after it, if it keeps so many of the events that it made.
fn attempt_behind(own: &Numbers, kept: usize, made: usize) -> u64
    requires { own.now.attempt + 1 < 2 ^ 64 }
    ensures { result ≡ (if kept == made then own.now.attempt else own.now.attempt + 1) }
{
    if kept == made {
        return own.attempt;
    }
    own.attempt + 1
}

// Its clock after it, whether it is concerned or not.
fn clock_behind(own: &Numbers, concerned: bool, clock: u64) -> u64
    ensures { result ≡ (if concerned then clock else own.now.clock) }
{
    if concerned {
        return clock;
    }
    own.clock
}
