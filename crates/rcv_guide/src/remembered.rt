// What a guide remembers, in a form that can be restored.

ghost use Rattle.std.specs.Prelude.{◌≡◌, ℕ, ◌<◌, ◌≤◌, ◌++◌, length, take, flat_map, All, IfOk, OnOk};
ghost use Rattle.std.specs.List.{range_with_len};
ghost use Rattle.rcv_ledger.specs.Logs.{log_at};
ghost use Rattle.rcv_guide.specs.Numbers.{numbers_at};
ghost use Rattle.rcv_guide.specs.Guide.{roles_of};
ghost use Rattle.rcv_guide.specs.Restoring.{standing_of};
ghost use Rattle.rcv_guide.specs.Remembered.{seeds_of, IsDeclaredIn, AreRemembered, AreInOrder, IsMerge};

use crate::guide::Guide;
use crate::numbers::{Numbers, ROLES};
use crate::renewal::{ends, least_next};
use crate::standing::Standing;
use rcv_ledger::ledger::Ledger;
use rcv_tree::event::Event;
use rcv_tree::role::RoleId;
use std::alloc::{AllocError, Global};

impl Guide {
    /// Where a declared role stands after what is forgotten of it.
    pub fn standing(&self, role: RoleId) -> Standing
        requires { role < roles_of self.now }
        ensures { result ≡ standing_of self.now role }
    {
        let own = &self.numbers[role.0 as usize];
        Standing {
            forgotten: own.forgotten,
            place: own.point,
            raw: own.raw,
            attempt: own.attempt,
            clock: own.clock,
            down: own.down,
        }
    }

    /// The forgotten Sends whose messages weren't received by what is forgotten: role by role, the oldest first. Fails
    /// if memory runs out.
    pub fn seeds(&self, alloc: Global) -> Result<Vec<Event>, AllocError>
        ensures value { IfOk result (λ seeds. seeds.items ≡ seeds_of self.now) }
        ensures declared { IfOk result (λ seeds. All (IsDeclaredIn self.now) seeds.items) }
    {
        seeds_in(alloc, self.numbers.as_slice(), &self.ledger)
    }

    /// All events that are remembered, in the order of their stamps: each Recv after its Send. Fails if memory runs
    /// out.
    pub fn remembered(&self, alloc: Global) -> Result<Vec<Event>, AllocError>
        ensures { IfOk result (λ events. AreRemembered self.now events.items) }
    {
        let starts = ends(self.numbers.as_slice(), &[0; 8]);
        merged(alloc, &self.ledger, &starts)
    }
}

// Adds the first events of a role with a log. Fails if memory runs out.
fn add_first(
    events: &mut Vec<Event>,
    ledger: &Ledger,
    role: RoleId,
    count: usize,
) -> Result<(), AllocError>
    requires role { role < length ledger.now.logs }
    requires count { count ≤ length (log_at ledger.now.logs role) }
    ensures { OnOk result (events.new.items ≡ events.old.items ++ take count (log_at ledger.now.logs role)) }
{
    for number in 0..count {
        events.push(*ledger.event(role, number))?;
    }
    Ok(())
}

// The seeds of all roles. Fails if memory runs out.
fn seeds_in(alloc: Global, numbers: &[Numbers], ledger: &Ledger) -> Result<Vec<Event>, AllocError>
    requires few { length numbers.now ≤ 8 }
    requires same { length ledger.now.logs ≡ length numbers.now }
    requires within { (r : ℕ) → r < length numbers.now → (numbers_at numbers.now r).seeds ≤ length (log_at ledger.now.logs r) }
    ensures { IfOk result (λ seeds. seeds.items
        ≡ flat_map (λ r. take (numbers_at numbers.now r).seeds (log_at ledger.now.logs r)) (range_with_len 0 (length numbers.now))) }
{
    let mut seeds = Vec::new(alloc);
    for role in 0..numbers.len() {
        add_first(
            &mut seeds,
            ledger,
            RoleId(role as u8),
            numbers[role].seeds as usize,
        )?;
    }
    Ok(seeds)
}

// The events of all roles, each log from some place on, in the order of their stamps. Fails if memory runs out.
fn merged(alloc: Global, ledger: &Ledger, starts: &[usize; ROLES]) -> Result<Vec<Event>, AllocError>
    requires { AreInOrder ledger.now.logs }
    ensures { IfOk result (λ events. IsMerge ledger.now.logs starts.now events.items) }
{
    let mut places = *starts;
    let mut events = Vec::new(alloc);
    while let Some(front) = least_next(ledger, &places) {
        let place = places[front.role];
        events.push(*ledger.event(RoleId(front.role as u8), place))?;
        places[front.role] = place + 1;
    }
    Ok(events)
}
