// The messages in flight to some roles.

ghost use Rattle.std.specs.Prelude.{◌≡◌, ◌<◌, ◌++◌, All, OnOk, IfOk};
ghost use Rattle.std.specs.List.{filter, range_with_len};
ghost use Rattle.rcv_tree.specs.Bits.{has_bit};
ghost use Rattle.rcv_guide.specs.Guide.{roles_of};
ghost use Rattle.rcv_guided.specs.Flights.{flights_between, flights_to, flights_to_all, IsFlight};

use rcv_dialogue::line::Flight;
use rcv_guide::guide::Guide;
use rcv_tree::role::{RoleId, RoleSet};
use std::alloc::{AllocError, Global};

// Adds those from one declared role to another, oldest first. Fails if memory runs out.
fn add_flights_between(
    alloc: Global,
    guide: &Guide,
    from: RoleId,
    to: RoleId,
    flights: &mut Vec<Flight>,
) -> Result<(), AllocError>
    requires from { from < roles_of guide.now }
    requires to { to < roles_of guide.now }
    ensures value { OnOk result (flights.new.items ≡ flights.old.items ++ flights_between guide.now to from) }
    ensures declared { OnOk result (All (IsFlight guide.now) flights.old.items → All (IsFlight guide.now) flights.new.items) }
{
    let messages = guide.messages(alloc, from, to)?;
    for message in messages.as_slice() {
        flights.push(Flight {
            from,
            to,
            message: *message,
        })?;
    }
    Ok(())
}

/// Adds those to a declared role, by sender. Fails if memory runs out.
pub fn add_flights(
    alloc: Global,
    guide: &Guide,
    to: RoleId,
    flights: &mut Vec<Flight>,
) -> Result<(), AllocError>
    requires { to < roles_of guide.now }
    ensures value { OnOk result (flights.new.items ≡ flights.old.items ++ flights_to guide.now to) }
    ensures declared { OnOk result (All (IsFlight guide.now) flights.old.items → All (IsFlight guide.now) flights.new.items) }
{
    for from in 0..guide.roles() {
        add_flights_between(alloc, guide, RoleId(from), to, flights)?;
    }
    Ok(())
}

/// Those to the declared roles of a set, by receiver. Fails if memory runs out.
pub fn flights(alloc: Global, guide: &Guide, to: RoleSet) -> Result<Vec<Flight>, AllocError>
    ensures value { IfOk result (λ found. found.items
        ≡ flights_to_all guide.now (filter (has_bit to.0) (range_with_len 0 (roles_of guide.now)))) }
    ensures declared { IfOk result (λ found. All (IsFlight guide.now) found.items) }
{
    let mut found = Vec::new(alloc);
    for role in 0..guide.roles() {
        if to.has(RoleId(role)) {
            add_flights(alloc, guide, RoleId(role), &mut found)?;
        }
    }
    Ok(found)
}
