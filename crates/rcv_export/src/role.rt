// The machine of a role as JSON.

ghost use Rattle.std.specs.Prelude.{◌≡◌, ◌≤◌, ◌++◌, map, IfOk, OnOk};
ghost use Rattle.serde_json.specs.View.{view};
ghost use Rattle.rcv_model.specs.Next.{IsPlaceOf};
ghost use Rattle.rcv_accept.specs.Accepted.{net_for, text_of};
ghost use Rattle.rcv_project.specs.Local.{IsLocalOf, act_at};
ghost use Rattle.rcv_project.specs.LocalText.{places_to};
ghost use Rattle.rcv_export.specs.Messages.{sorts_in};
ghost use Rattle.rcv_export.specs.RoleJson.{own_place, place_data, place_of, role_data, role_json};

use crate::line::line_of;
use crate::messages::sorts_of;
use crate::steps::steps_value;
use crate::text::{count, owns};
use crate::words::{role_value, word_value};
use rcv_accept::accepted::Accepted;
use rcv_project::act::Act;
use rcv_project::local::Local;
use rcv_tree::event::Dir;
use rcv_tree::name::Names;
use rcv_tree::point::Point;
use rcv_tree::role::RoleId;
use serde_json::{Value, json};
use std::alloc::{AllocError, Global};

// A place of the role, with what the role does there. Fails if memory runs out.
fn place_value(
    alloc: Global,
    accepted: &Accepted,
    sorts: &[Names],
    local: &Local,
    role: RoleId,
    place: u16,
) -> Result<Value, AllocError>
    requires sorts { sorts.now ≡ sorts_in (text_of accepted.now) }
    requires local { IsLocalOf (net_for accepted.now) role local.now }
    requires place { IsPlaceOf (net_for accepted.now) role place }
    ensures { IfOk result (λ value. view value ≡ place_data accepted.now place (act_at local.now place)) }
{
    // Tells the proof that the protocol is accepted.
    let protocol = accepted.protocol();
    match local.next(place) {
        Act::Sends(points) => {
            let next = steps_value(alloc, accepted, sorts, Dir::Sent, points)?;
            json!(in alloc; {"act": "send", "next": next, "place": place})
        }
        Act::Receives(from, points) => {
            let next = steps_value(alloc, accepted, sorts, Dir::Got, points)?;
            let peer = role_value(alloc, &protocol.roles, from)?;
            json!(in alloc; {"act": "receive", "next": next, "peer": peer, "place": place})
        }
        Act::Done => json!(in alloc; {"act": "done", "next": [], "place": place}),
    }
}

// Adds a point of the text as a place, if it is the role's. Fails if memory runs out.
fn push_place(
    list: &mut Vec<Value>,
    alloc: Global,
    accepted: &Accepted,
    sorts: &[Names],
    local: &Local,
    role: RoleId,
    place: u16,
) -> Result<(), AllocError>
    requires sorts { sorts.now ≡ sorts_in (text_of accepted.now) }
    requires local { IsLocalOf (net_for accepted.now) role local.now }
    requires first { 1 ≤ place }
    requires last { place ≤ (net_for accepted.now).count }
    ensures { OnOk result (map view list.new.items ≡ map view list.old.items
        ++ own_place accepted.now role local.now place) }
{
    if owns(accepted, role, Point(place)) {
        list.push(place_value(alloc, accepted, sorts, local, role, place)?)?;
    }
    Ok(())
}

// The places of the role, ascending. Fails if memory runs out.
fn places(
    alloc: Global,
    accepted: &Accepted,
    local: &Local,
    role: RoleId,
) -> Result<Vec<Value>, AllocError>
    requires { IsLocalOf (net_for accepted.now) role local.now }
    ensures { IfOk result (λ list. map view list.items ≡ map (place_of accepted.now local.now)
        (places_to (net_for accepted.now) role (net_for accepted.now).count)) }
{
    let all = sorts_of(alloc, accepted)?;
    let sorts = all.as_slice();
    let mut list = vec![in alloc; place_value(alloc, accepted, sorts, local, role, 0)?]?;
    for before in 0..count(accepted) {
        push_place(&mut list, alloc, accepted, sorts, local, role, before + 1)?;
    }
    Ok(list)
}

// The machine as a value. Fails if memory runs out.
fn machine_value(
    alloc: Global,
    accepted: &Accepted,
    local: &Local,
    role: RoleId,
) -> Result<Value, AllocError>
    requires local { IsLocalOf (net_for accepted.now) role local.now }
    requires role { local.now.role ≡ role }
    ensures { IfOk result (λ value. view value ≡ role_data accepted.now local.now) }
{
    let protocol = accepted.protocol();
    let places = places(alloc, accepted, local, role)?;
    let name = word_value(alloc, protocol.name.as_slice())?;
    let role = role_value(alloc, &protocol.roles, role)?;
    json!(in alloc; {"places": places, "protocol": name, "role": role})
}

/// The machine of a role as JSON, on one line: an object without spaces, its keys in order, with an element for the
/// start and for each point of the role, ascending, that says what the role does there and what can come next. The
/// machine is one of the protocol's. Fails if memory runs out.
pub fn role_json(alloc: Global, accepted: &Accepted, local: &Local) -> Result<Vec<u8>, AllocError>
    requires { IsLocalOf (net_for accepted.now) local.now.role local.now }
    ensures { IfOk result (λ text. text.items ≡ role_json accepted.now local.now) }
{
    // Tells the proof that the protocol is accepted.
    let _protocol = accepted.protocol();
    let value = machine_value(alloc, accepted, local, local.role())?;
    line_of(alloc, &value)
}
