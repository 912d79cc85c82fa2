// One crash, and what it costs, as a value.

ghost use Rattle.std.specs.Prelude.{◌≡◌, ◌++◌, ◌<◌, ◌^◌, map, IfOk, OnOk};
ghost use Rattle.std.specs.List.{All};
ghost use Rattle.serde_json.specs.Data.{put};
ghost use Rattle.serde_json.specs.View.{view, members_view};
ghost use Rattle.rcv_session.specs.Session.{roles_of};
ghost use Rattle.rcv_costs.specs.Named.{IsNamedPoint, IsNamedCost, AreNamedCosts};
ghost use Rattle.rcv_costs_json.specs.CostsJson.{name_data, label_data, concerned_data, concerned_list, failure_data};
ghost use Rattle.rcv_costs_json.specs.CostsJson.{with_losses, with_numbers};
ghost use Rattle.rcv_export.specs.Pieces.{count};
ghost use Rattle.rcv_costs_json.specs.Told.{FitsNumbers};

use rcv_core::setup::Setup;
use rcv_costs::Cost;
use rcv_export::words::{role_value, word_value};
use rcv_tree::point::Point;
use rcv_tree::role::{RoleId, RoleSet};
use serde_json::{Map, Value, put};
use std::alloc::{AllocError, Global};

/// The name of a role. Fails if memory runs out.
pub fn name_value(alloc: Global, setup: &Setup, role: RoleId) -> Result<Value, AllocError>
    ensures { IfOk result (λ value. view value ≡ name_data setup.now role) }
{
    role_value(alloc, &setup.protocol().roles, role)
}

// The label of a point of the text; null if there is none.
fn label_value(alloc: Global, setup: &Setup, point: Option<Point>) -> Result<Value, AllocError>
    requires { IsNamedPoint setup.now point }
    ensures { IfOk result (λ value. view value ≡ label_data setup.now point) }
{
    match point {
        None => Ok(Value::Null),
        Some(point) => word_value(alloc, setup.label(point)),
    }
}

// Adds the name of a declared role, if it is concerned.
fn push_concerned(
    list: &mut Vec<Value>,
    alloc: Global,
    setup: &Setup,
    concerned: RoleSet,
    role: RoleId,
) -> Result<(), AllocError>
    requires { role < roles_of setup.now }
    ensures { OnOk result (map view list.new.items
        ≡ map view list.old.items ++ concerned_data setup.now concerned.0 role) }
{
    // Tells the proof that there are few roles.
    let _roles = setup.roles();
    if concerned.has(role) {
        list.push(name_value(alloc, setup, role)?)?;
    }
    Ok(())
}

// The names of the concerned roles, in order.
fn concerned(alloc: Global, setup: &Setup, concerned: RoleSet) -> Result<Vec<Value>, AllocError>
    ensures { IfOk result (λ list. map view list.items ≡ concerned_list setup.now concerned.0) }
{
    let mut list = Vec::new(alloc);
    for role in 0..setup.roles() {
        push_concerned(&mut list, alloc, setup, concerned, RoleId(role))?;
    }
    Ok(list)
}

// Adds a number under this key, or puts it there.
fn put_number(
    members: &mut Map<String, Value>,
    alloc: Global,
    key: &str,
    number: u64,
) -> Result<(), AllocError>
    ensures { OnOk result (members_view members.new.entries
        ≡ put key.now (count number) (members_view members.old.entries)) }
{
    put(members, alloc, key, Value::from(number))
}

// Adds how much is lost.
fn put_losses(
    members: &mut Map<String, Value>,
    alloc: Global,
    cost: &Cost,
) -> Result<(), AllocError>
    ensures { OnOk result (members_view members.new.entries
        ≡ with_losses cost.now (members_view members.old.entries)) }
{
    put_number(members, alloc, "kept", cost.kept)?;
    put_number(members, alloc, "lost", cost.lost)?;
    put_number(members, alloc, "undone", cost.undone as u64)
}

// Adds all numbers.
fn put_numbers(
    members: &mut Map<String, Value>,
    alloc: Global,
    cost: &Cost,
) -> Result<(), AllocError>
    ensures { OnOk result (members_view members.new.entries
        ≡ with_numbers cost.now (members_view members.old.entries)) }
{
    put_number(members, alloc, "again", cost.again)?;
    put_number(members, alloc, "count", cost.count as u64)?;
    put_losses(members, alloc, cost)
}

// One crash of a declared role between events at points of the text, and what it costs.
fn failure_value(alloc: Global, setup: &Setup, cost: &Cost) -> Result<Value, AllocError>
    requires { IsNamedCost setup.now cost.now }
    ensures { IfOk result (λ value. view value ≡ failure_data setup.now cost.now) }
{
    let after = label_value(alloc, setup, cost.before)?;
    let before = label_value(alloc, setup, cost.after)?;
    let names = concerned(alloc, setup, cost.concerned)?;
    let role = name_value(alloc, setup, cost.role)?;
    let mut members = Map::new(alloc);
    put(&mut members, alloc, "after", after)?;
    put(&mut members, alloc, "before", before)?;
    put(&mut members, alloc, "concerned", Value::Array(names))?;
    put(&mut members, alloc, "role", role)?;
    put_numbers(&mut members, alloc, cost)?;
    Ok(Value::Object(members))
}

// Tells the proof which numbers fit into the types.
fn fit(count: u32, lost: u64, undone: u32, kept: u64, again: u64)
    ensures count { count < 2 ^ 32 }
    ensures lost { lost < 2 ^ 64 }
    ensures undone { undone < 2 ^ 32 }
    ensures kept { kept < 2 ^ 64 }
    ensures again { again < 2 ^ 64 }
{}

// Tells the proof that the numbers of a cost do.
fn cost_fits(cost: &Cost)
    ensures { FitsNumbers cost.now }
{
    fit(cost.count, cost.lost, cost.undone, cost.kept, cost.again);
}

/// All crashes of declared roles between events at points of the text, in order. Fails if memory runs out.
pub fn failures(alloc: Global, setup: &Setup, costs: &[Cost]) -> Result<Vec<Value>, AllocError>
    requires { AreNamedCosts setup.now costs.now }
    ensures values { IfOk result (λ list. map view list.items ≡ map (failure_data setup.now) costs.now) }
    ensures fit { IfOk result (λ _. All FitsNumbers costs.now) }
{
    let mut list = Vec::new(alloc);
    for cost in costs {
        cost_fits(cost);
        let value = failure_value(alloc, setup, cost)?;
        list.push(value)?;
    }
    Ok(list)
}
