// The recovery table of a protocol as JSON.

ghost use Rattle.std.specs.Prelude.{◌≡◌, ◌<◌, ◌≤◌, ◌++◌, length, map, IfOk, OnOk};
ghost use Rattle.serde_json.specs.View.{view};
ghost use Rattle.rcv_accept.specs.Accepted.{roles_of, net_for};
ghost use Rattle.rcv_tables.specs.Rows.{IsTable, rows_at, row_at};
ghost use Rattle.rcv_export.specs.TableJson.{restarts_data, concerned_data, concerned_list, failure_data, start_data};
ghost use Rattle.rcv_export.specs.TableJson.{role_failures, failures_data, table_data, table_json};

use crate::line::line_of;
use crate::text::{count, owns};
use crate::words::{points_value, role_value, word_value, words_value};
use rcv_accept::accepted::Accepted;
use rcv_tables::table::Table;
use rcv_tree::point::Point;
use rcv_tree::role::RoleId;
use serde_json::{Value, json};
use std::alloc::{AllocError, Global};

// Another role with the points at which it restarts. Fails if memory runs out.
fn restarts_value(
    alloc: Global,
    accepted: &Accepted,
    table: &Table,
    role: RoleId,
    point: Point,
    other: RoleId,
) -> Result<Value, AllocError>
    requires role { role < length table.now.rows }
    requires point { point < length (rows_at table.now role) }
    requires few { other < 8 }
    requires row { length (row_at table.now role point).restarts ≡ 8 }
    ensures { IfOk result (λ value. view value
        ≡ restarts_data accepted.now.protocol.roles (row_at table.now role point) other) }
{
    let name = role_value(alloc, &accepted.protocol().roles, other)?;
    let restarts = points_value(alloc, table.restarts(role, point, other))?;
    json!(in alloc; {"restarts": restarts, "role": name})
}

// Adds another role, if it is concerned. Fails if memory runs out.
fn push_concerned(
    list: &mut Vec<Value>,
    alloc: Global,
    accepted: &Accepted,
    table: &Table,
    role: RoleId,
    point: Point,
    other: RoleId,
) -> Result<(), AllocError>
    requires role { role < length table.now.rows }
    requires point { point < length (rows_at table.now role) }
    requires few { other < 8 }
    requires row { length (row_at table.now role point).restarts ≡ 8 }
    ensures { OnOk result (map view list.new.items ≡ map view list.old.items
        ++ concerned_data accepted.now.protocol.roles (row_at table.now role point) other) }
{
    if table.concerned(role, point).has(other) {
        list.push(restarts_value(alloc, accepted, table, role, point, other)?)?;
    }
    Ok(())
}

// The concerned roles of a start, in order. Fails if memory runs out.
fn concerned(
    alloc: Global,
    accepted: &Accepted,
    table: &Table,
    role: RoleId,
    point: Point,
) -> Result<Vec<Value>, AllocError>
    requires role { role < length table.now.rows }
    requires point { point < length (rows_at table.now role) }
    requires row { length (row_at table.now role point).restarts ≡ 8 }
    requires few { roles_of accepted.now ≤ 8 }
    ensures { IfOk result (λ list. map view list.items
        ≡ concerned_list accepted.now.protocol.roles (row_at table.now role point)) }
{
    let mut list = Vec::new(alloc);
    for number in 0..accepted.roles() {
        push_concerned(
            &mut list,
            alloc,
            accepted,
            table,
            role,
            point,
            RoleId(number),
        )?;
    }
    Ok(list)
}

// A start: a role and its point, with the concerned roles. Fails if memory runs out.
fn failure_value(
    alloc: Global,
    accepted: &Accepted,
    table: &Table,
    role: RoleId,
    point: Point,
) -> Result<Value, AllocError>
    requires role { role < length table.now.rows }
    requires point { point < length (rows_at table.now role) }
    requires row { length (row_at table.now role point).restarts ≡ 8 }
    requires few { roles_of accepted.now ≤ 8 }
    ensures { IfOk result (λ value. view value
        ≡ failure_data accepted.now.protocol.roles role point (row_at table.now role point)) }
{
    let concerned = concerned(alloc, accepted, table, role, point)?;
    let name = role_value(alloc, &accepted.protocol().roles, role)?;
    json!(in alloc; {"concerned": concerned, "point": point.0, "role": name})
}

// Adds a start, if the point is the role's. Fails if memory runs out.
fn push_start(
    list: &mut Vec<Value>,
    alloc: Global,
    accepted: &Accepted,
    table: &Table,
    role: RoleId,
    point: Point,
) -> Result<(), AllocError>
    requires role { role < roles_of accepted.now }
    requires few { roles_of accepted.now ≤ 8 }
    requires first { 1 ≤ point }
    requires last { point ≤ (net_for accepted.now).count }
    requires table { IsTable (net_for accepted.now) (roles_of accepted.now) table.now }
    ensures { OnOk result (map view list.new.items ≡ map view list.old.items
        ++ start_data (net_for accepted.now) accepted.now.protocol.roles table.now role point) }
{
    if owns(accepted, role, point) {
        list.push(failure_value(alloc, accepted, table, role, point)?)?;
    }
    Ok(())
}

// Adds the starts of a role, by its points. Fails if memory runs out.
fn push_starts(
    list: &mut Vec<Value>,
    alloc: Global,
    accepted: &Accepted,
    table: &Table,
    role: RoleId,
) -> Result<(), AllocError>
    requires role { role < roles_of accepted.now }
    requires few { roles_of accepted.now ≤ 8 }
    requires table { IsTable (net_for accepted.now) (roles_of accepted.now) table.now }
    ensures { OnOk result (map view list.new.items ≡ map view list.old.items
        ++ role_failures (net_for accepted.now) accepted.now.protocol.roles table.now role) }
{
    for before in 0..count(accepted) {
        push_start(list, alloc, accepted, table, role, Point(before + 1))?;
    }
    Ok(())
}

// The starts of all roles. Fails if memory runs out.
fn failures(alloc: Global, accepted: &Accepted, table: &Table) -> Result<Vec<Value>, AllocError>
    requires few { roles_of accepted.now ≤ 8 }
    requires table { IsTable (net_for accepted.now) (roles_of accepted.now) table.now }
    ensures { IfOk result (λ list. map view list.items
        ≡ failures_data (net_for accepted.now) accepted.now.protocol.roles table.now) }
{
    let mut list = Vec::new(alloc);
    for number in 0..accepted.roles() {
        push_starts(&mut list, alloc, accepted, table, RoleId(number))?;
    }
    Ok(list)
}

// The table as a value. Fails if memory runs out.
fn table_value(alloc: Global, accepted: &Accepted, table: &Table) -> Result<Value, AllocError>
    requires few { roles_of accepted.now ≤ 8 }
    requires table { IsTable (net_for accepted.now) (roles_of accepted.now) table.now }
    ensures { IfOk result (λ value. view value ≡ table_data accepted.now table.now) }
{
    let protocol = accepted.protocol();
    let failures = failures(alloc, accepted, table)?;
    let name = word_value(alloc, protocol.name.as_slice())?;
    let roles = words_value(alloc, protocol.roles.as_slice())?;
    json!(in alloc; {"failures": failures, "protocol": name, "roles": roles})
}

/// The recovery table of a protocol as JSON, on one line: an object without spaces, its keys in order, with an element
/// for each role in order and each of its points, ascending. The element says which roles go back if that role fails
/// and this point is the first that it lost, and at which points each may restart. The table is the protocol's. Fails
/// if memory runs out.
pub fn table_json(alloc: Global, accepted: &Accepted, table: &Table) -> Result<Vec<u8>, AllocError>
    requires { IsTable (net_for accepted.now) (roles_of accepted.now) table.now }
    ensures { IfOk result (λ text. text.items ≡ table_json accepted.now table.now) }
{
    // Tells the proof that the protocol is accepted.
    let _protocol = accepted.protocol();
    let value = table_value(alloc, accepted, table)?;
    line_of(alloc, &value)
}
