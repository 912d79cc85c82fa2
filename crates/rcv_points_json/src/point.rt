// The points of a protocol as a value.

ghost use Rattle.std.specs.Prelude.{◌≡◌, ◌≤◌, ◌++◌, [], ◌∷◌, map, length, IfOk, OnOk};
ghost use Rattle.serde_json.specs.View.{view};
ghost use Rattle.rcv_points.specs.Follow.{net_in};
ghost use Rattle.rcv_export.specs.Pieces.{count, list_of};
ghost use Rattle.rcv_points_json.specs.PointsJson.{point_data, points_data};

use rcv_export::words::word_value;
use rcv_listing::table::Table;
use rcv_tree::point::Point;
use serde_json::{Value, json};
use std::alloc::{AllocError, Global};

// Lines, in order. Fails if memory runs out.
fn lines_value(alloc: Global, lines: &[u32]) -> Result<Value, AllocError>
    ensures { IfOk result (λ value. view value ≡ list_of (map count lines.now)) }
{
    let mut list = Vec::new(alloc);
    for line in lines {
        list.push(Value::from(*line))?;
    }
    Ok(Value::Array(list))
}

// A point of the text. Fails if memory runs out.
fn point_value(alloc: Global, table: &Table<'_>, point: Point) -> Result<Value, AllocError>
    requires first { 1 ≤ point }
    requires last { point ≤ length table.now.points.now.messages }
    ensures { IfOk result (λ value. view value
        ≡ point_data table.now.roles.now (net_in table.now.points.now) table.now.lines.now point) }
{
    let calls = lines_value(alloc, table.calls(point))?;
    let from = word_value(alloc, table.name(table.points.sender(point)))?;
    let label = word_value(alloc, table.points.label(point))?;
    let line = table.line(point);
    let to = word_value(alloc, table.name(table.points.receiver(point)))?;
    json!(in alloc; {"calls": calls, "from": from, "label": label, "line": line, "point": point.0, "to": to})
}

// Adds a point of the text. Fails if memory runs out.
fn push_point(
    list: &mut Vec<Value>,
    alloc: Global,
    table: &Table<'_>,
    point: Point,
) -> Result<(), AllocError>
    requires first { 1 ≤ point }
    requires last { point ≤ length table.now.points.now.messages }
    ensures { OnOk result (map view list.new.items ≡ map view list.old.items
        ++ point_data table.now.roles.now (net_in table.now.points.now) table.now.lines.now point ∷ []) }
{
    list.push(point_value(alloc, table, point)?)?;
    Ok(())
}

/// The points of the text, in order. Fails if memory runs out.
pub fn points_value(alloc: Global, table: &Table<'_>) -> Result<Value, AllocError>
    ensures { IfOk result (λ value. view value
        ≡ points_data table.now.roles.now (net_in table.now.points.now) table.now.lines.now) }
{
    let mut list = Vec::new(alloc);
    for before in 0..table.points.count() {
        push_point(&mut list, alloc, table, Point(before + 1))?;
    }
    Ok(Value::Array(list))
}
