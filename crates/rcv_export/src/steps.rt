// The steps of a role: points that it sends or receives.

ghost use Rattle.std.specs.Prelude.{◌≡◌, ◌≤◌, map, IfOk};
ghost use Rattle.serde_json.specs.View.{view};
ghost use Rattle.rcv_accept.specs.Accepted.{net_for, text_of};
ghost use Rattle.rcv_project.specs.Act.{AreInText};
ghost use Rattle.rcv_export.specs.Messages.{sorts_in, sorts_at};
ghost use Rattle.rcv_export.specs.Pieces.{list_of};
ghost use Rattle.rcv_export.specs.RoleJson.{step_data};

use crate::text::{label, peer};
use crate::words::{role_value, word_value, words_value};
use rcv_accept::accepted::Accepted;
use rcv_tree::event::Dir;
use rcv_tree::name::{Name, Names};
use rcv_tree::point::Point;
use serde_json::{Value, json};
use std::alloc::{AllocError, Global};

// The sorts of a point of the text.
fn sorts_at<'a>(accepted: &Accepted, sorts: &'a [Names], point: Point) -> &'a [Name]
    requires sorts { sorts.now ≡ sorts_in (text_of accepted.now) }
    requires first { 1 ≤ point }
    requires last { point ≤ (net_for accepted.now).count }
    ensures { result.now ≡ sorts_at (text_of accepted.now) point }
{
    // Tells the proof that the protocol is accepted.
    let _protocol = accepted.protocol();
    sorts[point.0 as usize - 1].as_slice()
}

// A point that the role sends or receives. Fails if memory runs out.
fn step_value(
    alloc: Global,
    accepted: &Accepted,
    sorts: &[Names],
    dir: Dir,
    point: Point,
) -> Result<Value, AllocError>
    requires sorts { sorts.now ≡ sorts_in (text_of accepted.now) }
    requires first { 1 ≤ point }
    requires last { point ≤ (net_for accepted.now).count }
    ensures { IfOk result (λ value. view value ≡ step_data accepted.now dir point) }
{
    let label = word_value(alloc, label(accepted, point))?;
    let peer = role_value(
        alloc,
        &accepted.protocol().roles,
        peer(accepted, dir, point),
    )?;
    let sorts = sorts_at(accepted, sorts, point);
    let names = words_value(alloc, sorts)?;
    let value = !sorts.is_empty();
    json!(in alloc; {"label": label, "peer": peer, "point": point.0, "sorts": names, "value": value})
}

/// The points that a role sends or receives, in order. Fails if memory runs out.
pub fn steps_value(
    alloc: Global,
    accepted: &Accepted,
    sorts: &[Names],
    dir: Dir,
    points: &[Point],
) -> Result<Value, AllocError>
    requires sorts { sorts.now ≡ sorts_in (text_of accepted.now) }
    requires points { AreInText (net_for accepted.now) points.now }
    ensures { IfOk result (λ value. view value ≡ list_of (map (step_data accepted.now dir) points.now)) }
{
    let mut list = Vec::new(alloc);
    for point in points {
        list.push(step_value(alloc, accepted, sorts, dir, *point)?)?;
    }
    Ok(Value::Array(list))
}
