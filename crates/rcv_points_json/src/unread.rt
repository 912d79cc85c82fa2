// What refuses an input, as a value.

ghost use Rattle.std.specs.Prelude.{◌≡◌, ℕ, IfOk};
ghost use Rattle.serde_json.specs.View.{view};
ghost use Rattle.rcv_model.specs.Text.{Body};
ghost use Rattle.rcv_lexer.specs.Parts.{LiesIn};
ghost use Rattle.rcv_tree.specs.declared.refusal.TextError.TheVariants as errors;
ghost use Rattle.rcv_accept.specs.Accepted.{IsRefusedBy};
ghost use Rattle.rcv_listing.specs.Unread.{LiesSaid};
ghost use Rattle.rcv_points_json.specs.PointsJson.{thing_data, may_data, wrong_data, plain_data, unread_data, rule_data, refusal_data};

use rcv_export::words::word_value;
use rcv_found::thing::Thing;
use rcv_found::wrong::Wrong;
use rcv_listing::found::write_thing;
use rcv_listing::shown::is_at_place;
use rcv_listing::table::Table;
use rcv_listing::unread::Unread;
use rcv_text::writer::Writer;
use rcv_tree::refusal::Refusal;
use rcv_tree::role::RoleId;
use serde_json::{Value, json};
use std::alloc::{AllocError, Global};

// What may stand somewhere. Fails if memory runs out.
fn thing_value(alloc: Global, thing: &Thing) -> Result<Value, AllocError>
    ensures { IfOk result (λ value. view value ≡ thing_data thing.now) }
{
    let mut text = Writer::new(alloc);
    write_thing(&mut text, thing)?;
    let said = text.finish();
    word_value(alloc, said.as_slice())
}

// Each of these things, in order. Fails if memory runs out.
fn may_value(alloc: Global, things: &[Thing]) -> Result<Value, AllocError>
    ensures { IfOk result (λ value. view value ≡ may_data things.now) }
{
    let mut list = Vec::new(alloc);
    for thing in things {
        list.push(thing_value(alloc, thing)?)?;
    }
    Ok(Value::Array(list))
}

// A refusal at a wrong token. Fails if memory runs out.
fn wrong_value(
    alloc: Global,
    input: &[u8],
    code: u8,
    line: u32,
    wrong: &Wrong,
) -> Result<Value, AllocError>
    requires { LiesIn input.now wrong.now.spot.span }
    ensures { IfOk result (λ value. view value ≡ wrong_data input.now code line wrong.now) }
{
    let spot = wrong.spot;
    let found = word_value(alloc, &input[spot.span.start..spot.span.end])?;
    let may = may_value(alloc, wrong.may.as_slice())?;
    json!(in alloc; {"code": code, "column": spot.column, "found": found, "line": line, "may": may})
}

// A refusal at a line, without more. Fails if memory runs out.
fn plain_value(alloc: Global, code: u8, line: u32) -> Result<Value, AllocError>
    ensures { IfOk result (λ value. view value ≡ plain_data code line) }
{
    json!(in alloc; {"code": code, "line": line})
}

/// The refusal of a part that isn't read. Fails if memory runs out.
pub fn unread_value(alloc: Global, input: &[u8], unread: &Unread) -> Result<Value, AllocError>
    requires { LiesSaid input.now unread.now }
    ensures { IfOk result (λ value. view value ≡ unread_data input.now unread.now) }
{
    match &unread.wrong {
        Some(wrong) => wrong_value(alloc, input, unread.code, unread.line, wrong),
        None => plain_value(alloc, unread.code, unread.line),
    }
}

// The refusal by the rule with this code. Fails if memory runs out.
fn rule_value(
    alloc: Global,
    table: &Table<'_>,
    code: u8,
    role: RoleId,
    number: u16,
) -> Result<Value, AllocError>
    ensures { IfOk result (λ value. view value ≡ rule_data table.now.roles.now code role number) }
{
    let name = word_value(alloc, table.name(role))?;
    if is_at_place(code) {
        json!(in alloc; {"code": code, "place": number, "role": name})
    } else {
        json!(in alloc; {"code": code, "point": number, "role": name})
    }
}

/// The refusal by a rule of acceptance. Fails if memory runs out.
pub fn refusal_value(
    alloc: Global,
    table: &Table<'_>,
    refusal: Refusal,
) -> Result<Value, AllocError>
    requires { (body : Body) × (roles : ℕ) × IsRefusedBy body roles (errors.Refused refusal) }
    ensures { IfOk result (λ value. view value ≡ refusal_data table.now.roles.now refusal) }
{
    match refusal {
        Refusal::Rule { code, role, point } => rule_value(alloc, table, code, role, point),
        _ => unreachable!(),
    }
}
