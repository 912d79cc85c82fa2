// The points of an input's protocol as a line of JSON.

ghost use Rattle.std.specs.Prelude.{◌≡◌, ℕ, ◌+◌, ◌^◌, ◌<◌, false, length, IfOk};
ghost use Rattle.serde_json.specs.View.{view};
ghost use Rattle.serde_json.specs.Written.{has_float};
ghost use Rattle.rcv_model.specs.Text.{Body, body_of};
ghost use Rattle.rcv_model.specs.Form.{HasForm};
ghost use Rattle.rcv_model.specs.Places.{IsFullText};
ghost use Rattle.rcv_model.specs.Names.{HasNames};
ghost use Rattle.rcv_tree.specs.declared.refusal.TextError.TheVariants as errors;
ghost use Rattle.rcv_points.specs.Follow.{net_in};
ghost use Rattle.rcv_accept.specs.Accepted.{IsRefusedBy};
ghost use Rattle.rcv_input.specs.Input.{IsAcceptedOf};
ghost use Rattle.rcv_input.specs.Refusals.{IsFirstRefusal};
ghost use Rattle.rcv_input.specs.declared.refused.Refused.TheVariants.{Line};
ghost use Rattle.rcv_listing.specs.Unread.{LiesSaid};
ghost use Rattle.rcv_listing.specs.Listing.{IsSourceOf};
ghost use Rattle.rcv_export.specs.Pieces.{line_of};
ghost use Rattle.rcv_points_json.specs.PointsJson.{protocol_data, no_protocol_data, unread_data, refusal_data, IsSaidOf, IsJson};

use crate::point::points_value;
use crate::unread::{refusal_value, unread_value};
use rcv_accept::accept;
use rcv_accept::accepted::Accepted;
use rcv_export::line::line_of;
use rcv_export::words::{word_value, words_value};
use rcv_input::{InputError, Refused};
use rcv_listing::Listing;
use rcv_listing::parts::{unread_protocol, unread_rest};
use rcv_listing::read::{Source, read_source};
use rcv_listing::table::Table;
use rcv_listing::unread::Unread;
use rcv_points::filling::points_of;
use rcv_tree::refusal::{Refusal, TextError};
use serde_json::{Value, json};
use std::alloc::{AllocError, Global};

// A protocol with this name and these points, and what refuses it. Fails if memory runs out.
fn protocol_value(
    alloc: Global,
    table: &Table<'_>,
    name: &[u8],
    refused: Value,
) -> Result<Value, AllocError>
    ensures { IfOk result (λ value. view value ≡ protocol_data name.now table.now.roles.now
        (net_in table.now.points.now) table.now.lines.now (view refused)) }
{
    let points = points_value(alloc, table)?;
    let protocol = word_value(alloc, name)?;
    let roles = words_value(alloc, table.roles.as_slice())?;
    json!(in alloc; {"points": points, "protocol": protocol, "refused": refused, "roles": roles})
}

// Its line. Fails if memory runs out.
fn protocol_json(
    alloc: Global,
    table: &Table<'_>,
    name: &[u8],
    refused: Value,
) -> Result<Vec<u8>, AllocError>
    requires { has_float (view refused) ≡ false }
    ensures { IfOk result (λ text. text.items ≡ line_of (protocol_data name.now table.now.roles.now
        (net_in table.now.points.now) table.now.lines.now (view refused))) }
{
    let value = protocol_value(alloc, table, name, refused)?;
    line_of(alloc, &value)
}

// The line of one whose scripts or plan aren't read. Fails if memory runs out.
fn half_json(
    alloc: Global,
    input: &[u8],
    table: &Table<'_>,
    name: &[u8],
    unread: &Unread,
) -> Result<Vec<u8>, AllocError>
    requires { LiesSaid input.now unread.now }
    ensures { IfOk result (λ text. text.items ≡ line_of (protocol_data name.now table.now.roles.now
        (net_in table.now.points.now) table.now.lines.now (unread_data input.now unread.now))) }
{
    let refused = unread_value(alloc, input, unread)?;
    protocol_json(alloc, table, name, refused)
}

// The line of one that a rule refuses. Fails if memory runs out.
fn ruled_json(
    alloc: Global,
    table: &Table<'_>,
    name: &[u8],
    refusal: Refusal,
) -> Result<Vec<u8>, AllocError>
    requires { (body : Body) × (roles : ℕ) × IsRefusedBy body roles (errors.Refused refusal) }
    ensures { IfOk result (λ text. text.items ≡ line_of (protocol_data name.now table.now.roles.now
        (net_in table.now.points.now) table.now.lines.now (refusal_data table.now.roles.now refusal))) }
{
    let refused = refusal_value(alloc, table, refusal)?;
    protocol_json(alloc, table, name, refused)
}

// The line of an accepted protocol with these points. Fails if memory runs out.
fn accepted_json(
    alloc: Global,
    input: &[u8],
    table: &Table<'_>,
    accepted: &Accepted,
) -> Result<Listing, AllocError>
    requires short { length input.now + 8 < 2 ^ 32 }
    requires accepted { IsAcceptedOf input.now accepted.now.protocol }
    ensures { IfOk result (IsSaidOf input.now accepted.now.protocol table.now.roles.now
        (net_in table.now.points.now) table.now.lines.now) }
{
    let name = accepted.protocol().name.as_slice();
    match unread_rest(alloc, input, accepted)? {
        Some(unread) => {
            let text = half_json(alloc, input, table, name, &unread)?;
            Ok(Listing::HalfRead(text))
        }
        None => {
            let text = protocol_json(alloc, table, name, Value::Null)?;
            Ok(Listing::Accepted(text))
        }
    }
}

// The line of a protocol that was read. Fails if memory runs out.
fn json_of(alloc: Global, input: &[u8], source: Source) -> Result<Listing, AllocError>
    requires short { length input.now + 8 < 2 ^ 32 }
    requires source { IsSourceOf input.now source.protocol source.lines.items }
    requires form { HasForm (body_of source.protocol.body) (length source.protocol.roles) }
    requires full { IsFullText (body_of source.protocol.body) }
    requires names { HasNames source.protocol.roles (body_of source.protocol.body) }
    ensures { IfOk result (IsJson input.now) }
{
    let Source { protocol, lines } = source;
    // The protocol is gone if it isn't accepted.
    let name = Vec::from_slice(alloc, protocol.name.as_slice())?;
    let roles = protocol.roles.share()?;
    let points = points_of(alloc, &protocol)?;
    let table = Table {
        points: &points,
        roles: &roles,
        lines: lines.as_slice(),
    };
    match accept(alloc, protocol) {
        Ok(accepted) => {
            // Tells the proof that the protocol is accepted.
            let _protocol = accepted.protocol();
            accepted_json(alloc, input, &table, &accepted)
        }
        Err(TextError::Refused(refusal)) => {
            let text = ruled_json(alloc, &table, name.as_slice(), refusal)?;
            Ok(Listing::RuledOut(text))
        }
        Err(TextError::Memory) => Err(AllocError),
    }
}

// A protocol part that isn't read, and what refuses it. Fails if memory runs out.
fn no_protocol_value(alloc: Global, refused: Value) -> Result<Value, AllocError>
    ensures { IfOk result (λ value. view value ≡ no_protocol_data (view refused)) }
{
    json!(in alloc; {"points": [], "refused": refused, "roles": []})
}

// The line of a protocol part that isn't read, at this line, by this code. Fails if memory runs out.
fn unread_json(alloc: Global, input: &[u8], code: u8, line: u32) -> Result<Listing, AllocError>
    requires short { length input.now + 8 < 2 ^ 32 }
    requires first { IsFirstRefusal input.now (Line code line) }
    ensures { IfOk result (IsJson input.now) }
{
    let unread = unread_protocol(alloc, input, code, line)?;
    let refused = unread_value(alloc, input, &unread)?;
    let value = no_protocol_value(alloc, refused)?;
    let text = line_of(alloc, &value)?;
    Ok(Listing::Unread(text))
}

/// The points of the input's protocol as JSON, calls expanded, on one line: an object without spaces, its keys in order. Each
/// point has its line, and those of the calls through which it came, the outermost first. If the input is refused, `refused`
/// says by what: a rule of acceptance by its code and role, with the place or the point at which it fails; any other refusal
/// by its code and line, with what was found and what may stand there, if a token is wrong. Else it is null. A protocol that
/// isn't read has no name, no roles and no points. The input has fewer than 2^32 - 8 bytes. Fails if memory runs out.
pub fn points_json(alloc: Global, input: &[u8]) -> Result<Listing, AllocError>
    requires { length input.now + 8 < 2 ^ 32 }
    ensures { IfOk result (IsJson input.now) }
{
    match read_source(alloc, input) {
        Ok(source) => json_of(alloc, input, source),
        Err(InputError::Refused(Refused::Line { code, line })) => {
            unread_json(alloc, input, code, line)
        }
        Err(InputError::Refused(_)) => unreachable!(),
        Err(InputError::Memory) => Err(AllocError),
    }
}
