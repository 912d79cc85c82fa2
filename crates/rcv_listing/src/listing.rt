// The text of a protocol's points.

ghost use Rattle.std.specs.Prelude.{◌≡◌, ◌+◌, ◌^◌, ◌<◌, length, IfOk};
ghost use Rattle.rcv_model.specs.Text.{body_of};
ghost use Rattle.rcv_model.specs.Form.{HasForm};
ghost use Rattle.rcv_model.specs.Places.{IsFullText};
ghost use Rattle.rcv_model.specs.Names.{HasNames};
ghost use Rattle.rcv_input.specs.Input.{IsAcceptedOf};
ghost use Rattle.rcv_input.specs.Refusals.{IsFirstRefusal};
ghost use Rattle.rcv_input.specs.declared.refused.Refused.TheVariants.{Line};
ghost use Rattle.rcv_listing.specs.Listing.{IsSourceOf, IsListedAs, IsListing, IsListingOf};

use crate::parts::{unread_protocol, unread_rest};
use crate::read::{Source, read_source};
use crate::table::Table;
use crate::told::write_refusal;
use crate::unread::write_unread;
use rcv_accept::accept;
use rcv_accept::accepted::Accepted;
use rcv_input::{InputError, Refused};
use rcv_points::filling::points_of;
use rcv_text::writer::Writer;
use rcv_tree::name::Names;
use rcv_tree::refusal::TextError;
use std::alloc::{AllocError, Global};

/// The points of a protocol as text, a line for each in text order, or as JSON.
#[derive(Drop)]
pub enum Listing {
    /// No rule of acceptance refuses the protocol, and its scripts and its plan are read.
    Accepted(Vec<u8>),
    /// A rule refuses it: what the refusal says stands with the points.
    RuledOut(Vec<u8>),
    /// The scripts or the plan are refused: what the refusal says stands with the points.
    HalfRead(Vec<u8>),
    /// The protocol isn't read: there are no points, and only what the refusal says.
    Unread(Vec<u8>),
}

// The listing of an accepted protocol. This text has its points.
fn listed(
    alloc: Global,
    input: &[u8],
    text: Writer,
    accepted: &Accepted,
) -> Result<Listing, AllocError>
    requires short { length input.now + 8 < 2 ^ 32 }
    requires accepted { IsAcceptedOf input.now accepted.now.protocol }
    ensures { IfOk result (IsListedAs input.now accepted.now.protocol text) }
{
    let mut text = text;
    match unread_rest(alloc, input, accepted)? {
        Some(unread) => {
            text.word(b"\n")?;
            write_unread(alloc, &mut text, input, &unread)?;
            Ok(Listing::HalfRead(text.finish()))
        }
        None => Ok(Listing::Accepted(text.finish())),
    }
}

// The listing of a protocol that was read.
fn listing_of(alloc: Global, input: &[u8], source: Source) -> Result<Listing, AllocError>
    requires short { length input.now + 8 < 2 ^ 32 }
    requires source { IsSourceOf input.now source.protocol source.lines.items }
    requires form { HasForm (body_of source.protocol.body) (length source.protocol.roles) }
    requires full { IsFullText (body_of source.protocol.body) }
    requires names { HasNames source.protocol.roles (body_of source.protocol.body) }
    ensures { IfOk result (IsListingOf input.now source.protocol source.lines.items) }
{
    let Source { protocol, lines } = source;
    // The protocol is gone if it isn't accepted.
    let roles = protocol.roles.share()?;
    let points = points_of(alloc, &protocol)?;
    let table = Table {
        points: &points,
        roles: &roles,
        lines: lines.as_slice(),
    };
    let mut text = Writer::new(alloc);
    table.write_all(&mut text)?;
    match accept(alloc, protocol) {
        Ok(accepted) => {
            // Tells the proof that the protocol is accepted.
            let _protocol = accepted.protocol();
            listed(alloc, input, text, &accepted)
        }
        Err(TextError::Refused(refusal)) => {
            write_refusal(alloc, &mut text, &table, refusal)?;
            Ok(Listing::RuledOut(text.finish()))
        }
        Err(TextError::Memory) => Err(AllocError),
    }
}

// What is said of a protocol that isn't read, at this line, by this code.
fn unread_listing(alloc: Global, input: &[u8], code: u8, line: u32) -> Result<Listing, AllocError>
    requires short { length input.now + 8 < 2 ^ 32 }
    requires first { IsFirstRefusal input.now (Line code line) }
    ensures { IfOk result (IsListing input.now) }
{
    let unread = unread_protocol(alloc, input, code, line)?;
    let mut text = Writer::new(alloc);
    write_unread(alloc, &mut text, input, &unread)?;
    Ok(Listing::Unread(text.finish()))
}

/// The points of the input's protocol, calls expanded, with their lines and those of the calls through which they came; and
/// what the input's first refusal says, if there is one: of a rule of acceptance with the points at which it fails, of any
/// other with what was found and what may stand there. The input has fewer than 2^32 - 8 bytes. Fails if memory runs out.
pub fn points_text(alloc: Global, input: &[u8]) -> Result<Listing, AllocError>
    requires { length input.now + 8 < 2 ^ 32 }
    ensures { IfOk result (IsListing input.now) }
{
    match read_source(alloc, input) {
        Ok(source) => listing_of(alloc, input, source),
        Err(InputError::Refused(Refused::Line { code, line })) => {
            unread_listing(alloc, input, code, line)
        }
        Err(InputError::Refused(_)) => unreachable!(),
        Err(InputError::Memory) => Err(AllocError),
    }
}
