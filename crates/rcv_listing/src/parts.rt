// The parts of an input that aren't read.

ghost use Rattle.std.specs.Prelude.{◌≡◌, ◌+◌, ◌^◌, ◌<◌, length, IfOk, IfSome, MatchOption};
ghost use Rattle.rcv_input.specs.Input.{IsAcceptedOf};
ghost use Rattle.rcv_input.specs.Refusals.{IsFirstRefusal};
ghost use Rattle.rcv_input.specs.declared.refused.Refused.TheVariants.{Line};
ghost use Rattle.rcv_listing.specs.Unread.{IsUnread, IsHalfRead, LiesSaid};
ghost use Rattle.rcv_listing.specs.Listing.{AreRestRead};

use crate::unread::{Unread, unread_in};
use rcv_accept::accepted::Accepted;
use rcv_found::grammar::Grammar;
use rcv_lexer::split;
use std::alloc::{AllocError, Global};

/// What is said of a protocol part that isn't read, or whose calls are refused: at this line, by this code.
#[tactic(auto, using(crate::proofs::Unreading::protocol_uncalled))]
pub fn unread_protocol(
    alloc: Global,
    input: &[u8],
    code: u8,
    line: u32,
) -> Result<Unread, AllocError>
    requires short { length input.now + 8 < 2 ^ 32 }
    requires first { IsFirstRefusal input.now (Line code line) }
    ensures unread { IfOk result (IsUnread input.now) }
    ensures lies { IfOk result (LiesSaid input.now) }
{
    let found = unread_in(alloc, &Grammar::Protocol, input, split(input).protocol)?;
    match found {
        Some(unread) => Ok(unread),
        None => Ok(Unread {
            code,
            line,
            wrong: None,
        }),
    }
}

/// What is said of the scripts and the plan of an accepted protocol; none if both are read.
pub fn unread_rest(
    alloc: Global,
    input: &[u8],
    accepted: &Accepted,
) -> Result<Option<Unread>, AllocError>
    requires short { length input.now + 8 < 2 ^ 32 }
    requires accepted { IsAcceptedOf input.now accepted.now.protocol }
    ensures rest { IfOk result (λ unread. MatchOption unread (AreRestRead input.now accepted.now.protocol)
        (IsHalfRead input.now accepted.now.protocol)) }
    ensures lies { IfOk result (λ unread. IfSome unread (LiesSaid input.now)) }
{
    let parts = split(input);
    let scripts = unread_in(alloc, &Grammar::Scripts(accepted), input, parts.scripts)?;
    match scripts {
        Some(unread) => Ok(Some(unread)),
        None => unread_in(alloc, &Grammar::Plan(accepted), input, parts.plan),
    }
}
