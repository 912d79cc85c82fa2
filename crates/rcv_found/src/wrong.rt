// What is wrong with a part: the code, what was found, and what may stand there.

ghost use Rattle.std.specs.Prelude.{◌≡◌, ◌+◌, ◌^◌, ◌<◌, ◌≤◌, length, take, IfOk, IfSome, MatchOption};
ghost use Rattle.std.specs.List.{All};
ghost use Rattle.rcv_lexer.specs.Parts.{LiesIn};
ghost use Rattle.rcv_found.specs.Stops.{IsTakenBy};
ghost use Rattle.rcv_found.specs.Spots.{IsWrongAt};
ghost use Rattle.rcv_found.specs.Seen.{grammar_in};

use crate::grammar::Grammar;
use crate::may::may_at;
use crate::spot::{Spot, spot_of};
use crate::stop::stop_at;
use crate::thing::Thing;
use rcv_lexer::token::Token;
use std::alloc::{AllocError, Global};

/// The first code of a part's table that holds, and where; and if it is the code of a token that the grammar doesn't
/// have there, what the grammar has.
#[derive(Drop)]
pub struct Wrong {
    pub code: u8,
    pub spot: Spot,
    pub may: Vec<Thing>,
}

// The tokens before this place.
fn front_of(list: &[Token], place: usize) -> &[Token]
    ensures { result.now ≡ take place list.now }
{
    if place < list.len() {
        &list[..place]
    } else {
        list
    }
}

/// What is wrong with the tokens of a part of the bundle that ends there; none if they are read. Fails if memory runs
/// out.
pub fn wrong_at(
    alloc: Global,
    grammar: &Grammar<'_>,
    bundle: &[u8],
    list: &[Token],
    end: usize,
) -> Result<Option<Wrong>, AllocError>
    requires short { length bundle.now + 8 < 2 ^ 32 }
    requires few { length list.now ≤ length bundle.now }
    requires inside { All (λ t. LiesIn bundle.now t.span) list.now }
    requires last { end ≤ length bundle.now }
    ensures lies { IfOk result (λ wrong. IfSome wrong (λ w. LiesIn bundle.now w.spot.span)) }
    ensures wrong { IfOk result (λ wrong. MatchOption wrong (IsTakenBy (grammar_in grammar.now) bundle.now list.now)
        (IsWrongAt (grammar_in grammar.now) bundle.now list.now end)) }
{
    let Some(stop) = stop_at(alloc, grammar, bundle, list)? else {
        return Ok(None);
    };
    let spot = spot_of(bundle, list, stop.place, end);
    let may = may_at(
        alloc,
        grammar,
        bundle,
        front_of(list, stop.place),
        stop.code,
    )?;
    Ok(Some(Wrong {
        code: stop.code,
        spot,
        may,
    }))
}
