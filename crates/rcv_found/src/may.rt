// What may stand after tokens: it tries each thing of the grammar there.

ghost use Rattle.std.specs.Prelude.{◌≡◌, ◌+◌, ◌^◌, ◌<◌, ◌≤◌, ◌∷◌, [], List, length, true, false, Some, IfOk, OnOk};
ghost use Rattle.std.specs.List.{All};
ghost use Rattle.rcv_lexer.specs.Parts.{LiesIn};
ghost use Rattle.rcv_found.specs.May.{IsNotHad, MayStand, AreThose, SoFar, things_of};
ghost use Rattle.rcv_found.specs.Stops.{token_code};
ghost use Rattle.rcv_found.specs.Things.{ThingView, any_name};
ghost use Rattle.rcv_found.specs.Trial.{bytes_with, tokens_with};
ghost use Rattle.rcv_found.specs.Seen.{grammar_in};

use crate::grammar::Grammar;
use crate::stop::{Stop, stop_at};
use crate::tables::{plan_things, protocol_things, script_things};
use crate::thing::Thing;
use rcv_lexer::token::Token;
use std::alloc::{AllocError, Global};

// The bundle with a thing after it.
fn bytes_with(alloc: Global, bundle: &[u8], thing: &Thing) -> Result<Vec<u8>, AllocError>
    ensures text { IfOk result (λ text. text.items ≡ bytes_with bundle.now thing.now) }
    ensures short { IfOk result (λ text. length text.items ≤ length bundle.now + 8) }
{
    let mut text = Vec::from_slice(alloc, bundle)?;
    text.extend_from_slice(thing.bytes())?;
    Ok(text)
}

// The tokens, and after them that of a thing, whose bytes stand after the bundle.
fn tokens_with(
    alloc: Global,
    bundle: &[u8],
    text: &[u8],
    front: &[Token],
    thing: &Thing,
) -> Result<Vec<Token>, AllocError>
    requires short { length text.now < 2 ^ 32 }
    requires text { text.now ≡ bytes_with bundle.now thing.now }
    ensures { IfOk result (λ list. list.items ≡ tokens_with bundle.now front.now thing.now) }
{
    let mut list = Vec::from_slice(alloc, front)?;
    if let Some(kind) = thing.kind() {
        list.push(Token::new(kind, bundle.len() as u32, text.len() as u32, 0))?;
    }
    Ok(list)
}

// Whether the text isn't refused at this place by the code of a token that the grammar doesn't have.
fn is_had(grammar: &Grammar<'_>, stop: Option<Stop>, place: usize) -> bool
    ensures no { result ≡ false → (s : Stop) × (stop ≡ Some s) × (s.code ≡ token_code (grammar_in grammar.now)) × (s.place ≡ place) }
    ensures yes { result ≡ true → (s : Stop) → stop ≡ Some s → s.code ≡ token_code (grammar_in grammar.now) → s.place ≡ place → ⊥ }
{
    match stop {
        Some(stop) => stop.code != grammar.token_code() || stop.place != place,
        None => true,
    }
}

// Whether the grammar has the thing after these tokens.
fn has(
    alloc: Global,
    grammar: &Grammar<'_>,
    bundle: &[u8],
    front: &[Token],
    thing: &Thing,
) -> Result<bool, AllocError>
    requires short { length bundle.now + 8 < 2 ^ 32 }
    requires few { length front.now + 1 < 2 ^ 32 }
    requires inside { All (λ t. LiesIn bundle.now t.span) front.now }
    ensures no { IfOk result (λ had. had ≡ false → IsNotHad (grammar_in grammar.now) bundle.now front.now thing.now) }
    ensures yes { IfOk result (λ had. had ≡ true → IsNotHad (grammar_in grammar.now) bundle.now front.now thing.now → ⊥) }
{
    let text = bytes_with(alloc, bundle, thing)?;
    let bytes = text.as_slice();
    let list = tokens_with(alloc, bundle, bytes, front, thing)?;
    let stop = stop_at(alloc, grammar, bytes, list.as_slice())?;
    Ok(is_had(grammar, stop, front.len()))
}

// Whether to list a thing, if the grammar has any name there (`named`), or has none.
fn may_stand(
    alloc: Global,
    grammar: &Grammar<'_>,
    bundle: &[u8],
    front: &[Token],
    thing: &Thing,
    named: bool,
) -> Result<bool, AllocError>
    requires short { length bundle.now + 8 < 2 ^ 32 }
    requires few { length front.now + 1 < 2 ^ 32 }
    requires inside { All (λ t. LiesIn bundle.now t.span) front.now }
    requires named { named ≡ true → IsNotHad (grammar_in grammar.now) bundle.now front.now any_name → ⊥ }
    requires unnamed { named ≡ false → IsNotHad (grammar_in grammar.now) bundle.now front.now any_name }
    ensures yes { IfOk result (λ may. may ≡ true → MayStand (grammar_in grammar.now) bundle.now front.now thing.now) }
    ensures no { IfOk result (λ may. may ≡ false → MayStand (grammar_in grammar.now) bundle.now front.now thing.now → ⊥) }
{
    if thing.is_free() && named {
        return Ok(false);
    }
    has(alloc, grammar, bundle, front, thing)
}

// Adds the next thing to those so far, if it may stand there. The things after it only tell the proof where it stands.
#[tactic(auto, using(crate::proofs::Listing::one_listed, crate::proofs::Listing::one_left_out))]
fn add_if_it_may(
    alloc: Global,
    grammar: &Grammar<'_>,
    bundle: &[u8],
    front: &[Token],
    thing: &Thing,
    after: &[Thing],
    named: bool,
    may: &mut Vec<Thing>,
) -> Result<(), AllocError>
    requires short { length bundle.now + 8 < 2 ^ 32 }
    requires few { length front.now + 1 < 2 ^ 32 }
    requires inside { All (λ t. LiesIn bundle.now t.span) front.now }
    requires named { named ≡ true → IsNotHad (grammar_in grammar.now) bundle.now front.now any_name → ⊥ }
    requires unnamed { named ≡ false → IsNotHad (grammar_in grammar.now) bundle.now front.now any_name }
    ensures { OnOk result ((things : List ThingView)
        → SoFar (grammar_in grammar.now) bundle.now front.now things may.old.items (thing.now ∷ after.now)
        → SoFar (grammar_in grammar.now) bundle.now front.now things may.new.items after.now) }
{
    let _after = after;
    if may_stand(alloc, grammar, bundle, front, thing, named)? {
        may.push(thing.copy())?;
    }
    Ok(())
}

// Those of these things that may stand there.
fn listed(
    alloc: Global,
    grammar: &Grammar<'_>,
    bundle: &[u8],
    front: &[Token],
    things: &[Thing],
) -> Result<Vec<Thing>, AllocError>
    requires short { length bundle.now + 8 < 2 ^ 32 }
    requires few { length front.now + 1 < 2 ^ 32 }
    requires inside { All (λ t. LiesIn bundle.now t.span) front.now }
    ensures { IfOk result (λ may. AreThose (grammar_in grammar.now) bundle.now front.now things.now may.items) }
{
    let named = has(alloc, grammar, bundle, front, &Thing::name())?;
    let mut may = Vec::new(alloc);
    let mut rest = things;
    while let [thing, after @ ..] = rest {
        add_if_it_may(alloc, grammar, bundle, front, thing, after, named, &mut may)?;
        rest = after;
    }
    Ok(may)
}

/// What may stand after these tokens, if a text is refused there by this code. Nothing, unless it is the code of a
/// token that the grammar doesn't have.
pub fn may_at(
    alloc: Global,
    grammar: &Grammar<'_>,
    bundle: &[u8],
    front: &[Token],
    code: u8,
) -> Result<Vec<Thing>, AllocError>
    requires short { length bundle.now + 8 < 2 ^ 32 }
    requires few { length front.now + 1 < 2 ^ 32 }
    requires inside { All (λ t. LiesIn bundle.now t.span) front.now }
    ensures may { IfOk result (λ may. code ≡ token_code (grammar_in grammar.now)
        → AreThose (grammar_in grammar.now) bundle.now front.now (things_of (grammar_in grammar.now)) may.items) }
    ensures no_more { IfOk result (λ may. (code ≡ token_code (grammar_in grammar.now) → ⊥) → may.items ≡ []) }
{
    if code == grammar.token_code() {
        what_may_stand(alloc, grammar, bundle, front)
    } else {
        Ok(Vec::new(alloc))
    }
}

/// What may stand after these tokens: each word, mark and kind of the grammar with which the text isn't refused there
/// by the code of a token that the grammar doesn't have; in the table's order. Fails if memory runs out.
pub fn what_may_stand(
    alloc: Global,
    grammar: &Grammar<'_>,
    bundle: &[u8],
    front: &[Token],
) -> Result<Vec<Thing>, AllocError>
    requires short { length bundle.now + 8 < 2 ^ 32 }
    requires few { length front.now + 1 < 2 ^ 32 }
    requires inside { All (λ t. LiesIn bundle.now t.span) front.now }
    ensures { IfOk result (λ may. AreThose (grammar_in grammar.now) bundle.now front.now (things_of (grammar_in grammar.now)) may.items) }
{
    match grammar {
        Grammar::Protocol => listed(alloc, grammar, bundle, front, &protocol_things()),
        Grammar::Scripts(_) => listed(alloc, grammar, bundle, front, &script_things()),
        Grammar::Plan(_) => listed(alloc, grammar, bundle, front, &plan_things()),
    }
}
