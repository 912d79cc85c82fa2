// Reads the protocol part of an input, and has its protocol accepted.

ghost use Rattle.std.specs.Prelude.{◌≡◌, ◌+◌, ◌^◌, ◌<◌, ◌≤◌, length, slice_get, Some, IfOk, MatchResult};
ghost use Rattle.rcv_model.specs.Form.{HasForm};
ghost use Rattle.rcv_model.specs.Names.{HasNames};
ghost use Rattle.rcv_model.specs.Places.{IsFullText};
ghost use Rattle.rcv_model.specs.Text.{body_of};
ghost use Rattle.rcv_lexer.specs.Parts.{LiesIn, parts_of};
ghost use Rattle.rcv_input.specs.Input.{IsProtocolOf, AreOriginsIn};
ghost use Rattle.rcv_input.specs.Refusals.{IsUnread, IsRule, SaysRule, IsRuledOut};

use crate::place::line_at;
use crate::refused::{InputError, Refused};
use rcv_accept::accept;
use rcv_accept::accepted::Accepted;
use rcv_do::{call_depths, expand_traced};
use rcv_lexer::token::Span;
use rcv_lexer::tokens;
use rcv_module::Origins;
use rcv_reader::read_module;
use rcv_tree::name::{Name, Names};
use rcv_tree::protocol::Protocol;
use rcv_tree::refusal::{Refusal, TextError};
use rcv_tree::role::RoleId;
use std::alloc::{AllocError, Global};

/// A protocol, where its points come from, and in how many inner blocks of its protocol's text each call of the module
/// stands.
#[derive(Drop)]
pub struct Source {
    pub protocol: Protocol,
    pub origins: Origins,
    pub depths: Vec<u8>,
}

/// The protocol of the input's protocol part: the first one of its module, with its calls expanded.
pub fn read_part(alloc: Global, input: &[u8], part: Span) -> Result<Source, TextError>
    requires short { length input.now + 1 < 2 ^ 32 }
    requires inside { LiesIn input.now part }
    requires part { part ≡ (parts_of input.now).protocol }
    ensures read { MatchResult result (λ s. IsProtocolOf input.now s.protocol) (IsUnread input.now) }
    ensures origins { IfOk result (λ s. AreOriginsIn input.now s.origins) }
    ensures form { IfOk result (λ s. HasForm (body_of s.protocol.body) (length s.protocol.roles)) }
{
    let list = tokens(alloc, input, part)?;
    let last = line_at(input, part.end);
    let whole = read_module(alloc, input, list.as_slice(), last)?;
    let depths = call_depths(alloc, &whole)?;
    let (protocol, origins) = expand_traced(alloc, whole)?;
    Ok(Source {
        protocol,
        origins,
        depths,
    })
}

// The name of a role, copied. Fails if memory runs out.
fn name_of(alloc: Global, names: &Names, role: RoleId) -> Result<Name, AllocError>
    requires { role < length names.now }
    ensures { IfOk result (λ name. slice_get names.now role ≡ Some name) }
{
    Name::of(alloc, names.as_slice()[role.0 as usize].as_slice())
}

// The refusal by a rule, with the name of its role. Fails if memory runs out.
fn ruled_out(alloc: Global, roles: &Names, refusal: Refusal) -> Result<Refused, AllocError>
    requires { IsRule roles.now refusal }
    ensures { IfOk result (SaysRule roles.now refusal) }
{
    match refusal {
        Refusal::Rule { code, role, point } => Ok(Refused::Rule {
            code,
            role: name_of(alloc, roles, role)?,
            number: point,
        }),
        _ => unreachable!(),
    }
}

/// The protocol, which is of the reader's form, as an accepted one, or the refusal by a rule of acceptance.
pub fn accepted_of(alloc: Global, protocol: Protocol) -> Result<Accepted, InputError>
    requires form { HasForm (body_of protocol.body) (length protocol.roles) }
    requires full { IsFullText (body_of protocol.body) }
    requires names { HasNames protocol.roles (body_of protocol.body) }
    ensures { MatchResult result (λ a. a.protocol ≡ protocol) (IsRuledOut protocol) }
{
    // The protocol is gone if it isn't accepted.
    let roles = protocol.roles.share()?;
    match accept(alloc, protocol) {
        Ok(accepted) => Ok(accepted),
        Err(TextError::Refused(refusal)) => {
            Err(InputError::Refused(ruled_out(alloc, &roles, refusal)?))
        }
        Err(TextError::Memory) => Err(InputError::Memory),
    }
}
