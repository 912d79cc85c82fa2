// Reads a plan.

ghost use Rattle.std.specs.Prelude.{◌≡◌, ◌≤◌, [], length, MatchResult, IfOk, IfErr, OnOk};
ghost use Rattle.std.specs.List.{All};
ghost use Rattle.rcv_lexer.specs.Parts.{LiesIn};
ghost use Rattle.rcv_plan.specs.Symbols.{symbols_of};
ghost use Rattle.rcv_accept.specs.Accepted.{roles_of};
ghost use Rattle.rcv_plan.specs.Lines.{IsPlanned, HasReadCount};
ghost use Rattle.rcv_plan.specs.Refusing.{IsRead, IsRefused};
ghost use Rattle.rcv_plan.specs.Refusing.{Ends};

use crate::fault::PlanError;
use crate::known::Known;
use crate::plan::Plan;
use crate::reader::Reader;
use rcv_accept::accepted::Accepted;
use rcv_lexer::token::Token;
use rcv_lexer::{Ahead, line_before};
use rcv_tree::name::Names;
use rcv_tree::refusal::{Refusal, TextError};
use std::alloc::Global;

// Takes all items.
fn items<'a>(
    alloc: Global,
    reader: &mut Reader<'a>,
    roles: &Names,
    known: &mut Known<'a>,
) -> Result<(), PlanError>
    requires few { length roles.now ≤ 8 }
    requires fresh { (known.old.lines ≡ []) × (known.old.names ≡ []) }
    ensures ok { OnOk result (IsRead roles.now reader.old.rest known.new.lines) }
    ensures planned { OnOk result (IsPlanned (length roles.now) known.new.lines) }
    ensures counted { OnOk result (All HasReadCount known.new.lines) }
    ensures err { IfErr result (λ e. Ends roles.now e reader.old.rest reader.new.rest) }
{
    while !reader.rest.is_empty() {
        reader.item(alloc, roles, known)?;
    }
    Ok(())
}

/// The plan that the tokens of a part of the bundle say, for an accepted protocol. `last` is the line of the part's
/// end. A part without tokens is the plan without lines.
///
/// Refused at the first token at which a code holds, or at the part's end, with the least code at it and its line:
/// - 40: the grammar doesn't have the token or the end there.
/// - 41: a role that isn't declared.
/// - 42: the first word of a second `every` of one role, or of a second `limit` or `room`; the number of a `crash` line
///   that stands before; the name of a host that stands before; or a role that stands before in a host.
/// - 43: a number that isn't in its range. The range is 1 to 100,000 for `every` and `limit`, 0 to 100,000 for `crash`,
///   and 1 to 1,024 for `room`.
///
/// `Memory` if no memory is left.
pub fn read_plan(
    alloc: Global,
    bundle: &[u8],
    list: &[Token],
    last: u32,
    accepted: &Accepted,
) -> Result<Plan, TextError>
    requires inside { All (λ t. LiesIn bundle.now t.span) list.now }
    ensures read { MatchResult result (IsRead accepted.now.protocol.roles (symbols_of bundle.now list.now))
        (IsRefused bundle.now list.now last accepted.now.protocol.roles) }
    ensures planned { IfOk result (IsPlanned (roles_of accepted.now)) }
    ensures counted { IfOk result (All HasReadCount) }
{
    let mut reader = Reader {
        rest: Ahead::new(bundle, list),
    };
    let mut known = Known::new(alloc);
    match items(alloc, &mut reader, &accepted.protocol().roles, &mut known) {
        Ok(()) => Ok(Plan::of(alloc, accepted.roles(), known.into_lines())?),
        Err(PlanError::Memory) => Err(TextError::Memory),
        Err(PlanError::Refused(fault)) => Err(TextError::Refused(Refusal::Text {
            code: fault.code(),
            line: line_before(list, last, reader.rest.len()),
        })),
    }
}
