// Reads the plan part of an input.

ghost use Rattle.std.specs.Prelude.{◌≡◌, ◌+◌, ◌^◌, ◌<◌, ◌≤◌, length, IfOk, MatchResult};
ghost use Rattle.std.specs.List.{All};
ghost use Rattle.rcv_lexer.specs.Parts.{LiesIn, parts_of};
ghost use Rattle.rcv_plan.specs.Lines.{IsPlanned, HasReadCount};
ghost use Rattle.rcv_input.specs.Input.{IsPlanOf};
ghost use Rattle.rcv_input.specs.Refusals.{IsUnplanned};

use crate::place::line_at;
use rcv_accept::accepted::Accepted;
use rcv_lexer::token::Span;
use rcv_lexer::tokens;
use rcv_plan::plan::Plan;
use rcv_plan::read_plan;
use rcv_tree::refusal::TextError;
use std::alloc::Global;

/// The plan of the input's plan part, for the accepted protocol of its protocol part.
pub fn read_part(
    alloc: Global,
    input: &[u8],
    part: Span,
    accepted: &Accepted,
) -> Result<Plan, TextError>
    requires short { length input.now + 1 < 2 ^ 32 }
    requires inside { LiesIn input.now part }
    requires part { part ≡ (parts_of input.now).plan }
    ensures read { MatchResult result (IsPlanOf input.now accepted.now.protocol)
        (IsUnplanned input.now accepted.now.protocol) }
    ensures planned { IfOk result (IsPlanned (length accepted.now.protocol.roles)) }
    ensures counted { IfOk result (All HasReadCount) }
{
    let list = tokens(alloc, input, part)?;
    let last = line_at(input, part.end);
    read_plan(alloc, input, list.as_slice(), last, accepted)
}
