// Reads the scripts part of an input.

ghost use Rattle.std.specs.Prelude.{◌≡◌, ◌+◌, ◌^◌, ◌<◌, ◌≤◌, length, IfOk, MatchResult};
ghost use Rattle.rcv_script.specs.Scripts.{AreScriptsFor};
ghost use Rattle.rcv_lexer.specs.Parts.{LiesIn, parts_of};
ghost use Rattle.rcv_input.specs.Input.{AreScriptsOf};
ghost use Rattle.rcv_input.specs.Refusals.{IsUnscripted};

use crate::place::line_at;
use rcv_accept::accepted::Accepted;
use rcv_lexer::token::Span;
use rcv_lexer::tokens;
use rcv_script::read_scripts;
use rcv_script::scripts::Scripts;
use rcv_tree::refusal::TextError;
use std::alloc::Global;

/// The scripts of the input's scripts part, for the accepted protocol of its protocol part.
pub fn read_part(
    alloc: Global,
    input: &[u8],
    part: Span,
    accepted: &Accepted,
) -> Result<Scripts, TextError>
    requires short { length input.now + 1 < 2 ^ 32 }
    requires inside { LiesIn input.now part }
    requires part { part ≡ (parts_of input.now).scripts }
    ensures read { MatchResult result
        (λ scripts. AreScriptsOf input.now accepted.now.protocol scripts.lines)
        (IsUnscripted input.now accepted.now.protocol) }
    ensures belong { IfOk result (AreScriptsFor accepted.now.protocol) }
{
    let list = tokens(alloc, input, part)?;
    let last = line_at(input, part.end);
    read_scripts(alloc, input, list.as_slice(), last, accepted)
}
