// Reads an input.

ghost use Rattle.std.specs.Prelude.{◌+◌, ◌^◌, ◌<◌, length, MatchResult, IfOk};
ghost use Rattle.std.specs.List.{All};
ghost use Rattle.rcv_script.specs.Scripts.{AreScriptsFor};
ghost use Rattle.rcv_plan.specs.Lines.{IsPlanned, HasReadCount};
ghost use Rattle.rcv_input.specs.Input.{AreOriginsIn, IsTaken};
ghost use Rattle.rcv_input.specs.Refusals.{IsRefused};

use crate::protocol::accepted_of;
use crate::refused::{InputError, at_line};
use crate::{plan, protocol, script};
use rcv_accept::accepted::Accepted;
use rcv_lexer::split;
use rcv_module::Origins;
use rcv_plan::plan::Plan;
use rcv_script::scripts::Scripts;
use std::alloc::Global;

/// What an input is taken as: an accepted protocol, the scripts of its roles, and a plan; and where the protocol's
/// points come from in the text of its module, and in how many inner blocks each call of the module stands.
#[derive(Drop)]
pub struct Input {
    pub accepted: Accepted,
    pub origins: Origins,
    pub depths: Vec<u8>,
    pub scripts: Scripts,
    pub plan: Plan,
}

/// The accepted protocol, the scripts and the plan that the input's text says. The input has fewer than 2^32 - 1 bytes.
///
/// Refused with the first of these that holds:
/// - 10 at a bad letter of the protocol part;
/// - 11 to 19 and 29 if the reader refuses the module;
/// - 13 and 52 to 54 at the first call at which one holds;
/// - 12 and then 18 if the expansion is too large;
/// - 20 to 26 and 28 if a rule of acceptance fails, at a role and a number;
/// - 10 at a bad letter of the scripts;
/// - 30 to 36 if the scripts are refused;
/// - 10 at a bad letter of the plan;
/// - 40 to 43 if the plan is refused.
///
/// docs/FORMATS.md lists the codes. `Memory` if no memory is left.
pub fn read_input(alloc: Global, input: &[u8]) -> Result<Input, InputError>
    requires { length input.now + 1 < 2 ^ 32 }
    ensures taken { MatchResult result
        (λ x. IsTaken input.now (record { protocol = x.accepted.protocol; scripts = x.scripts.lines; plan = x.plan }))
        (IsRefused input.now) }
    ensures origins { IfOk result (λ x. AreOriginsIn input.now x.origins) }
    ensures belong { IfOk result (λ x. AreScriptsFor x.accepted.protocol x.scripts) }
    ensures planned { IfOk result (λ x. IsPlanned (length x.accepted.protocol.roles) x.plan) }
    ensures counted { IfOk result (λ x. All HasReadCount x.plan) }
{
    let parts = split(input);
    let source = match protocol::read_part(alloc, input, parts.protocol) {
        Ok(source) => source,
        Err(error) => return Err(at_line(error)),
    };
    let accepted = accepted_of(alloc, source.protocol)?;
    let scripts = match script::read_part(alloc, input, parts.scripts, &accepted) {
        Ok(scripts) => scripts,
        Err(error) => return Err(at_line(error)),
    };
    let plan = match plan::read_part(alloc, input, parts.plan, &accepted) {
        Ok(plan) => plan,
        Err(error) => return Err(at_line(error)),
    };
    Ok(Input {
        accepted,
        origins: source.origins,
        depths: source.depths,
        scripts,
        plan,
    })
}
