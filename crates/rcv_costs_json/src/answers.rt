// The JSON of what a session's crashes cost.

ghost use Rattle.std.specs.Prelude.{IfOk};
ghost use Rattle.rcv_costs.specs.Rehearsal.{DiffersInCrashes};
ghost use Rattle.rcv_costs_json.specs.CostsJson.{IsCostsJson};

use crate::whole::costs_json;
use rcv_core::setup::Setup;
use rcv_losses::named_costs;
use std::alloc::{AllocError, Global};

/// What a session's crashes cost as JSON, on one line: an object without spaces, its keys in order. The crash lines of the
/// setup's plan don't count, and the setup gets a plan with another one instead. Its time grows with the square of the
/// session's events, as that of `costs_of` of rcv_costs. Fails if memory runs out.
pub fn failures_json(alloc: Global, setup: &mut Setup) -> Result<Vec<u8>, AllocError>
    ensures json { IfOk result (λ text. IsCostsJson setup.old text.items) }
    ensures setup { DiffersInCrashes setup.old setup.new }
{
    let costs = named_costs(alloc, setup)?;
    let text = costs_json(alloc, setup, &costs)?;
    Ok(text)
}
