// The whole text of what a session's crashes cost.

ghost use Rattle.std.specs.Prelude.{◌<◌, ◌≤◌, IfOk, length};
ghost use Rattle.rcv_costs.specs.Rehearsal.{DiffersInCrashes};
ghost use Rattle.rcv_costs.specs.Costs.{AreCosts};
ghost use Rattle.rcv_costs.specs.Named.{AreNamedCosts};
ghost use Rattle.rcv_losses.specs.LossText.{IsLossesText};

use crate::lines::text_of;
use rcv_core::setup::Setup;
use rcv_costs::{Costs, costs_of};
use std::alloc::{AllocError, Global};

/// What a session's crashes cost, as `costs_of` of rcv_costs counts it: of roles and points that the setup names as before.
/// The crash lines of the setup's plan don't count, and the setup gets a plan with another one instead. Fails if memory
/// runs out.
pub fn named_costs(alloc: Global, setup: &mut Setup) -> Result<Costs, AllocError>
    ensures costs { IfOk result (AreCosts setup.old) }
    ensures named { IfOk result (λ costs. AreNamedCosts setup.new costs.list.items) }
    ensures few { IfOk result (λ costs. length costs.list.items ≤ 800008) }
    ensures step { IfOk result (λ costs. 0 < costs.step) }
    ensures setup { DiffersInCrashes setup.old setup.new }
{
    let costs = costs_of(alloc, setup)?;
    // Tells the proof that the protocol is accepted.
    let _protocol = setup.protocol();
    Ok(costs)
}

/// The text of what a session's crashes cost: a line for each role and count, a line for each role, and the worst of
/// all. The crash lines of the setup's plan don't count, and the setup gets a plan with another one instead. Fails if
/// memory runs out.
pub fn losses_text(alloc: Global, setup: &mut Setup) -> Result<Vec<u8>, AllocError>
    ensures text { IfOk result (λ text. IsLossesText setup.old text.items) }
    ensures setup { DiffersInCrashes setup.old setup.new }
{
    let costs = named_costs(alloc, setup)?;
    let text = text_of(alloc, setup, &costs)?;
    Ok(text)
}
