// All that crashes cost as one value, and its line.

ghost use Rattle.std.specs.Prelude.{◌≡◌, ◌<◌, ◌^◌, length, IfOk};
ghost use Rattle.serde_json.specs.View.{view};
ghost use Rattle.rcv_export.specs.ReadBack.{IsReadAs};
ghost use Rattle.rcv_costs.specs.Named.{AreNamedCosts};
ghost use Rattle.rcv_costs_json.specs.CostsJson.{costs_data, costs_json};
ghost use Rattle.rcv_costs_json.specs.Told.{FitNumbers};

use crate::failure::failures;
use crate::totals::{totals, worst_value};
use rcv_core::setup::Setup;
use rcv_costs::Costs;
use rcv_export::line::line_of;
use rcv_export::words::{word_value, words_value};
use rcv_losses::totals::worst_of;
use serde_json::{Value, json};
use std::alloc::{AllocError, Global};

// The costs of a session as a value.
fn costs_value(alloc: Global, setup: &Setup, costs: &Costs) -> Result<Value, AllocError>
    requires named { AreNamedCosts setup.now costs.now.list.items }
    requires few { length costs.now.list.items < 2 ^ 32 }
    ensures value { IfOk result (λ value. view value ≡ costs_data setup.now costs.now) }
    ensures fit { IfOk result (λ _. FitNumbers costs.now) }
{
    let list = costs.list.as_slice();
    let protocol = setup.protocol();
    let failures = failures(alloc, setup, list)?;
    let name = word_value(alloc, protocol.name.as_slice())?;
    let roles = words_value(alloc, protocol.roles.as_slice())?;
    let totals = totals(alloc, setup, list)?;
    let worst = worst_value(alloc, setup, &worst_of(list))?;
    json!(in alloc; {
        "failures": failures,
        "protocol": name,
        "roles": roles,
        "step": costs.step,
        "totals": totals,
        "worst": worst
    })
}

/// Costs that were counted for a session as JSON, on one line: an object without spaces, its keys in order. It has an
/// element for each cost, in order, what the crashes of each role come to, and the worst of all. It is read as the
/// value of the costs. Fails if memory runs out.
pub fn costs_json(alloc: Global, setup: &Setup, costs: &Costs) -> Result<Vec<u8>, AllocError>
    requires named { AreNamedCosts setup.now costs.now.list.items }
    requires few { length costs.now.list.items < 2 ^ 32 }
    ensures json { IfOk result (λ text. text.items ≡ costs_json setup.now costs.now) }
    ensures read { IfOk result (λ text. IsReadAs text.items (costs_data setup.now costs.now)) }
{
    let value = costs_value(alloc, setup, costs)?;
    let text = line_of(alloc, &value)?;
    Ok(text)
}
