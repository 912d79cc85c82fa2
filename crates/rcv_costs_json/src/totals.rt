// What the crashes of each role come to, and the worst of all, as values.

ghost use Rattle.std.specs.Prelude.{◌≡◌, ◌<◌, ◌^◌, length, map, IfOk};
ghost use Rattle.std.specs.List.{range_with_len};
ghost use Rattle.serde_json.specs.View.{view};
ghost use Rattle.rcv_session.specs.Session.{roles_of};
ghost use Rattle.rcv_costs_json.specs.CostsJson.{total_data, worst_count, worst_data};

use crate::failure::name_value;
use rcv_core::setup::Setup;
use rcv_costs::Cost;
use rcv_losses::totals::{kept_by, undone_by, worst_by};
use rcv_tree::role::RoleId;
use serde_json::{Value, json};
use std::alloc::{AllocError, Global};

// The count of the worst crash; null if there is none.
fn count_value(worst: &Option<Cost>) -> Value
    ensures { view result ≡ worst_count worst.now }
{
    match worst {
        None => Value::Null,
        Some(cost) => Value::from(cost.count),
    }
}

// What the crashes of a role come to.
fn total_value(
    alloc: Global,
    setup: &Setup,
    costs: &[Cost],
    role: RoleId,
) -> Result<Value, AllocError>
    requires { length costs.now < 2 ^ 32 }
    ensures { IfOk result (λ value. view value ≡ total_data setup.now costs.now role) }
{
    let name = name_value(alloc, setup, role)?;
    let kept = kept_by(costs, role);
    let undone = undone_by(costs, role);
    let worst = count_value(&worst_by(costs, role));
    json!(in alloc; {"kept": kept, "role": name, "undone": undone, "worst": worst})
}

/// The same of each role, in order. Fails if memory runs out.
pub fn totals(alloc: Global, setup: &Setup, costs: &[Cost]) -> Result<Vec<Value>, AllocError>
    requires { length costs.now < 2 ^ 32 }
    ensures { IfOk result (λ list. map view list.items
        ≡ map (total_data setup.now costs.now) (range_with_len 0 (roles_of setup.now))) }
{
    let mut list = Vec::new(alloc);
    for role in 0..setup.roles() {
        let value = total_value(alloc, setup, costs, RoleId(role))?;
        list.push(value)?;
    }
    Ok(list)
}

/// The worst crash of all; null if there is none. Fails if memory runs out.
pub fn worst_value(alloc: Global, setup: &Setup, worst: &Option<Cost>) -> Result<Value, AllocError>
    ensures { IfOk result (λ value. view value ≡ worst_data setup.now worst.now) }
{
    match worst {
        None => Ok(Value::Null),
        Some(cost) => {
            let role = name_value(alloc, setup, cost.role)?;
            json!(in alloc; {"count": cost.count, "role": role})
        }
    }
}
