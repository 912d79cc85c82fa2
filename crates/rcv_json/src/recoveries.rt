// Crashes and recoveries as values.

ghost use Rattle.std.specs.Prelude.{◌≡◌, ◌<◌, ◌++◌, map, IfOk, OnOk};
ghost use Rattle.serde_json.specs.View.{view};
ghost use Rattle.rcv_tree.specs.declared.entry.Entry.TheVariants.{Crash, Recover};
ghost use Rattle.rcv_session.specs.Session.{roles_of};
ghost use Rattle.rcv_journal.specs.Json.{cut_data, cuts_data, entry_data};

use crate::texts::role_text;
use rcv_core::setup::Setup;
use rcv_tree::role::{RoleId, RoleSet};
use serde_json::{Value, json};
use std::alloc::{AllocError, Global};

/// A declared role's crash: `["crash",ROLE]`. Fails if memory runs out.
pub fn crash_value(alloc: Global, setup: &Setup, role: RoleId) -> Result<Value, AllocError>
    requires { role < roles_of setup.now }
    ensures { IfOk result (λ value. view value ≡ entry_data setup.now (Crash role)) }
{
    json!(in alloc; ["crash", role_text(setup, role)])
}

// What a recovery says of one role.
fn push_cut(
    list: &mut Vec<Value>,
    alloc: Global,
    setup: &Setup,
    role: RoleId,
    concerned: RoleSet,
    kept: &[u32; 8],
) -> Result<(), AllocError>
    requires declared { role < roles_of setup.now }
    requires few { role < 8 }
    ensures { OnOk result (map view list.new.items ≡ map view list.old.items
        ++ cut_data setup.now concerned.0 kept.now role) }
{
    if !concerned.has(role) {
        return Ok(());
    }
    let name = role_text(setup, role);
    list.push(json!(in alloc; [name, kept[role.0 as usize]])?)?;
    Ok(())
}

// What a recovery says of the concerned roles.
#[tactic(auto, using(crate::proofs::Lists::said_of_one_more))]
fn cuts(
    alloc: Global,
    setup: &Setup,
    concerned: RoleSet,
    kept: &[u32; 8],
) -> Result<Vec<Value>, AllocError>
    ensures { IfOk result (λ list. map view list.items
        ≡ cuts_data setup.now concerned.0 kept.now (roles_of setup.now)) }
{
    let mut list = Vec::new(alloc);
    for role in 0..setup.protocol().roles.as_slice().len() {
        push_cut(&mut list, alloc, setup, RoleId(role as u8), concerned, kept)?;
    }
    Ok(list)
}

/// A recovery of a declared role: `["recover",ROLE,UNDONE,[[ROLE,KEPT],..]]`, with a pair for each concerned role.
/// Fails if memory runs out.
pub fn recovery_value(
    alloc: Global,
    setup: &Setup,
    role: RoleId,
    concerned: RoleSet,
    kept: &[u32; 8],
    undone: u32,
) -> Result<Value, AllocError>
    requires { role < roles_of setup.now }
    ensures { IfOk result (λ value. view value
        ≡ entry_data setup.now (Recover role concerned kept.now undone)) }
{
    let cuts = cuts(alloc, setup, concerned, kept)?;
    json!(in alloc; ["recover", role_text(setup, role), undone, cuts])
}
