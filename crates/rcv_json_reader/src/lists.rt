// The three lists of a journal: its entries, the lines of the roles, and the roles at the limit.

ghost use Rattle.std.specs.Prelude.{◌≡◌, ◌≤◌, ℕ, List, length, IfOk, IfErr};
ghost use Rattle.serde_json.specs.View.{view};
ghost use Rattle.rcv_tree.specs.declared.entry.Entry.{Entry};
ghost use Rattle.rcv_model.specs.Names.{AreDifferent};
ghost use Rattle.rcv_journal.specs.declared.line.RoleLine.{RoleLine};
ghost use Rattle.rcv_journal.specs.Recorded.{bare};
ghost use Rattle.rcv_json_reader.specs.declared.error.JsonError.TheVariants.{Shape};
ghost use Rattle.rcv_json_reader.specs.Parts.{SaysEntries, SaysLimited, SaysLines};

use crate::entry::read_entry;
use crate::error::JsonError;
use crate::leaves::{items, role};
use crate::lines::read_line;
use rcv_accept::accepted::Accepted;
use rcv_journal::line::RoleLine;
use rcv_tree::entry::Entry;
use rcv_tree::protocol::Protocol;
use rcv_tree::role::RoleId;
use serde_json::Value;
use std::alloc::Global;

// The entries that the value lists.
pub(crate) fn read_entries(
    alloc: Global,
    accepted: &Accepted,
    value: &Value,
) -> Result<Vec<Entry>, JsonError>
    ensures ok { IfOk result (λ found. SaysEntries (bare accepted.now.protocol) (view value.now) found.items) }
    ensures shape { IfErr result (λ e. e ≡ Shape → (entries : List Entry)
        → SaysEntries (bare accepted.now.protocol) (view value.now) entries → ⊥) }
{
    let parts = items(value).ok_or(JsonError::Shape)?;
    let mut found = Vec::new(alloc);
    for part in parts {
        found.push(read_entry(accepted, part).ok_or(JsonError::Shape)?)?;
    }
    Ok(found)
}

// The lines that the value lists, one for each role, in order.
pub(crate) fn read_lines(
    alloc: Global,
    protocol: &Protocol,
    value: &Value,
) -> Result<Vec<RoleLine>, JsonError>
    requires few { length protocol.now.roles ≤ 8 }
    ensures ok { IfOk result (λ found. SaysLines (bare protocol.now) (view value.now) found.items) }
    ensures shape { IfErr result (λ e. e ≡ Shape → (lines : List RoleLine)
        → SaysLines (bare protocol.now) (view value.now) lines → ⊥) }
{
    let parts = items(value).ok_or(JsonError::Shape)?;
    if parts.len() != protocol.roles.as_slice().len() {
        return Err(JsonError::Shape);
    }
    let mut found = Vec::new(alloc);
    for place in 0..parts.len() {
        let line = read_line(protocol, RoleId(place as u8), &parts[place]);
        found.push(line.ok_or(JsonError::Shape)?)?;
    }
    Ok(found)
}

// The declared roles that the value names, ascending.
pub(crate) fn read_limited(
    alloc: Global,
    protocol: &Protocol,
    value: &Value,
) -> Result<Vec<RoleId>, JsonError>
    requires few { length protocol.now.roles ≤ 8 }
    requires differ { AreDifferent protocol.now.roles }
    ensures ok { IfOk result (λ found. SaysLimited (bare protocol.now) (view value.now) found.items) }
    ensures shape { IfErr result (λ e. e ≡ Shape → (limited : List ℕ)
        → SaysLimited (bare protocol.now) (view value.now) limited → ⊥) }
{
    let parts = items(value).ok_or(JsonError::Shape)?;
    let mut found = Vec::new(alloc);
    // The least role that may come next.
    let mut least = 0;
    for part in parts {
        let role = role(protocol, part).ok_or(JsonError::Shape)?;
        if role.0 < least {
            return Err(JsonError::Shape);
        }
        found.push(role)?;
        least = role.0 + 1;
    }
    Ok(found)
}
