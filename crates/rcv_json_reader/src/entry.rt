// The entries that values say.

ghost use Rattle.std.specs.Prelude.{◌≡◌, ◌≤◌, ℕ, length, map, IfSome, IfNone};
ghost use Rattle.serde_json.specs.View.{view};
ghost use Rattle.rcv_tree.specs.declared.entry.Entry.{Entry};
ghost use Rattle.rcv_tree.specs.declared.entry.Entry.TheVariants.{Crash};
ghost use Rattle.rcv_model.specs.Names.{AreDifferent};
ghost use Rattle.rcv_journal.specs.Recorded.{bare};
ghost use Rattle.rcv_journal.specs.Json.{list_of};
ghost use Rattle.rcv_json_reader.specs.declared.entry.Recovery.{Recovery};
ghost use Rattle.rcv_json_reader.specs.Parts.{SaysEntry, SaysRecovery, recovered};

use crate::cuts::{Cuts, read_cuts};
use crate::event::{recv, send};
use crate::leaves::{is_text, items, role, short_count};
use rcv_accept::accepted::Accepted;
use rcv_tree::entry::Entry;
use rcv_tree::protocol::Protocol;
use rcv_tree::role::RoleId;
use serde_json::Value;

// Which role a Crash of two parts names.
fn crash(accepted: &Accepted, parts: &[Value]) -> Option<RoleId>
    requires { length parts.now ≡ 2 }
    ensures some { IfSome result (λ p. SaysEntry (bare accepted.now.protocol) (list_of (map view parts.now))
        (Crash p)) }
    ensures none { IfNone result ((p : ℕ) → SaysEntry (bare accepted.now.protocol) (list_of (map view parts.now))
        (Crash p) → ⊥) }
{
    if !is_text(&parts[0], b"crash") {
        return None;
    }
    role(accepted.protocol(), &parts[1])
}

// What a Recover says.
#[derive(Drop)]
struct Recovery {
    role: RoleId,
    undone: u32,
    cuts: Cuts,
}

// The recovery that these values say.
fn read_recovery(
    protocol: &Protocol,
    failed: &Value,
    number: &Value,
    pairs: &Value,
) -> Option<Recovery>
    requires few { length protocol.now.roles ≤ 8 }
    requires differ { AreDifferent protocol.now.roles }
    ensures some { IfSome result (SaysRecovery (bare protocol.now) (view failed.now) (view number.now)
        (view pairs.now)) }
    ensures none { IfNone result ((r : Recovery)
        → SaysRecovery (bare protocol.now) (view failed.now) (view number.now) (view pairs.now) r → ⊥) }
{
    Some(Recovery {
        role: role(protocol, failed)?,
        undone: short_count(number)?,
        cuts: read_cuts(protocol, pairs)?,
    })
}

// The Recover that four parts say.
fn recover(accepted: &Accepted, parts: &[Value]) -> Option<Recovery>
    requires { length parts.now ≡ 4 }
    ensures some { IfSome result (λ r. SaysEntry (bare accepted.now.protocol) (list_of (map view parts.now))
        (recovered r)) }
    ensures none { IfNone result ((r : Recovery)
        → SaysEntry (bare accepted.now.protocol) (list_of (map view parts.now)) (recovered r) → ⊥) }
{
    if !is_text(&parts[0], b"recover") {
        return None;
    }
    read_recovery(accepted.protocol(), &parts[1], &parts[2], &parts[3])
}

// The entry that the value says.
pub(crate) fn read_entry(accepted: &Accepted, value: &Value) -> Option<Entry>
    ensures some { IfSome result (λ e. SaysEntry (bare accepted.now.protocol) (view value.now) e) }
    ensures none { IfNone result ((e : Entry) → SaysEntry (bare accepted.now.protocol) (view value.now) e → ⊥) }
{
    let parts = items(value)?;
    match parts.len() {
        2 => Some(Entry::Crash(crash(accepted, parts)?)),
        4 => {
            let recovery = recover(accepted, parts)?;
            Some(Entry::Recover {
                role: recovery.role,
                concerned: recovery.cuts.concerned,
                kept: recovery.cuts.kept,
                undone: recovery.undone,
            })
        }
        6 => Some(Entry::Send(send(accepted, parts)?)),
        7 => Some(Entry::Recv(recv(accepted, parts)?)),
        _ => None,
    }
}
