// Texts, numbers and lists of a value that was read.

ghost use Rattle.std.specs.Prelude.{◌≡◌, ◌<◌, ◌≤◌, ◌^◌, ℕ, ℤ, List, length, true, false};
ghost use Rattle.std.specs.Prelude.{FitsSigned, map, IfSome, IfNone};
ghost use Rattle.serde_json.specs.Data.{Data, number, string};
ghost use Rattle.serde_json.specs.Find.{of_integer};
ghost use Rattle.serde_json.specs.View.{view};
ghost use Rattle.rcv_tree.specs.Names.{name_at};
ghost use Rattle.rcv_journal.specs.Json.{count, list_of};
ghost use mir.Syntax.{w64};

use rcv_tree::protocol::Protocol;
use rcv_tree::role::RoleId;
use serde_json::Value;

/// The whole number, if the value is one and isn't negative.
pub(crate) fn count(value: &Value) -> Option<u64>
    ensures some { IfSome result (λ n. view value.now ≡ count n) }
    ensures none { IfNone result ((n : ℕ) → view value.now ≡ count n → ⊥) }
{
    value.as_u64()
}

/// The whole number of 32 bits, if the value is one.
pub(crate) fn short_count(value: &Value) -> Option<u32>
    ensures some { IfSome result (λ n. view value.now ≡ count n) }
    ensures none { IfNone result ((n : ℕ) → n < 2 ^ 32 → view value.now ≡ count n → ⊥) }
{
    u32::try_from(count(value)?).ok()
}

/// The signed number, if the value is a whole one of 64 bits.
pub(crate) fn signed(value: &Value) -> Option<i64>
    ensures some { IfSome result (λ z. view value.now ≡ number (of_integer z)) }
    ensures none { IfNone result ((z : ℤ) → FitsSigned w64 z → view value.now ≡ number (of_integer z) → ⊥) }
{
    match count(value) {
        Some(n) => i64::try_from(n).ok(),
        None => value.as_i64().filter(|z| *z < 0),
    }
}

/// Whether the value is this text.
pub(crate) fn is_text(value: &Value, text: &[u8]) -> bool
    ensures some { result ≡ true → view value.now ≡ string text.now }
    ensures none { result ≡ false → view value.now ≡ string text.now → ⊥ }
{
    match value.as_str() {
        Some(other) => other.as_bytes() == text,
        None => false,
    }
}

/// The items, if the value is a list.
pub(crate) fn items(value: &Value) -> Option<&[Value]>
    ensures some { IfSome result (λ list. view value.now ≡ list_of (map view list.now)) }
    ensures none { IfNone result ((list : List Data) → view value.now ≡ list_of list → ⊥) }
{
    Some(value.as_array()?.as_slice())
}

/// The role whose name the value is.
pub(crate) fn role(protocol: &Protocol, value: &Value) -> Option<RoleId>
    requires { length protocol.now.roles ≤ 8 }
    ensures declared { IfSome result (λ r. r < length protocol.now.roles) }
    ensures some { IfSome result (λ r. view value.now ≡ string (name_at protocol.now.roles r)) }
    ensures none { IfNone result ((r : ℕ) → r < length protocol.now.roles
        → view value.now ≡ string (name_at protocol.now.roles r) → ⊥) }
{
    let names = protocol.roles.as_slice();
    let place = names
        .iter()
        .position(|name| is_text(value, name.as_slice()))?;
    Some(RoleId(place as u8))
}
