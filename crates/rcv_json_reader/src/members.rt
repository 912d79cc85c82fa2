// The members of a journal's value.

ghost use Rattle.std.specs.Prelude.{◌≡◌, codes, IfSome, IfNone};
ghost use Rattle.serde_json.specs.Data.{Data, Members, member, no_members, object};
ghost use Rattle.serde_json.specs.View.{members_view, view};
ghost use Rattle.rcv_json_reader.specs.Parts.{three_data};

use serde_json::Value;
use std::collections::btree_map::Iter;

// The values of the three members.
#[derive(Drop)]
pub(crate) struct JournalMembers<'a> {
    pub(crate) entries: &'a Value,
    pub(crate) limited: &'a Value,
    pub(crate) roles: &'a Value,
}

// The value of the next member, if that has this key.
fn next<'a>(members: &mut Iter<'a, String, Value>, key: &[u8]) -> Option<&'a Value>
    ensures some { IfSome result (λ v. members_view members.old
        ≡ member key.now (view v.now) (members_view members.new)) }
    ensures none { IfNone result ((d : Data) (rest : Members) → members_view members.old ≡ member key.now d rest → ⊥) }
{
    let (name, value) = members.next()?;
    if name.as_bytes() == key {
        Some(value)
    } else {
        None
    }
}

// The values of the members `entries`, `limited` and `roles`, if the value is an object of these alone.
pub(crate) fn members(value: &Value) -> Option<JournalMembers<'_>>
    ensures some { IfSome result (λ m. view value.now
        ≡ three_data (view m.entries.now) (view m.limited.now) (view m.roles.now)) }
    ensures none { IfNone result ((entries limited roles : Data) → view value.now ≡ three_data entries limited roles
        → ⊥) }
{
    let mut all = value.as_object()?.iter();
    // In order of their keys, as an object has them.
    let entries = next(&mut all, b"entries")?;
    let limited = next(&mut all, b"limited")?;
    let roles = next(&mut all, b"roles")?;
    if all.next().is_some() {
        return None;
    }
    Some(JournalMembers {
        entries,
        limited,
        roles,
    })
}
