// A journal that is read of a JSON text.

ghost use Rattle.std.specs.Prelude.{◌≡◌, IfOk, IfErr};
ghost use Rattle.serde_json.specs.View.{view};
ghost use Rattle.rcv_journal.specs.Recorded.{JournalView, bare};
ghost use Rattle.rcv_json_reader.specs.declared.error.JsonError.TheVariants.{Shape};
ghost use Rattle.rcv_json_reader.specs.Parts.{SaysJournal};
ghost use Rattle.rcv_json_reader.specs.Reading.{IsReadAs};

use crate::error::JsonError;
use crate::lists::{read_entries, read_limited, read_lines};
use crate::members::members;
use rcv_accept::accepted::Accepted;
use rcv_journal::recorded::Journal;
use serde_json::Value;
use std::alloc::Global;

// The journal that the value says.
fn journal(alloc: Global, accepted: &Accepted, value: &Value) -> Result<Journal, JsonError>
    ensures ok { IfOk result (λ j. SaysJournal (bare accepted.now.protocol) (view value.now) j) }
    ensures shape { IfErr result (λ e. e ≡ Shape → (j : JournalView)
        → SaysJournal (bare accepted.now.protocol) (view value.now) j → ⊥) }
{
    let members = members(value).ok_or(JsonError::Shape)?;
    let protocol = accepted.protocol();
    Ok(Journal {
        entries: read_entries(alloc, accepted, members.entries)?,
        limited: read_limited(alloc, protocol, members.limited)?,
        roles: read_lines(alloc, protocol, members.roles)?,
    })
}

/// The journal of the form that a JSON text says, of any spacing and any order of its keys. It answers a journal
/// exactly if there is one, and then that one. Its whole numbers are those of `serde_json`, so `1.0` is none. If a key
/// stands twice, the last value counts. It takes memory linear in the text.
///
/// `Shape` if no journal of the form is read: the text isn't UTF-8 or isn't JSON, nests deeper than 127 levels, has
/// another key or lacks one, or a name, a label, a number or an order isn't the form's. `Memory` if memory runs out.
pub fn read_json(alloc: Global, text: &[u8], accepted: &Accepted) -> Result<Journal, JsonError>
    ensures ok { IfOk result (λ j. IsReadAs accepted.now.protocol text.now j) }
    ensures shape { IfErr result (λ e. e ≡ Shape → (j : JournalView) → IsReadAs accepted.now.protocol text.now j → ⊥) }
{
    let value = Value::from_slice(alloc, text)?;
    journal(alloc, accepted, &value)
}
