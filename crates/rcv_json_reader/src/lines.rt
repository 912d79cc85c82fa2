// The lines of the roles.

ghost use Rattle.std.specs.Prelude.{◌≡◌, ◌<◌, length, IfSome, IfNone};
ghost use Rattle.serde_json.specs.Data.{string};
ghost use Rattle.serde_json.specs.View.{view};
ghost use Rattle.rcv_journal.specs.Recorded.{bare};
ghost use Rattle.rcv_journal.specs.declared.line.RoleWord.{RoleWord};
ghost use Rattle.rcv_journal.specs.declared.line.RoleLine.{RoleLine};
ghost use Rattle.rcv_journal.specs.JournalText.{word_text};
ghost use Rattle.rcv_json_reader.specs.Parts.{IsFormedLine, SaysLine, SaysNumbers};

use crate::leaves::{is_text, items, short_count};
use rcv_journal::line::{RoleLine, RoleWord};
use rcv_tree::protocol::Protocol;
use rcv_tree::role::RoleId;
use serde_json::Value;

// How the role ended, if the value is a word for that.
fn word(value: &Value) -> Option<RoleWord>
    ensures some { IfSome result (λ w. view value.now ≡ string (word_text w)) }
    ensures none { IfNone result ((w : RoleWord) → view value.now ≡ string (word_text w) → ⊥) }
{
    if is_text(value, b"done") {
        Some(RoleWord::Done)
    } else if is_text(value, b"limit") {
        Some(RoleWord::Limit)
    } else if is_text(value, b"waits") {
        Some(RoleWord::Waits)
    } else {
        None
    }
}

// The role's line that these values say.
fn numbers(role: RoleId, kept: &Value, raw: &Value, ended: &Value) -> Option<RoleLine>
    ensures some { IfSome result (λ line. IsFormedLine role line) }
    ensures says { IfSome result (λ line. SaysNumbers line (view kept.now) (view raw.now) (view ended.now)) }
    ensures none { IfNone result ((line : RoleLine) → IsFormedLine role line
        → SaysNumbers line (view kept.now) (view raw.now) (view ended.now) → ⊥) }
{
    Some(RoleLine {
        role,
        kept: short_count(kept)?,
        raw: short_count(raw)?,
        word: word(ended)?,
    })
}

// The line of the role, if the value is one.
pub(crate) fn read_line(protocol: &Protocol, role: RoleId, value: &Value) -> Option<RoleLine>
    requires { role < length protocol.now.roles }
    ensures some { IfSome result (λ line. SaysLine (bare protocol.now) role (view value.now) line) }
    ensures none { IfNone result ((line : RoleLine) → SaysLine (bare protocol.now) role (view value.now) line → ⊥) }
{
    let parts = items(value)?;
    if parts.len() != 4 {
        return None;
    }
    if !is_text(&parts[0], protocol.roles.name(role)) {
        return None;
    }
    numbers(role, &parts[1], &parts[2], &parts[3])
}
