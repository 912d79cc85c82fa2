// Fields that say how a role, or the session, ended.

ghost use Rattle.std.specs.Prelude.{◌≡◌, ◌∷◌, ℕ, List, [], codes, true, false, IfOk, IfSome, IfNone};
ghost use Rattle.rcv_journal.specs.Recorded.{bare};
ghost use Rattle.rcv_journal.specs.declared.line.RoleLine.{RoleLine};
ghost use Rattle.rcv_journal.specs.declared.line.RoleWord.{RoleWord};
ghost use Rattle.rcv_journal.specs.Form.{AreLimited};
ghost use Rattle.rcv_journal.specs.JournalText.{word_text};
ghost use Rattle.rcv_lines.specs.Cutting.{texts};
ghost use Rattle.rcv_lines.specs.Events.{SaysRole};
ghost use Rattle.rcv_lines.specs.Fields.{role_fields, end_fields, SaysLimited, SayNoEnd, SayNoLimited, SayNoRole};
ghost use Rattle.rcv_lines.specs.Line.{IsFormedRoleLine};

use crate::names::{role, roles_in_order};
use crate::numbers::{is_same, short_number};
use rcv_accept::accepted::Accepted;
use rcv_journal::line::{RoleLine, RoleWord};
use rcv_tree::role::RoleId;
use std::alloc::{AllocError, Global};

// How a role ended, as the field says.
fn word(field: &[u8]) -> Option<RoleWord>
    ensures some { IfSome result (λ word. field.now ≡ word_text word) }
    ensures none { IfNone result ((word : RoleWord) → field.now ≡ word_text word → ⊥) }
{
    if is_same(field, b"done") {
        return Some(RoleWord::Done);
    }
    if is_same(field, b"limit") {
        return Some(RoleWord::Limit);
    }
    if is_same(field, b"waits") {
        return Some(RoleWord::Waits);
    }
    None
}

// The line that these fields say of a role.
fn line_of(
    accepted: &Accepted,
    of: &[u8],
    kept: &[u8],
    raw: &[u8],
    ended: &[u8],
) -> Option<RoleLine>
    ensures formed { IfSome result (λ line. IsFormedRoleLine (bare accepted.now.protocol) line) }
    ensures says { IfSome result (λ line. SaysRole
        (bare accepted.now.protocol) line of.now kept.now raw.now ended.now) }
    ensures none { IfNone result ((line : RoleLine) → IsFormedRoleLine (bare accepted.now.protocol) line
        → SaysRole (bare accepted.now.protocol) line of.now kept.now raw.now ended.now → ⊥) }
{
    Some(RoleLine {
        role: role(&accepted.protocol().roles, of)?,
        kept: short_number(kept)?,
        raw: short_number(raw)?,
        word: word(ended)?,
    })
}

// The line of a role that the fields say.
pub fn role_line(accepted: &Accepted, fields: &[&[u8]]) -> Option<RoleLine>
    ensures formed { IfSome result (λ line. IsFormedRoleLine (bare accepted.now.protocol) line) }
    ensures some { IfSome result (λ line. texts fields.now ≡ role_fields (bare accepted.now.protocol) line) }
    ensures none { IfNone result (SayNoRole (bare accepted.now.protocol) (texts fields.now)) }
{
    if fields.len() != 7 {
        return None;
    }
    if !is_same(fields[0], b"role") {
        return None;
    }
    if !is_same(fields[2], b"kept") {
        return None;
    }
    if !is_same(fields[4], b"raw") {
        return None;
    }
    line_of(accepted, fields[1], fields[3], fields[5], fields[6])
}

// Whether the fields say that the session is completed.
fn is_completed(fields: &[&[u8]]) -> bool
    ensures yes { result ≡ true → texts fields.now ≡ codes "completed" ∷ [] }
    ensures no { result ≡ false → texts fields.now ≡ codes "completed" ∷ [] → ⊥ }
{
    if fields.len() != 1 {
        return false;
    }
    is_same(fields[0], b"completed")
}

// The roles at the limit that the fields say, at least one. Fails if memory runs out.
fn limited(
    alloc: Global,
    accepted: &Accepted,
    fields: &[&[u8]],
) -> Result<Option<Vec<RoleId>>, AllocError>
    ensures formed { IfOk result (λ read. IfSome read (λ roles. AreLimited (bare accepted.now.protocol) roles.items)) }
    ensures some { IfOk result (λ read. IfSome read
        (λ roles. SaysLimited (bare accepted.now.protocol) roles.items (texts fields.now))) }
    ensures none { IfOk result (λ read. IfNone read (SayNoLimited (bare accepted.now.protocol) (texts fields.now))) }
{
    let Some((kind, rest)) = fields.split_first() else {
        return Ok(None);
    };
    if rest.is_empty() {
        return Ok(None);
    }
    if !is_same(kind, b"limited") {
        return Ok(None);
    }
    roles_in_order(alloc, &accepted.protocol().roles, rest)
}

// The roles at the limit that the fields of the last line say; none if the session is completed. Fails if memory runs
// out.
#[tactic(auto, using(crate::proofs::Ends::completed_said, crate::proofs::Ends::limited_said, crate::proofs::Ends::neither_said))]
pub fn end(
    alloc: Global,
    accepted: &Accepted,
    fields: &[&[u8]],
) -> Result<Option<Vec<RoleId>>, AllocError>
    ensures formed { IfOk result (λ read. IfSome read (λ roles. AreLimited (bare accepted.now.protocol) roles.items)) }
    ensures some { IfOk result (λ read. IfSome read
        (λ roles. texts fields.now ≡ end_fields (bare accepted.now.protocol) roles.items)) }
    ensures none { IfOk result (λ read. IfNone read (SayNoEnd (bare accepted.now.protocol) (texts fields.now))) }
{
    if is_completed(fields) {
        return Ok(Some(Vec::new(alloc)));
    }
    limited(alloc, accepted, fields)
}
