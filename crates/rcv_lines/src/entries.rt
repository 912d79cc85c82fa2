// Fields that say entries.

ghost use Rattle.std.specs.Prelude.{◌≡◌, ◌<◌, ◌∷◌, ℕ, List, [], codes, IfSome, IfNone};
ghost use Rattle.rcv_tree.specs.declared.entry.Entry.{Entry};
ghost use Rattle.rcv_tree.specs.declared.entry.Entry.TheVariants.{Recover};
ghost use Rattle.rcv_tree.specs.declared.role.RoleSet.{RoleSet};
ghost use Rattle.rcv_session.specs.Session.{roles_of};
ghost use Rattle.rcv_journal.specs.JournalText.{name_of};
ghost use Rattle.rcv_journal.specs.Form.{IsFormedEntry};
ghost use Rattle.rcv_journal.specs.Recorded.{bare};
ghost use Rattle.rcv_lines.specs.Cutting.{texts};
ghost use Rattle.rcv_lines.specs.Events.{SaysRecovery};
ghost use Rattle.rcv_lines.specs.Fields.{entry_fields};

use crate::events::{recv, send};
use crate::names::role;
use crate::numbers::{is_same, short_number_before};
use crate::recovery::read_cuts;
use rcv_accept::accepted::Accepted;
use rcv_tree::entry::Entry;
use rcv_tree::role::RoleId;

// The role of the Crash that the fields say.
fn crash(accepted: &Accepted, fields: &[&[u8]]) -> Option<RoleId>
    ensures declared { IfSome result (λ r. r < roles_of (bare accepted.now.protocol)) }
    ensures some { IfSome result (λ r. texts fields.now ≡ codes "crash" ∷ name_of (bare accepted.now.protocol) r ∷ []) }
    ensures none { IfNone result ((r : ℕ) → r < roles_of (bare accepted.now.protocol)
        → texts fields.now ≡ codes "crash" ∷ name_of (bare accepted.now.protocol) r ∷ [] → ⊥) }
{
    if fields.len() != 2 {
        return None;
    }
    if !is_same(fields[0], b"crash") {
        return None;
    }
    role(&accepted.protocol().roles, fields[1])
}

// The Recover that these fields say.
fn recovery_of(accepted: &Accepted, of: &[u8], number: &[u8], cuts: &[&[u8]]) -> Option<Entry>
    ensures formed { IfSome result (λ e. IsFormedEntry (bare accepted.now.protocol) e) }
    ensures says { IfSome result (λ e. SaysRecovery (bare accepted.now.protocol) e of.now number.now (texts cuts.now)) }
    ensures none { IfNone result ((e : Entry) → IsFormedEntry (bare accepted.now.protocol) e
        → SaysRecovery (bare accepted.now.protocol) e of.now number.now (texts cuts.now) → ⊥) }
{
    let names = &accepted.protocol().roles;
    let role = role(names, of)?;
    let undone = short_number_before(number, b':')?;
    let cuts = read_cuts(names.as_slice(), cuts)?;
    let kept = cuts.kept;
    Some(Entry::Recover {
        role,
        concerned: cuts.concerned,
        kept,
        undone,
    })
}

// The Recover that the fields say.
fn recover(accepted: &Accepted, fields: &[&[u8]]) -> Option<Entry>
    ensures formed { IfSome result (λ e. IsFormedEntry (bare accepted.now.protocol) e) }
    ensures some { IfSome result (λ e. texts fields.now ≡ entry_fields (bare accepted.now.protocol) e) }
    ensures none { IfNone result ((p : ℕ) (concerned : RoleSet) (kept : List ℕ) (undone : ℕ)
        → IsFormedEntry (bare accepted.now.protocol) (Recover p concerned kept undone)
        → texts fields.now ≡ entry_fields (bare accepted.now.protocol) (Recover p concerned kept undone) → ⊥) }
{
    if fields.len() < 4 {
        return None;
    }
    if !is_same(fields[0], b"recover") {
        return None;
    }
    if !is_same(fields[2], b"undone") {
        return None;
    }
    recovery_of(accepted, fields[1], fields[3], &fields[4..])
}

// The entry that the fields say.
#[tactic(auto, using(crate::proofs::Saying::no_entry))]
pub fn entry(accepted: &Accepted, fields: &[&[u8]]) -> Option<Entry>
    ensures formed { IfSome result (λ e. IsFormedEntry (bare accepted.now.protocol) e) }
    ensures some { IfSome result (λ e. texts fields.now ≡ entry_fields (bare accepted.now.protocol) e) }
    ensures none { IfNone result ((e : Entry) → IsFormedEntry (bare accepted.now.protocol) e
        → texts fields.now ≡ entry_fields (bare accepted.now.protocol) e → ⊥) }
{
    if let Some(event) = send(accepted, fields) {
        return Some(Entry::Send(event));
    }
    if let Some(event) = recv(accepted, fields) {
        return Some(Entry::Recv(event));
    }
    if let Some(role) = crash(accepted, fields) {
        return Some(Entry::Crash(role));
    }
    recover(accepted, fields)
}
