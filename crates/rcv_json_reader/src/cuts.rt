// The pairs of a recovery: which roles it concerns, and how many events each of these keeps.

ghost use Rattle.std.specs.Prelude.{◌≡◌, ◌<◌, ◌≤◌, ◌+◌, ◌^◌, ℕ, List, [], ◌∷◌, length, map, IfSome, IfNone};
ghost use Rattle.serde_json.specs.View.{view};
ghost use Rattle.rcv_model.specs.Names.{AreDifferent};
ghost use Rattle.rcv_journal.specs.Recorded.{bare};
ghost use Rattle.rcv_json_reader.specs.Parts.{HasRead, SaysCuts, pair_data};

use crate::leaves::{is_text, items, short_count};
use rcv_tree::protocol::Protocol;
use rcv_tree::role::{RoleId, RoleSet};
use serde_json::Value;

// What a recovery says of the roles, and how many of its pairs say that.
#[derive(Drop)]
pub(crate) struct Cuts {
    pub(crate) concerned: RoleSet,
    pub(crate) kept: [u32; 8],
    read: usize,
}

impl Cuts {
    // Reads the next pair, if it is this role's.
    fn step(&mut self, protocol: &Protocol, role: RoleId, pairs: &[Value])
        requires role { role < length protocol.now.roles }
        requires few { length protocol.now.roles ≤ 8 }
        requires differ { AreDifferent protocol.now.roles }
        requires below { HasRead (bare protocol.now)
            (map view pairs.now) role self.old.read self.old.concerned.0 self.old.kept }
        ensures { HasRead (bare protocol.now) (map view pairs.now)
            (role + 1) self.new.read self.new.concerned.0 self.new.kept }
    {
        let Some(pair) = pairs.get(self.read) else {
            return;
        };
        let Some(kept) = cut(protocol, role, pair) else {
            return;
        };
        self.kept[role.0 as usize] = kept;
        self.concerned = self.concerned.with(role);
        self.read += 1;
    }
}

// How many events the role keeps, if the value is its pair.
fn cut(protocol: &Protocol, role: RoleId, pair: &Value) -> Option<u32>
    requires { role < length protocol.now.roles }
    ensures fits { IfSome result (λ n. n < 2 ^ 32) }
    ensures some { IfSome result (λ n. view pair.now ≡ pair_data (bare protocol.now) role n) }
    ensures none { IfNone result ((n : ℕ) → n < 2 ^ 32 → view pair.now ≡ pair_data (bare protocol.now) role n → ⊥) }
{
    let parts = items(pair)?;
    if parts.len() != 2 {
        return None;
    }
    if !is_text(&parts[0], protocol.roles.name(role)) {
        return None;
    }
    short_count(&parts[1])
}

// What the pairs say of the roles.
pub(crate) fn read_cuts(protocol: &Protocol, value: &Value) -> Option<Cuts>
    requires few { length protocol.now.roles ≤ 8 }
    requires differ { AreDifferent protocol.now.roles }
    ensures some { IfSome result (λ cuts. SaysCuts (bare protocol.now) (view value.now) cuts.concerned.0 cuts.kept) }
    ensures none { IfNone result ((concerned : ℕ) (kept : List ℕ)
        → SaysCuts (bare protocol.now) (view value.now) concerned kept → ⊥) }
{
    let pairs = items(value)?;
    let mut cuts = Cuts {
        concerned: RoleSet(0),
        kept: [0; 8],
        read: 0,
    };
    for role in 0..protocol.roles.as_slice().len() {
        cuts.step(protocol, RoleId(role as u8), pairs);
    }
    if cuts.read != pairs.len() {
        return None;
    }
    if cuts.concerned.0 == 0 {
        return None;
    }
    Some(cuts)
}
