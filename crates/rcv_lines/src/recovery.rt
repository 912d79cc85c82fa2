// What fields say of the roles that a recovery concerns.

ghost use Rattle.std.specs.Prelude.{◌≡◌, ◌≤◌, ◌<◌, ◌^◌, ◌==◌, ◌||◌, ◌++◌, ℕ, List, length, slice_index, slice_set};
ghost use Rattle.std.specs.Prelude.{Option, Some, None, IfSome, IfNone};
ghost use Rattle.rcv_tree.specs.Bits.{has_bit};
ghost use Rattle.rcv_model.specs.Names.{AreDifferent};
ghost use Rattle.rcv_journal.specs.Form.{AreCuts};
ghost use Rattle.rcv_lines.specs.Cutting.{texts};
ghost use Rattle.rcv_lines.specs.Named.{cut_fields, cuts_fields, FitsCut, OnlyLeaves, SayNoCut, SayNoCuts};

use crate::numbers::{is_same, short_number};
use rcv_tree::name::Name;
use rcv_tree::role::{RoleId, RoleSet};

// Which roles are concerned, and how many events each of them keeps; 0 for the others.
#[derive(Clone, Copy)]
pub struct Cuts {
    pub concerned: RoleSet,
    pub kept: [u32; 8],
}

impl Cuts {
    // No role is concerned.
    fn none() -> Cuts
        ensures concerned { result.concerned.0 ≡ 0 }
        ensures length { length result.kept ≡ 8 }
        ensures kept { (q : ℕ) → slice_index result.kept q ≡ 0 }
    {
        Cuts {
            concerned: RoleSet(0),
            kept: [0; 8],
        }
    }

    // Tells the proof that the set fits its type.
    fn known(&self)
        ensures { self.now.concerned.0 < 2 ^ 8 }
    {
        let _concerned = self.concerned.0;
    }

    // The role, which is below 8, keeps so many events if a count is given.
    fn with(self, role: RoleId, count: Option<u32>) -> Cuts
        requires { role < 8 }
        ensures none { count ≡ None → result ≡ self }
        ensures some { (n : ℕ) → count ≡ Some n → (q : ℕ) → q < 8
            → has_bit result.concerned.0 q ≡ (has_bit self.concerned.0 q || role == q) }
        ensures kept { (n : ℕ) → count ≡ Some n → result.kept ≡ slice_set self.kept role n }
    {
        match count {
            None => self,
            Some(count) => {
                let mut kept = self.kept;
                kept[role.0 as usize] = count;
                Cuts {
                    concerned: self.concerned.with(role),
                    kept,
                }
            }
        }
    }
}

// How many events the role with this name keeps, if the fields say it first, and the fields after that.
fn cut<'a, 'b>(name: &[u8], fields: &'a [&'b [u8]]) -> Option<(Option<u32>, &'a [&'b [u8]])>
    ensures some { IfSome result (λ read. texts fields.entry.now ≡ cut_fields name.now read.0 ++ texts read.1.now) }
    ensures fits { IfSome result (λ read. FitsCut read.0) }
    ensures only { IfSome result (λ read. OnlyLeaves name.now (texts fields.entry.now) (texts read.1.now)) }
    ensures none { IfNone result (SayNoCut name.now (texts fields.entry.now)) }
{
    let Some((first, more)) = fields.split_first() else {
        return Some((None, fields));
    };
    if !is_same(first, name) {
        return Some((None, fields));
    }
    let (count, rest) = more.split_first()?;
    Some((Some(short_number(count)?), rest))
}

// The roles that the fields name in order, each with how many events it keeps.
pub fn read_cuts(names: &[Name], fields: &[&[u8]]) -> Option<Cuts>
    requires few { length names.now ≤ 8 }
    requires differ { AreDifferent names.now }
    ensures cuts { IfSome result (λ read. AreCuts (length names.now) read.concerned.0 read.kept) }
    ensures some { IfSome result (λ read. texts fields.now
        ≡ cuts_fields names.now read.concerned.0 read.kept (length names.now)) }
    ensures none { IfNone result (SayNoCuts names.now (texts fields.now)) }
{
    if fields.is_empty() {
        return None;
    }
    let mut cuts = Cuts::none();
    let mut place = 0;
    for (role, name) in names.iter().enumerate() {
        let (count, rest) = cut(name.as_slice(), &fields[place..])?;
        cuts = cuts.with(RoleId(role as u8), count);
        place = fields.len() - rest.len();
    }
    if place != fields.len() {
        return None;
    }
    cuts.known();
    Some(cuts)
}
