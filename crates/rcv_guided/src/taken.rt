// What failures took back, as answers say it.

ghost use Rattle.std.specs.Prelude.{◌≡◌, ◌<◌, ◌≤◌, ◌+◌, ◌^◌, ◌↔◌, ◌||◌, ℕ, false, IfOk, IsTrue, length, map, slice_index};
ghost use Rattle.std.specs.List.{filter, range_with_len};
ghost use Rattle.rcv_tree.specs.Bits.{has_bit};
ghost use Rattle.rcv_guided.specs.Counts.{with_counts};
ghost use Rattle.rcv_guided.specs.Failures.{IsStatedAs};

use rcv_dialogue::answer::{Answer, Back, Undone};
use rcv_dialogue::few::Kept;
use rcv_dialogue::line::{Flight, Stated};
use rcv_guide::recovery::Recovery;
use rcv_tree::role::{RoleId, RoleSet};
use std::alloc::{AllocError, Global};

/// How many events failures undid, and whom they concern.
#[derive(Clone, Copy)]
pub struct Taken {
    undone: u64,
    concerned: RoleSet,
}

impl Taken {
    /// Of no failure.
    pub fn nothing() -> Taken
        ensures undone { result.undone ≡ 0 }
        ensures concerned { (r : ℕ) → r < 8 → has_bit result.concerned.0 r ≡ false }
    {
        Taken {
            undone: 0,
            concerned: RoleSet(0),
        }
    }

    /// How many events are undone.
    pub fn undone(&self) -> u64
        ensures { result ≡ self.now.undone }
    {
        self.undone
    }

    /// Who is concerned.
    pub fn concerned(&self) -> RoleSet
        ensures { result ≡ self.now.concerned }
    {
        self.concerned
    }

    /// Counts one failure more.
    pub fn add(&mut self, recovery: &Recovery)
        requires { self.old.undone < 2 ^ 63 }
        ensures undone { self.new.undone ≡ self.old.undone + recovery.now.undone }
        ensures few { self.new.undone < self.old.undone + 2 ^ 32 }
        ensures concerned { (r : ℕ) → r < 8
            → has_bit self.new.concerned.0 r ≡ (has_bit self.old.concerned.0 r || has_bit recovery.now.concerned.0 r) }
    {
        self.undone += recovery.undone as u64;
        self.concerned = self.concerned.union(recovery.concerned);
    }
}

/// The roles of the set among so many, with these counts. Fails if memory runs out.
pub fn keeping(
    alloc: Global,
    roles: u8,
    set: RoleSet,
    counts: &[u64; 8],
) -> Result<Vec<Kept>, AllocError>
    requires { roles ≤ 8 }
    ensures { IfOk result (λ kept. kept.items ≡ with_counts (slice_index counts.now) (filter (has_bit set.0) (range_with_len 0 roles))) }
{
    let mut kept = Vec::new(alloc);
    for role in 0..roles {
        if set.has(RoleId(role)) {
            kept.push(Kept {
                role: RoleId(role),
                count: counts[role as usize],
            })?;
        }
    }
    Ok(kept)
}

/// The roles of the set, with these counts and incarnations. Fails if memory runs out.
pub fn backs(
    alloc: Global,
    set: RoleSet,
    counts: &[u64; 8],
    incarnations: &[u64],
) -> Result<Vec<Back>, AllocError>
    requires { length incarnations.now ≤ 8 }
    ensures { IfOk result (λ back. back.items
        ≡ map (λ r. record { role = r; count = slice_index counts.now r; incarnation = slice_index incarnations.now r })
        (filter (has_bit set.0) (range_with_len 0 (length incarnations.now)))) }
{
    let mut all = Vec::new(alloc);
    for number in 0..incarnations.len() {
        let role = RoleId(number as u8);
        if set.has(role) {
            all.push(Back {
                role,
                count: counts[number],
                incarnation: incarnations[number],
            })?;
        }
    }
    Ok(all)
}

/// The answer if this was taken back.
pub fn answer<'a>(undone: Undone<'a>, back: &'a [Back], flight: &'a [Flight]) -> Answer<'a>
    ensures { result ≡ Answer.Recovered undone.entry back.entry flight.entry }
{
    Answer::Recovered {
        undone,
        back,
        flight,
    }
}

// Whether both are of one role, with one count.
fn is_same(one: &Kept, other: &Kept) -> bool
    ensures { IsTrue result ↔ (one.now ≡ other.now) }
{
    one.role == other.role && one.count == other.count
}

// Whether both lists are the same.
fn are_same(ones: &[Kept], others: &[Kept]) -> bool
    ensures { IsTrue result ↔ (ones.now ≡ others.now) }
{
    if ones.len() != others.len() {
        return false;
    }
    for place in 0..ones.len() {
        if !is_same(&ones[place], &others[place]) {
            return false;
        }
    }
    true
}

/// Whether this is what is said to be taken back, if anything is said of that.
pub fn is_stated_as(stated: &Option<Stated>, undone: &Undone<'_>) -> bool
    ensures { IsTrue result ↔ IsStatedAs stated.now undone.now }
{
    match stated {
        Some(stated) => {
            stated.undone == undone.undone && are_same(stated.kept.as_slice(), undone.kept)
        }
        None => true,
    }
}
