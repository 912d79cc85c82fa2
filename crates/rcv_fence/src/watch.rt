// Watches of a fence: they look at its word and write it.

ghost use Rattle.std.specs.Prelude.{◌≡◌, ◌+◌, ◌<◌, ◌≤◌, [], ◌∷◌, ◌++◌, ◌↔◌, IfOk, IfSome, IsNone, vec_len};
ghost use Rattle.rcv_tree.specs.Bits.{IsPoint};
ghost use Rattle.rcv_fence.specs.Codes.{code, IsWord, IsPairOf};
ghost use Rattle.rcv_fence.specs.Shown.{AreFreshOfOneFence, fresh, with_raised};

use crate::rule::{Looks, Shares, Sight, Word, Writes};
use atomic_table::{Seat, Table};
use rcv_tree::point::Point;
use rcv_tree::role::RoleId;
use std::alloc::{AllocError, Global};
use std::marker::Model;
use std::sync::Arc;

/// A watch of a fence, which lies on any thread. Contracts see which fence it is of, how often it looked, the word that
/// its last look loaded (0 before the first), the words that all its looks loaded, and the words that it wrote, in
/// order. What other watches write changes none of these.
#[derive(Drop)]
pub struct Watch {
    table: Arc<Word, Global>,
    seat: Seat<(), Sight>,
}

impl Model for Watch {
    ghost use Rattle.rcv_fence.specs.Shown.{Shown};

    ghost Value = { Shown };

    ghost use Rattle.std.specs.Arc.{arc_value};
    ghost use Rattle.rcv_fence.specs.Fence.{shown, IsSeated};

    ghost view = { λ w. shown w.seat.table_id w.seat.me.0 };

    ghost invariant = { λ w. IsSeated (arc_value w.table).shared.table_id w.seat.table_id w.seat.me.0 };
}

impl Watch {
    /// What is raised at this moment: the role, below 8, and the point, from 1 to 256; None if nothing is. It is one
    /// load, which never waits and takes no memory.
    pub fn look(&mut self) -> Option<(RoleId, Point)>
        ensures fence { self.new.fence ≡ self.old.fence }
        ensures looks { self.new.looks ≡ self.old.looks + 1 }
        ensures raised { self.new.raised ≡ self.old.raised }
        ensures word { IsWord self.new.last }
        ensures seen { self.new.seen ≡ self.old.seen ++ self.new.last ∷ [] }
        ensures none { IsNone result ↔ (self.new.last ≡ 0) }
        ensures some { IfSome result (λ pair. IsPairOf self.new.last pair.0 pair.1) }
    {
        let word = self.load();
        pair_of(word)
    }

    /// Raises this role, below 8, and this point, from 1 to 256, in place of what is raised. It is one swap, which
    /// never waits and takes no memory.
    pub fn raise(&mut self, role: RoleId, point: Point)
        requires role { role < 8 }
        requires point { IsPoint point }
        ensures { self.new ≡ with_raised self.old (code role point) }
    {
        self.write(1 + 256 * u64::from(role.0) + (u64::from(point.0) - 1));
    }

    /// Takes down what is raised. It is one swap, which never waits and takes no memory.
    pub fn lower(&mut self)
        ensures { self.new ≡ with_raised self.old 0 }
    {
        self.write(0);
    }

    fn load(&mut self) -> u64
        ensures fence { self.new.fence ≡ self.old.fence }
        ensures looks { self.new.looks ≡ self.old.looks + 1 }
        ensures raised { self.new.raised ≡ self.old.raised }
        ensures last { self.new.last ≡ result }
        ensures seen { self.new.seen ≡ self.old.seen ++ result ∷ [] }
        ensures word { IsWord result }
    {
        self.table.shared.load::<Looks>(&mut self.seat, 0)
    }

    fn write(&mut self, word: u64)
        requires { IsWord word }
        ensures { self.new ≡ with_raised self.old word }
    {
        self.table.shared.swap::<Writes>(&mut self.seat, 0, word);
    }

    // The first watch of a new fence, with nothing raised.
    fn first(alloc: Global) -> Result<Watch, AllocError>
        ensures { IfOk result (λ watch. watch ≡ fresh watch.fence) }
    {
        let (table, seat) = Table::of_words(alloc, &[0], &())?;
        let table = Arc::new(alloc, table)?;
        Ok(Watch { table, seat })
    }

    // One more watch of the same fence.
    fn another(&mut self) -> Result<Watch, AllocError>
        ensures same { self.new ≡ self.old }
        ensures fresh { IfOk result (λ watch. watch ≡ fresh self.old.fence) }
    {
        let table = Arc::try_clone(&self.table)?;
        let seat = self.table.shared.split_seat::<Shares>(&mut self.seat);
        Ok(Watch { table, seat })
    }
}

// The role and the point of this code; None of 0.
fn pair_of(word: u64) -> Option<(RoleId, Point)>
    requires { IsWord word }
    ensures none { IsNone result ↔ (word ≡ 0) }
    ensures some { IfSome result (λ pair. IsPairOf word pair.0 pair.1) }
{
    if word == 0 {
        return None;
    }
    let role = ((word - 1) / 256) as u8;
    let point = ((word - 1) % 256 + 1) as u16;
    Some((RoleId(role), Point(point)))
}

/// Makes a new fence with nothing raised, and so many watches of it, 1 to 9. Fails if memory runs out.
pub fn fence(alloc: Global, count: u32) -> Result<Vec<Watch>, AllocError>
    requires { (1 ≤ count) × (count ≤ 9) }
    ensures count { IfOk result (λ watches. vec_len watches ≡ count) }
    ensures one { IfOk result (λ watches. AreFreshOfOneFence watches.items) }
{
    let mut watches = Vec::with_capacity(alloc, count as usize)?;
    let mut first = Watch::first(alloc)?;
    for _ in 1..count {
        watches.push(first.another()?)?;
    }
    watches.push(first)?;
    Ok(watches)
}
