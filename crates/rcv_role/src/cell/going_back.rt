// A cell goes back: its ends first, one channel after another, and then its part. It forgets the states that it never
// goes back to.

ghost use Rattle.std.specs.Prelude.{◌≡◌, ℕ, ◌+◌, ◌*◌, ◌^◌, ◌<◌, ◌≤◌, true, length, take};
ghost use Rattle.rcv_session.specs.Session.{roles_of, rules_of};
ghost use Rattle.rcv_mailbox.specs.Ends.{End};
ghost use Rattle.rcv_role.specs.Part.{durable_of, from_base, gone_back, cut_back};
ghost use Rattle.rcv_role.specs.Ends.{slot, end_at};
ghost use Rattle.rcv_role.specs.Cell.{cell_of, IsSettled, IsSettledAt, post_to, inbox_from, AreJoined, HaveRewound};
ghost use Rattle.rcv_role.specs.Cell.{HasRewoundAlone};

use crate::cell::Cell;
use crate::ends::{rewind_alone_at, rewind_at, slot};
use rcv_tree::role::RoleId;

impl<'a> Cell<'a> {
    /// The channel from another cell of the session to this one goes back: the first `drop_from` of the messages that
    /// were put on it stay, all of them taken, and the first `keep` of those are received. Until the parts go back,
    /// too, neither cell is settled. It takes no memory.
    pub fn rewind_from(&mut self, sender: &mut Cell<'a>, keep: u32, drop_from: u32)
        requires setup { sender.old.part.setup ≡ self.old.part.setup }
        requires apart { sender.old.part.role ≡ self.old.part.role → ⊥ }
        requires channel { AreJoined sender.old self.old }
        requires keep { (d : End) → keep ≤ (inbox_from sender.old self.old d).got }
        requires order { keep ≤ drop_from }
        requires drop_from { (d : End) → drop_from ≤ length (post_to sender.old self.old d).list }
        ensures { HaveRewound sender.old sender.new self.old self.new keep drop_from }
    {
        let at = slot(self.part.role(), sender.part.role());
        let to = slot(sender.part.role(), self.part.role());
        rewind_at(
            &mut self.inboxes,
            at,
            keep,
            &mut sender.posts,
            to,
            drop_from,
        );
    }

    /// The inbox from another declared role goes back alone: the first `keep` messages stay received, and it will
    /// receive those after them again. It takes no memory.
    pub fn rewind_alone_from(&mut self, sender: RoleId, keep: u32)
        requires declared { sender < roles_of self.old.part.setup }
        requires apart { sender ≡ self.old.part.role → ⊥ }
        requires keep { (d : End) → keep ≤ (end_at self.old.inboxes self.old.part.role sender d).got }
        ensures { HasRewoundAlone self.old self.new sender keep }
    {
        let at = slot(self.part.role(), sender);
        rewind_alone_at(&mut self.inboxes, at, keep);
    }

    /// Goes back to so many of the role's first events, and sets the clock. Its ends were rewound to them, and their
    /// state is held. The attempt is one more if an event was lost, and a crashed role runs on. It takes no memory.
    pub fn back_to(&mut self, keep: u32, clock: u64)
        requires base { self.old.part.base ≤ keep }
        requires held { keep ≤ self.old.part.held }
        requires settled { IsSettledAt self.old (take keep self.old.part.own.events) }
        requires attempt { self.old.part.own.numbers.attempt + 1 < 2 ^ 32 }
        ensures back { self.new ≡ cell_of (gone_back self.old.part keep clock) self.old.posts self.old.inboxes }
        ensures settled { IsSettled self.new }
    {
        self.part.back_to(keep, clock);
    }

    /// The same for a crashed role which another role's recovery concerns: it stays crashed. Of the states after its
    /// events those that are still held stay, up to so many events. It takes no memory.
    pub fn cut_to(&mut self, keep: u32, clock: u64)
        requires crashed { self.old.part.own.numbers.crashed ≡ true }
        requires base { self.old.part.base ≤ keep }
        requires made { keep ≤ length self.old.part.own.events }
        requires settled { IsSettledAt self.old (take keep self.old.part.own.events) }
        requires attempt { self.old.part.own.numbers.attempt + 1 < 2 ^ 32 }
        ensures cut { self.new ≡ cell_of (cut_back self.old.part keep clock) self.old.posts self.old.inboxes }
        ensures settled { IsSettled self.new }
    {
        self.part.cut_to(keep, clock);
    }

    /// Forgets the states before the one after so many of the role's events. The role has saved these events: no
    /// recovery takes back one of them. All else stays. It takes no memory.
    pub fn forget(&mut self, line: u32)
        requires step { (k : ℕ) × (k * (rules_of self.old.part.setup).every self.old.part.role ≡ line) }
        requires above { self.old.part.base ≤ line }
        requires saved { line ≤ durable_of self.old.part }
        ensures { self.new ≡ cell_of (from_base self.old.part line) self.old.posts self.old.inboxes }
    {
        self.part.forget(line);
    }
}
