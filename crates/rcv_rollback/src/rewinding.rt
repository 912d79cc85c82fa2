// The channels of a half's cells go back to what a book keeps, one after another.

ghost use Rattle.std.specs.Prelude.{◌≡◌, ◌+◌, ◌<◌, length};
ghost use Rattle.rcv_session.specs.Session.{roles_of};
ghost use Rattle.rcv_role.specs.Cell.{CellView};
ghost use Rattle.rcv_rollback.specs.Halves.{Has, Lacks};
ghost use Rattle.rcv_rollback.specs.Going.{CanRewind, CanRewindAlone, HasRewoundChannel, AreGoing, HaveMoved};

use crate::halves::Half;
use rcv_cells::two::{Together, two_together};
use rcv_core::book::Book;
use rcv_role::cell::Cell;
use rcv_tree::role::RoleId;

// How far the channel from a role goes back: so many of its messages stay, and so many of these are received.
#[derive(Drop)]
struct Cut {
    from: RoleId,
    keep: u32,
    drop_from: u32,
}

impl<'a> Together<Cut> for Option<Cell<'a>> {
    ghost use Rattle.rcv_rollback.specs.Going.{CanRewindAt, HaveRewoundAt};

    ghost can = { λ cut receiver sender. CanRewindAt receiver sender cut.from cut.keep cut.drop_from };

    ghost done = { λ cut receiver receiver_now sender sender_now.
        HaveRewoundAt receiver receiver_now sender sender_now cut.from cut.keep cut.drop_from };

    // If no sender stands there, the receiving end goes back alone.
    fn act(&mut self, other: &mut Option<Cell<'a>>, with: &Cut) {
        let Some(receiver) = self else {
            return;
        };
        match other {
            Some(sender) => receiver.rewind_from(sender, with.keep, with.drop_from),
            None => receiver.rewind_alone_from(with.from, with.keep),
        }
    }
}

// The channel from one place to another.
fn rewind_between<'a>(half: &mut Half<'a>, from: u8, to: u8, keep: u32, drop_from: u32)
    requires from { from < length half.old.items }
    requires to { to < length half.old.items }
    requires apart { from ≡ to → ⊥ }
    requires pair { (a b : CellView) → Has half.old.items from a → Has half.old.items to b
        → CanRewind a b keep drop_from }
    requires alone { (b : CellView) → Has half.old.items to b → Lacks half.old.items from → CanRewindAlone b from keep }
    ensures { HasRewoundChannel half.old.items half.new.items from to keep drop_from }
{
    let cut = Cut {
        from: RoleId(from),
        keep,
        drop_from,
    };
    two_together(half.as_mut_slice(), to as usize, from as usize, &cut);
}

// The channel from one role to another goes back to what the book keeps.
fn rewind_channel<'a>(book: &Book<'a>, half: &mut Half<'a>, from: u8, to: u8)
    requires from { from < roles_of book.now.setup }
    requires to { to < roles_of book.now.setup }
    requires going { AreGoing book.now from to half.old.items }
    ensures going { AreGoing book.now from (to + 1) half.new.items }
    ensures moved { HaveMoved half.old.items half.new.items }
{
    // Tells the proof that what is kept is a run.
    let _entries = book.entries();
    if from == to {
        return;
    }
    let (put, taken) = book.channel(RoleId(from), RoleId(to));
    rewind_between(half, from, to, taken, put);
}

// The channels from one role.
fn rewind_from<'a>(book: &Book<'a>, half: &mut Half<'a>, from: u8)
    requires from { from < roles_of book.now.setup }
    requires going { AreGoing book.now from 0 half.old.items }
    ensures going { AreGoing book.now (from + 1) 0 half.new.items }
    ensures moved { HaveMoved half.old.items half.new.items }
{
    for to in 0..book.setup().roles() {
        rewind_channel(book, half, from, to);
    }
}

/// All channels go back.
pub fn rewind_all<'a>(book: &Book<'a>, half: &mut Half<'a>)
    requires { AreGoing book.now 0 0 half.old.items }
    ensures going { AreGoing book.now (roles_of book.now.setup) 0 half.new.items }
    ensures moved { HaveMoved half.old.items half.new.items }
{
    for from in 0..book.setup().roles() {
        rewind_from(book, half, from);
    }
}
