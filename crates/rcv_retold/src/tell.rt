// Tells an entry of a told journal to a guide.

ghost use Rattle.std.specs.Prelude.{◌≡◌, ◌↔◌, ◌<◌, false, IsTrue, slice_index};
ghost use Rattle.rcv_tree.specs.declared.entry.Entry.TheVariants.{Send as TheSend, Recv as TheRecv, Crash as TheCrash};
ghost use Rattle.rcv_tree.specs.declared.entry.Entry.TheVariants.{Recover as TheRecover};
ghost use Rattle.rcv_guide.specs.Guide.{roles_of, HasRoom, listed_of};
ghost use Rattle.rcv_retold.specs.Retold.{news_for, GoesOn, IsUntold, IsTellable};

use rcv_guide::guide::Guide;
use rcv_guide::news::News;
use rcv_guide::recovery::Recovery;
use rcv_tree::entry::Entry;
use rcv_tree::event::{Dir, Event};
use rcv_tree::role::{RoleId, RoleSet};

// What is told of an event of a declared role.
fn news_of(guide: &Guide, event: &Event) -> News
    requires { event.now.role < roles_of guide.now }
    ensures { result ≡ news_for guide.now event.now }
{
    News {
        role: event.role,
        attempt: guide.attempt(event.role),
        point: event.point,
        value: event.value,
    }
}

// Whether two events are the same.
fn is_same(one: &Event, other: &Event) -> bool
    ensures { IsTrue result ↔ one.now ≡ other.now }
{
    one == other
}

// Tells a Send: whether it may come.
fn tell_send(guide: &mut Guide, event: &Event) -> bool
    ensures goes { IsTrue result → GoesOn guide.old guide.new (TheSend event.now) }
    ensures may { IsTrue result → IsTellable guide.old (TheSend event.now) }
    ensures wrong { result ≡ false → HasRoom guide.old → IsUntold guide.old (TheSend event.now) }
{
    if event.role.0 >= guide.roles() {
        return false;
    }
    let news = news_of(guide, event);
    match guide.tell_sent(&news) {
        Ok(stamp) => is_same(
            event,
            &Event::send(event.role, event.point, event.value, stamp),
        ),
        Err(_) => false,
    }
}

// Tells a Recv: whether it may come.
fn tell_recv(guide: &mut Guide, event: &Event) -> bool
    ensures goes { IsTrue result → GoesOn guide.old guide.new (TheRecv event.now) }
    ensures may { IsTrue result → IsTellable guide.old (TheRecv event.now) }
    ensures wrong { result ≡ false → HasRoom guide.old → IsUntold guide.old (TheRecv event.now) }
{
    if event.role.0 >= guide.roles() {
        return false;
    }
    let news = news_of(guide, event);
    match guide.tell_received(&news, event.sent) {
        Ok(stamp) => is_same(
            event,
            &Event {
                role: event.role,
                dir: Dir::Got,
                point: event.point,
                value: event.value,
                stamp,
                sent: event.sent,
            },
        ),
        Err(_) => false,
    }
}

// Tells a crash: whether it may come.
fn tell_crash(guide: &mut Guide, role: RoleId) -> bool
    ensures goes { IsTrue result → GoesOn guide.old guide.new (TheCrash role) }
    ensures may { IsTrue result → IsTellable guide.old (TheCrash role) }
    ensures wrong { result ≡ false → HasRoom guide.old → IsUntold guide.old (TheCrash role) }
{
    guide.tell_crash(role).is_ok()
}

// The same counts.
fn wide(counts: &[u32; 8]) -> [u64; 8]
    ensures { result ≡ counts.now }
{
    let mut wide = [0; 8];
    for role in 0..8 {
        wide[role] = u64::from(counts[role]);
    }
    wide
}

// What a journal lists of a role: how many events it keeps; 0 if it isn't concerned.
fn listed(back: &Recovery, role: RoleId) -> u64
    requires { role < 8 }
    ensures { result ≡ slice_index (listed_of back.now) role }
{
    if back.concerned.has(role) {
        back.kept[role.0 as usize]
    } else {
        0
    }
}

// Whether a recovery lists these counts.
fn are_listed(back: &Recovery, kept: &[u64; 8]) -> bool
    ensures { IsTrue result ↔ (kept.now ≡ listed_of back.now) }
{
    for role in 0..8 {
        if kept[role as usize] != listed(back, RoleId(role)) {
            return false;
        }
    }
    true
}

// Whether a recovery takes back what is stated of it.
fn states(back: &Recovery, concerned: RoleSet, kept: &[u64; 8], undone: u32) -> bool
    ensures { IsTrue result ↔ ((back.now.concerned ≡ concerned) × (kept.now ≡ listed_of back.now)
        × (back.now.undone ≡ undone)) }
{
    back.concerned == concerned && back.undone == undone && are_listed(back, kept)
}

// Tells a recovery: whether it may come as the entry states it.
fn tell_recover(
    guide: &mut Guide,
    role: RoleId,
    concerned: RoleSet,
    kept: &[u32; 8],
    undone: u32,
) -> bool
    ensures goes { IsTrue result → GoesOn guide.old guide.new (TheRecover role concerned kept.now undone) }
    ensures may { IsTrue result → IsTellable guide.old (TheRecover role concerned kept.now undone) }
    ensures wrong { result ≡ false → HasRoom guide.old → IsUntold guide.old (TheRecover role concerned kept.now undone) }
{
    let kept = wide(kept);
    match guide.tell_recovered(role, &kept) {
        Ok(back) => states(&back, concerned, &kept, undone),
        Err(_) => false,
    }
}

/// Tells an entry to a guide: whether it may come. If it may not, nothing is known of the guide.
pub fn tell(guide: &mut Guide, entry: &Entry) -> bool
    ensures goes { IsTrue result → GoesOn guide.old guide.new entry.now }
    ensures may { IsTrue result → IsTellable guide.old entry.now }
    ensures wrong { result ≡ false → HasRoom guide.old → IsUntold guide.old entry.now }
{
    match entry {
        Entry::Send(event) => tell_send(guide, event),
        Entry::Recv(event) => tell_recv(guide, event),
        Entry::Crash(role) => tell_crash(guide, *role),
        Entry::Recover {
            role,
            concerned,
            kept,
            undone,
        } => tell_recover(guide, *role, *concerned, kept, *undone),
    }
}
