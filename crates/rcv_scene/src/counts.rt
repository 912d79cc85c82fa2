// What roles do in folds, by counting their entries.

ghost use Rattle.std.specs.Prelude.{◌≡◌, ◌≤◌, ◌||◌, cond};
ghost use Rattle.rcv_scene.specs.Grid.{scene_of};
ghost use Rattle.rcv_scene.specs.Folds.{is_sent_by, is_taken_by, does_by, does, times};

use crate::layout::Layout;
use rcv_tree::entry::Entry;

/// What a role does by an entry: it sends, it takes a message, or it does either and that is undone.
#[derive(Clone, Copy)]
pub enum Act {
    Sends,
    Takes,
    Loses,
}

// Whether an entry is a Send of a role.
fn is_sent_by(entry: &Entry, role: u8) -> bool
    ensures { result ≡ is_sent_by role entry.now }
{
    match entry {
        Entry::Send(event) => event.role.0 == role,
        Entry::Recv(_) => false,
        Entry::Crash(_) => false,
        Entry::Recover { .. } => false,
    }
}

// Whether an entry is a Recv of a role.
fn is_taken_by(entry: &Entry, role: u8) -> bool
    ensures { result ≡ is_taken_by role entry.now }
{
    match entry {
        Entry::Send(_) => false,
        Entry::Recv(event) => event.role.0 == role,
        Entry::Crash(_) => false,
        Entry::Recover { .. } => false,
    }
}

// Whether an entry is an event of a role.
fn is_of(entry: &Entry, role: u8) -> bool
    ensures { result ≡ (is_sent_by role entry.now || is_taken_by role entry.now) }
{
    is_sent_by(entry, role) || is_taken_by(entry, role)
}

// Whether a role does so by an entry, which is undone or not.
fn does_by(entry: &Entry, role: u8, act: Act, undone: bool) -> bool
    ensures { result ≡ does_by role act undone entry.now }
{
    match act {
        Act::Sends => is_sent_by(entry, role),
        Act::Takes => is_taken_by(entry, role),
        Act::Loses => undone && is_of(entry, role),
    }
}

// Whether a role does so by the entry at a place.
fn does(layout: &Layout<'_>, role: u8, act: Act, place: u32) -> bool
    ensures { result ≡ does (scene_of layout.now) role act place }
{
    match layout.entry_at(place) {
        Some(entry) => does_by(entry, role, act, layout.is_undone(place)),
        None => false,
    }
}

// 1 if it is so, else 0.
fn one_if(yes: bool) -> u32
    ensures { result ≡ cond yes 1 0 }
{
    if yes { 1 } else { 0 }
}

/// How often a role does so by the entries from the first up to before the end.
pub fn times(layout: &Layout<'_>, role: u8, act: Act, first: u32, end: u32) -> u32
    requires { first ≤ end }
    ensures { result ≡ times (scene_of layout.now) role act first end }
{
    let mut count = 0;
    for place in first..end {
        let did = does(layout, role, act, place);
        count += one_if(did);
    }
    count
}
