// What a recovery takes back, counted before and after it.

ghost use Rattle.std.specs.Prelude.{◌≡◌, ◌<◌, ◌≤◌, ◌*◌, ◌-◌, ◌/◌, ◌^◌, List, length, slice_index, if◌then◌else◌};
ghost use Rattle.rcv_tree.specs.Bits.{has_bit};
ghost use Rattle.rcv_tree.specs.declared.event.Event.{Event};
ghost use Rattle.rcv_model.specs.Run.{acts, taken};
ghost use Rattle.rcv_model.specs.Journal.{durable};
ghost use Rattle.rcv_session.specs.Session.{roles_of, net_for, rules_of};
ghost use Rattle.rcv_core.specs.Book.{state_of};
ghost use Rattle.rcv_costs.specs.Losses.{sum_over, lost_in, again_on, again_in, HaveReceivedFrom, HaveReceived};

use rcv_core::book::Book;
use rcv_tree::role::{RoleId, RoleSet};

// At most so many roles.
const ROLES: usize = 8;

/// How many messages each declared role has received from each other one.
pub type Received = [[u32; ROLES]; ROLES];

// How many of its kept events a declared role hasn't saved, if it is of the failed group; 0 for another role.
fn lost_by(book: &Book<'_>, group: RoleSet, role: RoleId) -> u32
    requires { role < roles_of book.now.setup }
    ensures { result ≡ (if has_bit group.0 role
        then length (acts role (state_of book.now).kept) - durable (rules_of book.now.setup) (state_of book.now) role
        else 0) }
{
    // Tells the proof that there are few roles.
    let _roles = book.setup().roles();
    if !group.has(role) {
        return 0;
    }
    let made = book.kept(role);
    let every = book.setup().every(role);
    made - made / every * every
}

/// Of the roles that fail with a declared role: how many of their kept events they haven't saved.
pub fn lost(book: &Book<'_>, role: RoleId) -> u64
    requires { role < roles_of book.now.setup }
    ensures { result ≡ lost_in (rules_of book.now.setup) (state_of book.now) role }
{
    let roles = book.setup().roles();
    let group = book.setup().plan().group(role);
    let mut lost = 0;
    for member in 0..roles {
        lost += lost_by(book, group, RoleId(member)) as u64;
    }
    lost
}

// How many messages each declared role has received from this one.
fn received_from(book: &Book<'_>, from: RoleId) -> [u32; ROLES]
    requires { from < roles_of book.now.setup }
    ensures { HaveReceivedFrom (net_for book.now.setup) (roles_of book.now.setup) (state_of book.now).kept from result }
{
    let mut received = [0; ROLES];
    for to in 0..book.setup().roles() {
        let (_put, taken) = book.channel(from, RoleId(to));
        received[to as usize] = taken;
    }
    received
}

/// How many messages each declared role has received from each other one.
pub fn received(book: &Book<'_>) -> Received
    ensures { HaveReceived (net_for book.now.setup) (roles_of book.now.setup) (state_of book.now).kept result }
{
    let mut received = [[0; ROLES]; ROLES];
    for from in 0..book.setup().roles() {
        received[from as usize] = received_from(book, RoleId(from));
    }
    received
}

// How many messages of one channel are received again. So many had been received before the recovery.
fn again_on(book: &Book<'_>, from: RoleId, to: RoleId, received: u32) -> u32
    requires from { from < roles_of book.now.setup }
    requires to { to < roles_of book.now.setup }
    ensures { (old : List Event) → received ≡ length (taken (net_for book.now.setup) from to old)
        → result ≡ again_on (net_for book.now.setup) old (state_of book.now).kept from to }
{
    let (put, taken) = book.channel(from, to);
    received.min(put).saturating_sub(taken)
}

// The same of all channels from one role.
fn again_from(book: &Book<'_>, from: RoleId, received: &[u32; ROLES]) -> u64
    requires { from < roles_of book.now.setup }
    ensures value { (old : List Event)
        → HaveReceivedFrom (net_for book.now.setup) (roles_of book.now.setup) old from received.now
        → result ≡ sum_over (roles_of book.now.setup) (again_on (net_for book.now.setup) old (state_of book.now).kept from) }
    ensures few { result ≤ 8 * 2 ^ 32 }
{
    let mut again = 0;
    for to in 0..book.setup().roles() {
        again += again_on(book, from, RoleId(to), received[to as usize]) as u64;
    }
    again
}

/// How many messages are received again. So many had been received before the recovery.
pub fn again(book: &Book<'_>, received: &Received) -> u64
    ensures { (old : List Event) → HaveReceived (net_for book.now.setup) (roles_of book.now.setup) old received.now
        → result ≡ again_in (net_for book.now.setup) (roles_of book.now.setup) old (state_of book.now).kept }
{
    let mut again = 0;
    for from in 0..book.setup().roles() {
        again += again_from(book, RoleId(from), &received[from as usize]);
    }
    again
}
