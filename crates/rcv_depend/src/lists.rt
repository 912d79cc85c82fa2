// Logs as lists of events, which have counted nothing.

ghost use Rattle.std.specs.Prelude.{◌≡◌, ◌≤◌, length};
ghost use Rattle.rcv_model.specs.Run.{put, taken, puts_on, takes_on};
ghost use Rattle.rcv_points.specs.Follow.{net_in};
ghost use Rattle.rcv_tree.specs.Lists.{lists_in};
ghost use Rattle.rcv_depend.specs.Logs.{AreSound, IsSoundLog};

use crate::event_logs::EventLogs;
use crate::mark::Mark;
use rcv_points::points::Points;
use rcv_tree::event::{Dir, Event};
use rcv_tree::role::RoleId;

/// For each role, in order of declaration, what it did.
pub type Logs = Vec<Vec<Event>>;

impl EventLogs for Logs {
    ghost logs = { λ x. lists_in x.items };

    ghost are_of = { λ x net. AreSound net (lists_in x.items) };

    ghost sound = { λ x net sound. sound };

    fn roles(&self) -> usize {
        self.len()
    }

    fn made(&self, role: RoleId) -> usize {
        self[role.0 as usize].len()
    }

    fn mark(&self, role: RoleId, number: usize) -> Mark {
        Mark::of(&self[role.0 as usize][number])
    }

    // It looks at all events of both roles.
    fn counts(&self, points: &Points, from: RoleId, to: RoleId) -> (usize, usize) {
        let put = put_by(&self[from.0 as usize], points, from, to);
        let taken = taken_by(&self[to.0 as usize], points, from, to);
        (put, taken)
    }
}

// How many messages these events of one role put on its channel to another one.
fn put_by(log: &[Event], points: &Points, from: RoleId, to: RoleId) -> usize
    requires { IsSoundLog (net_in points.now) from log.now }
    ensures { result ≡ length (put (net_in points.now) from to log.now) }
{
    let mut count = 0;
    for number in 0..log.len() {
        if puts(&log[number], points, from, to) {
            count += 1;
        }
    }
    count
}

// How many messages these events of one role took from the channel that another one has to it.
fn taken_by(log: &[Event], points: &Points, from: RoleId, to: RoleId) -> usize
    requires { IsSoundLog (net_in points.now) to log.now }
    ensures { result ≡ length (taken (net_in points.now) from to log.now) }
{
    let mut count = 0;
    for number in 0..log.len() {
        if takes(&log[number], points, from, to) {
            count += 1;
        }
    }
    count
}

// Whether the event puts a message on the channel.
fn puts(event: &Event, points: &Points, from: RoleId, to: RoleId) -> bool
    requires first { 1 ≤ event.now.point }
    requires last { event.now.point ≤ (net_in points.now).count }
    ensures { result ≡ puts_on (net_in points.now) from to event.now }
{
    match event.dir {
        Dir::Sent => event.role == from && points.receiver(event.point) == to,
        Dir::Got => false,
    }
}

// Whether the event takes one from it.
fn takes(event: &Event, points: &Points, from: RoleId, to: RoleId) -> bool
    requires first { 1 ≤ event.now.point }
    requires last { event.now.point ≤ (net_in points.now).count }
    ensures { result ≡ takes_on (net_in points.now) from to event.now }
{
    match event.dir {
        Dir::Sent => false,
        Dir::Got => event.role == to && points.sender(event.point) == from,
    }
}
