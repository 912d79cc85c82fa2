// What a picture asks of a protocol and its plan.

ghost use Rattle.std.specs.Prelude.{◌≡◌, true, IfOk, IfSome};
ghost use Rattle.rcv_model.specs.Next.{IsPlaceOf, AreNext};
ghost use Rattle.rcv_points.specs.Follow.{net_in};
ghost use Rattle.rcv_session.specs.Session.{net_for};

use rcv_core::setup::Setup;
use rcv_points::points::Points;
use rcv_tree::point::Point;
use rcv_tree::role::RoleId;
use std::alloc::{AllocError, Global};

/// A role: its name, and that of its host, if the plan puts it on one.
#[derive(Clone, Copy)]
pub struct Role<'a> {
    pub name: &'a [u8],
    pub host: Option<&'a [u8]>,
}

/// The message of a point: its label and its ends.
#[derive(Clone, Copy)]
pub struct Message<'a> {
    pub label: &'a [u8],
    pub sender: u8,
    pub receiver: u8,
}

/// The roles and messages of a protocol.
#[derive(Drop)]
pub struct Cast<'a> {
    pub name: &'a [u8],
    /// The points of the text.
    pub points: &'a Points,
    pub roles: Vec<Role<'a>>,
    pub messages: Vec<Message<'a>>,
}

// The roles.
fn roles_of(alloc: Global, setup: &Setup) -> Result<Vec<Role<'_>>, AllocError> {
    let mut roles = Vec::new(alloc);
    let mut number: u8 = 0;
    for name in setup.protocol().roles.as_slice() {
        roles.push(Role {
            name: name.as_slice(),
            host: setup.plan().host(RoleId(number)),
        })?;
        number = number.saturating_add(1);
    }
    Ok(roles)
}

// The messages.
fn messages_of(alloc: Global, points: &Points) -> Result<Vec<Message<'_>>, AllocError> {
    let mut messages = Vec::new(alloc);
    for before in 0..points.count() {
        let point = Point(before + 1);
        messages.push(Message {
            label: points.label(point),
            sender: points.sender(point).0,
            receiver: points.receiver(point).0,
        })?;
    }
    Ok(messages)
}

// Whether this is the start, or a point at which the role sends or receives.
#[tactic(auto, using(crate::proofs::Places::place_of))]
fn is_place(points: &Points, role: RoleId, at: u16) -> bool
    ensures { result ≡ true → IsPlaceOf (net_in points.now) role at }
{
    if at == 0 {
        return true;
    }
    if at > points.count() {
        return false;
    }
    points.is_of(Point(at), role)
}

// The same for a protocol.
fn is_place_in(setup: &Setup, role: RoleId, at: u16) -> bool
    ensures { result ≡ true → IsPlaceOf (net_for setup.now) role at }
{
    is_place(setup.points(), role, at)
}

/// What is next for a role after a point of its own, or at the start if that point is 0; none if it isn't a place of
/// the role.
pub fn next_at(setup: &Setup, role: RoleId, at: u16) -> Option<&[Point]>
    ensures { IfSome result (λ next. AreNext (net_for setup.now) role at next.now) }
{
    if role.0 >= setup.roles() {
        return None;
    }
    if !is_place_in(setup, role, at) {
        return None;
    }
    Some(setup.next(role, at))
}

impl<'a> Cast<'a> {
    /// The cast of a setup. Fails if memory runs out.
    pub fn of(alloc: Global, setup: &'a Setup) -> Result<Cast<'a>, AllocError>
        ensures { IfOk result (λ cast. net_in cast.points.now ≡ net_for setup.now) }
    {
        let points = setup.points();
        Ok(Cast {
            name: setup.protocol().name.as_slice(),
            points,
            roles: roles_of(alloc, setup)?,
            messages: messages_of(alloc, points)?,
        })
    }

    /// How many roles there are.
    pub fn count(&self) -> u32 {
        // There are at most eight.
        self.roles.len().min(8) as u32
    }

    /// The name of a role.
    pub fn name_of(&self, role: u8) -> &'a [u8] {
        match self.roles.get(role as usize) {
            Some(role) => role.name,
            None => b"",
        }
    }

    /// The name of a role's host, if the plan puts it on one.
    pub fn host_of(&self, role: u8) -> Option<&'a [u8]> {
        self.roles.get(role as usize)?.host
    }

    /// The message of a point.
    pub fn message(&self, point: Point) -> Message<'a> {
        match self.messages.get((point.0 as usize).saturating_sub(1)) {
            Some(message) => *message,
            None => Message {
                label: b"",
                sender: 0,
                receiver: 0,
            },
        }
    }
}
