// The channels of a new session, and the cells at their ends.

ghost use Rattle.std.specs.Prelude.{◌≡◌, ◌+◌, ◌<◌, ◌≤◌, ◌↔◌, ℕ, IsTrue, [], ◌∷◌, ◌++◌, length, IfOk, OnOk};
ghost use Rattle.rcv_session.specs.Session.{roles_of, net_for, rules_of};
ghost use Rattle.rcv_cells.specs.Home.{AreHome, HaveBases};
ghost use Rattle.rcv_cells.specs.Making.{ArePointsBetween, IsSetBetween, IsNewChannel, AreOpen, AreOpenTo, AreFirst};
ghost use Rattle.rcv_cells.specs.Making.{with_ends, no_ends};

use rcv_core::setup::Setup;
use rcv_mailbox::{Inbox, Post, channel};
use rcv_role::cell::Cell;
use rcv_tree::point::{Point, PointSet};
use rcv_tree::role::RoleId;
use std::alloc::{AllocError, Global};
use std::marker::Model;

/// The ends of a role's channels.
#[derive(Drop)]
pub struct Ends {
    posts: Vec<Post>,
    inboxes: Vec<Inbox>,
}

impl Model for Ends {
    ghost use Rattle.rcv_cells.specs.Making.{EndsView};

    ghost Value = { EndsView };

    ghost view = { λ e. record { posts = e.posts.items; inboxes = e.inboxes.items } };
}

impl Ends {
    // None yet.
    fn new(alloc: Global) -> Ends
        ensures { result ≡ no_ends }
    {
        Ends {
            posts: Vec::new(alloc),
            inboxes: Vec::new(alloc),
        }
    }

    // Adds those with one role more.
    fn push(&mut self, post: Post, inbox: Inbox) -> Result<(), AllocError>
        ensures { OnOk result (self.new ≡ with_ends self.old post inbox) }
    {
        self.posts.push(post)?;
        self.inboxes.push(inbox)?;
        Ok(())
    }
}

// Whether a point of the text goes from one role to another.
fn goes(setup: &Setup, point: Point, from: RoleId, to: RoleId) -> bool
    requires first { 1 ≤ point }
    requires last { point ≤ (net_for setup.now).count }
    ensures { IsTrue result ↔ (((net_for setup.now).sender point ≡ from) × ((net_for setup.now).receiver point ≡ to)) }
{
    if setup.sender(point) != from {
        return false;
    }
    setup.receiver(point) == to
}

// Adds the point after so many of the text, if it goes from one role to another.
fn add_point(
    setup: &Setup,
    points: &mut Vec<Point>,
    number: u16,
    from: RoleId,
    to: RoleId,
) -> Result<(), AllocError>
    requires last { number < (net_for setup.now).count }
    requires few { (net_for setup.now).count ≤ 256 }
    requires points { ArePointsBetween (net_for setup.now) from to number points.old.items }
    ensures { OnOk result (ArePointsBetween (net_for setup.now) from to (number + 1) points.new.items) }
{
    let point = Point(number + 1);
    if !goes(setup, point, from, to) {
        return Ok(());
    }
    points.push(point)?;
    Ok(())
}

// The points from one role to another.
fn points_between(
    alloc: Global,
    setup: &Setup,
    from: RoleId,
    to: RoleId,
) -> Result<PointSet, AllocError>
    ensures { IfOk result (λ set. IsSetBetween (net_for setup.now) from to set.0) }
{
    let count = setup.points().count();
    let mut points = Vec::new(alloc);
    for number in 0..count {
        add_point(setup, &mut points, number, from, to)?;
    }
    Ok(PointSet::of(points.as_slice()))
}

// A channel from one role to another.
fn open(alloc: Global, setup: &Setup, from: RoleId, to: RoleId) -> Result<(Post, Inbox), AllocError>
    ensures { IfOk result (λ ends. IsNewChannel (rules_of setup.now) from to ends.0 ends.1) }
{
    let points = points_between(alloc, setup, from, to)?;
    channel(alloc, setup.room(), setup.limit(), points)
}

// One role more, with a channel to each before it and one from each.
fn add_role(alloc: Global, setup: &Setup, all: &mut Vec<Ends>, role: u8) -> Result<(), AllocError>
    requires { AreOpen (rules_of setup.now) role all.old.items }
    ensures { OnOk result (AreOpen (rules_of setup.now) (role + 1) all.new.items) }
{
    let mut mine = Ends::new(alloc);
    for other in 0..role {
        join(alloc, setup, all, &mut mine, role, other)?;
    }
    all.push(mine)?;
    Ok(())
}

// A channel from the new role to another one, and one back.
fn join(
    alloc: Global,
    setup: &Setup,
    all: &mut Vec<Ends>,
    mine: &mut Ends,
    role: u8,
    other: u8,
) -> Result<(), AllocError>
    requires other { other < role }
    requires joined { AreOpenTo (rules_of setup.now) role other all.old.items mine.old }
    ensures { OnOk result (AreOpenTo (rules_of setup.now) role (other + 1) all.new.items mine.new) }
{
    let (post, their_inbox) = open(alloc, setup, RoleId(role), RoleId(other))?;
    let (their_post, inbox) = open(alloc, setup, RoleId(other), RoleId(role))?;
    mine.push(post, inbox)?;
    let theirs = &mut all[other as usize];
    theirs.push(their_post, their_inbox)?;
    Ok(())
}

// The ends of all roles.
fn channels(alloc: Global, setup: &Setup) -> Result<Vec<Ends>, AllocError>
    ensures { IfOk result (λ all. AreOpen (rules_of setup.now) (roles_of setup.now) all.items) }
{
    let mut all = Vec::new(alloc);
    for role in 0..setup.roles() {
        add_role(alloc, setup, &mut all, role)?;
    }
    Ok(all)
}

// The cells at these ends.
fn cells_at<'a>(
    alloc: Global,
    setup: &'a Setup,
    all: &mut Vec<Ends>,
) -> Result<Vec<Cell<'a>>, AllocError>
    requires { AreOpen (rules_of setup.now) (roles_of setup.now) all.old.items }
    ensures { IfOk result (λ cells. AreFirst setup.now (roles_of setup.now) all.old.items cells.items) }
{
    let mut cells = Vec::with_capacity(alloc, setup.roles() as usize)?;
    for role in 0..setup.roles() {
        let Ends { posts, inboxes } = all.remove(0);
        let cell = Cell::new(alloc, setup, RoleId(role), posts, inboxes)?;
        cells.push(cell)?;
    }
    Ok(cells)
}

/// The cells of all roles before their first events, at home with the empty book. Fails if memory runs out.
pub fn cells<'a>(alloc: Global, setup: &'a Setup) -> Result<Vec<Cell<'a>>, AllocError>
    ensures home { IfOk result (λ cells. AreHome (record { setup = setup.now; entries = [] }) cells.items) }
    ensures bases { IfOk result (λ cells. HaveBases (roles_of setup.now) [] cells.items) }
{
    let mut all = channels(alloc, setup)?;
    let cells = cells_at(alloc, setup, &mut all)?;
    Ok(cells)
}
