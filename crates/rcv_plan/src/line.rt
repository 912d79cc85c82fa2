// The lines of a plan.

ghost use Rattle.std.specs.Prelude.{◌≡◌, ◌≤◌, IfOk};
ghost use Rattle.rcv_tree.specs.Bits.{is_listed};
ghost use Rattle.rcv_plan.specs.Lines.{line_in, is_every, is_limit, is_room, is_host, is_any_crash, HasReadCount};
ghost use Rattle.rcv_model.specs.Plan.{HostLine};
ghost use Rattle.rcv_plan.specs.Shifted.{later_line};

use rcv_tree::name::Name;
use rcv_tree::role::{RoleId, Roles};
use std::alloc::{AllocError, Global};

/// A line of a plan.
#[derive(Drop)]
pub enum Line {
    /// The role saves a state every so many events.
    Every { role: RoleId, number: u32 },
    /// The role crashes at this count of its events.
    Crash { role: RoleId, number: u32 },
    /// How many events a role may make.
    Limit(u32),
    /// How many messages a channel holds.
    Room(u32),
    /// The roles of one host, which has this name.
    Host { name: Name, roles: Roles },
}

impl Line {
    /// The line of a later session, in which crash counts are so many more. Fails if memory runs out.
    pub fn shifted(&self, alloc: Global, by: u32) -> Result<Line, AllocError>
        requires by { by ≤ 63 }
        requires count { HasReadCount (line_in self.now) }
        ensures { IfOk result (λ line. line_in line ≡ later_line by (line_in self.now)) }
    {
        Ok(match self {
            Line::Every { role, number } => Line::Every {
                role: *role,
                number: *number,
            },
            Line::Crash { role, number } => Line::Crash {
                role: *role,
                number: *number + by,
            },
            Line::Limit(number) => Line::Limit(*number),
            Line::Room(number) => Line::Room(*number),
            Line::Host { name, roles } => copied_host(alloc, name, roles)?,
        })
    }

    /// The same line. Fails if memory runs out.
    pub fn copied(&self, alloc: Global) -> Result<Line, AllocError>
        ensures { IfOk result (λ line. line_in line ≡ line_in self.now) }
    {
        Ok(match self {
            Line::Every { role, number } => Line::Every {
                role: *role,
                number: *number,
            },
            Line::Crash { role, number } => Line::Crash {
                role: *role,
                number: *number,
            },
            Line::Limit(number) => Line::Limit(*number),
            Line::Room(number) => Line::Room(*number),
            Line::Host { name, roles } => copied_host(alloc, name, roles)?,
        })
    }

    /// Whether it says where a role crashes.
    pub fn is_any_crash(&self) -> bool
        ensures { result ≡ is_any_crash (line_in self.now) }
    {
        matches!(self, Line::Crash { .. })
    }

    /// Whether it says how often this role saves.
    pub fn is_every(&self, role: RoleId) -> bool
        ensures { result ≡ is_every role (line_in self.now) }
    {
        match self {
            Line::Every { role: of, .. } => *of == role,
            _ => false,
        }
    }

    /// Whether it says how many events a role may make.
    pub fn is_limit(&self) -> bool
        ensures { result ≡ is_limit (line_in self.now) }
    {
        matches!(self, Line::Limit(_))
    }

    /// Whether it says how many messages a channel holds.
    pub fn is_room(&self) -> bool
        ensures { result ≡ is_room (line_in self.now) }
    {
        matches!(self, Line::Room(_))
    }

    /// Whether it is a host that has this role.
    pub fn hosts(&self, role: RoleId) -> bool
        ensures { result ≡ is_host role (line_in self.now) }
    {
        match self {
            Line::Host { roles, .. } => is_listed(roles.as_slice(), role),
            _ => false,
        }
    }
}

/// Whether the role is one of these.
pub fn is_listed(roles: &[RoleId], role: RoleId) -> bool
    ensures { result ≡ is_listed roles.now role }
{
    roles.iter().any(|other| *other == role)
}

// The same host.
fn copied_host(alloc: Global, name: &Name, roles: &Roles) -> Result<Line, AllocError>
    ensures { IfOk result (λ line. line_in line ≡ HostLine roles.now) }
{
    Ok(Line::Host {
        name: Name::of(alloc, name.as_slice())?,
        roles: copied(alloc, roles)?,
    })
}

// The same roles.
fn copied(alloc: Global, roles: &Roles) -> Result<Roles, AllocError>
    ensures { IfOk result (λ copy. copy ≡ roles.now) }
{
    let mut copy = Roles::new(alloc);
    for role in roles.as_slice() {
        copy.push(*role)?;
    }
    Ok(copy)
}
