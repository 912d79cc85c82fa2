// A plan that was read, and what it says of each role.

ghost use Rattle.std.specs.Prelude.{◌≡◌, ◌≤◌, ◌<◌, ℕ, [], ◌∷◌, map, length, nat_le, nat_lt, IfOk, IfSome, IfNone};
ghost use Rattle.std.specs.List.{count_by, All};
ghost use Rattle.std.specs.List.Sorted.{IsNonDecreasing, IsPermutation};
ghost use Rattle.rcv_tree.specs.Bits.{is_listed};
ghost use Rattle.rcv_model.specs.Plan.{every_in, limit_in, room_in, crashes_in, host_in};
ghost use Rattle.rcv_plan.specs.Lines.{line_in, IsPlanFor, HasReadCount, IsPlanned};
ghost use Rattle.rcv_plan.specs.Shifted.{shifted};
ghost use Rattle.rcv_plan.specs.OneCrash.{calm_lines, with_one_crash};
ghost use Rattle.rcv_plan.specs.Plans.{IsGroup, IsRow, IsSilentOn};

use crate::line::{Line, is_listed};
use rcv_tree::role::{RoleId, RoleSet};
use std::alloc::{AllocError, Global};
use std::marker::Model;

/// What the lines say of a role.
#[derive(Drop)]
pub struct Row {
    pub every: u32,
    pub group: RoleSet,
    // Ascending.
    pub crashes: Vec<u32>,
}

/// A plan, seen as its lines. Numbers and roles are in their ranges.
#[derive(Drop)]
pub struct Plan {
    lines: Vec<Line>,
    // For each role of the protocol.
    rows: Vec<Row>,
    limit: u32,
    room: u32,
}

impl Model for Plan {
    ghost use Rattle.std.specs.Prelude.{List, map};
    ghost use Rattle.rcv_model.specs.Plan.{PlanLine};
    ghost use Rattle.rcv_plan.specs.Lines.{line_in};
    ghost use Rattle.rcv_plan.specs.Plans.{IsPlanMade};

    ghost Value = { List PlanLine };

    ghost view = { λ a. map line_in a.lines.items };

    ghost invariant = { λ a. IsPlanMade (map line_in a.lines.items) a.rows.items a.limit a.room };
}

impl Plan {
    /// The plan of these lines, for so many roles.
    pub(crate) fn of(alloc: Global, roles: u8, lines: Vec<Line>) -> Result<Plan, AllocError>
        requires few { roles ≤ 8 }
        requires fits { IsPlanFor roles (map line_in lines.items) }
        ensures { IfOk result (λ plan. plan ≡ map line_in lines.items) }
    {
        let mut rows = Vec::new(alloc);
        for number in 0..roles {
            rows.push(row_of(alloc, lines.as_slice(), RoleId(number))?)?;
        }
        let limit = limit_of(lines.as_slice());
        let room = room_of(lines.as_slice());
        Ok(Plan {
            lines,
            rows,
            limit,
            room,
        })
    }

    /// The plan of a later one of several sessions: with so many added to each crash count. The counts of this plan are
    /// at most 100,000. Fails if memory runs out.
    pub fn shifted(&self, alloc: Global, by: u32) -> Result<Plan, AllocError>
        requires by { by ≤ 63 }
        requires counts { All HasReadCount self.now }
        ensures lines { IfOk result (λ plan. plan ≡ shifted by self.now) }
        ensures planned { (roles : ℕ) → IsPlanned roles self.now → IsPlanned roles (shifted by self.now) }
    {
        let lines = shifted_lines(alloc, self.lines.as_slice(), by)?;
        Plan::of(alloc, self.rows.len() as u8, lines)
    }

    /// The same plan, except for its crash lines: this role alone crashes, once, at this count of its events. So many
    /// roles are declared. Fails if memory runs out.
    pub fn with_one_crash(
        &self,
        alloc: Global,
        roles: u8,
        role: RoleId,
        number: u32,
    ) -> Result<Plan, AllocError>
        requires few { roles ≤ 8 }
        requires declared { role < roles }
        requires number { number ≤ 100000 }
        requires planned { IsPlanned roles self.now }
        ensures lines { IfOk result (λ plan. plan ≡ with_one_crash role number self.now) }
        ensures planned { IsPlanned roles (with_one_crash role number self.now) }
    {
        let lines = lines_with_one_crash(alloc, self.lines.as_slice(), role, number)?;
        Plan::of(alloc, roles, lines)
    }

    /// The name of the host that a role shares; none if it shares none.
    pub fn host(&self, role: RoleId) -> Option<&[u8]>
        ensures { IfNone result (host_in self.now role ≡ []) }
    {
        host_name(self.lines.as_slice(), role)
    }

    // What the lines say of a role, if they say anything.
    fn said_of(&self, role: RoleId) -> Option<&Row>
        ensures some { IfSome result (λ row. IsRow self.now role row.now) }
        ensures none { IfNone result (IsSilentOn self.now role) }
        ensures fits { IsPlanFor 8 self.now }
    {
        self.rows.as_slice().get(role.0 as usize)
    }

    /// A role saves a state every so many of its events: 1 to 100,000. It takes no memory.
    pub fn every(&self, role: RoleId) -> u32
        ensures value { result ≡ every_in self.now role }
        ensures first { 1 ≤ result }
        ensures last { result ≤ 100000 }
    {
        match self.said_of(role) {
            Some(row) => row.every,
            None => 1,
        }
    }

    /// Whether a role with this raw count has crashed less often than it has crash lines up to there.
    /// It takes no memory, and the same time whatever the plan.
    pub fn due(&self, role: RoleId, raw: u32, crashes: u32) -> bool
        ensures { result ≡ nat_lt crashes (count_by (λ n. nat_le n raw) (crashes_in self.now role)) }
    {
        match self.said_of(role) {
            Some(row) => is_due(row.crashes.as_slice(), raw, crashes),
            None => false,
        }
    }

    /// How many crash lines a role has. It takes no memory.
    pub fn crashes(&self, role: RoleId) -> usize
        ensures { result ≡ length (crashes_in self.now role) }
    {
        match self.said_of(role) {
            Some(row) => row.crashes.len(),
            None => 0,
        }
    }

    /// How many events a role may make: 1 to 100,000. It takes no memory.
    pub fn limit(&self) -> u32
        ensures value { result ≡ limit_in self.now }
        ensures first { 1 ≤ result }
        ensures last { result ≤ 100000 }
    {
        self.limit
    }

    /// How many messages a channel holds: 1 to 1,024. It takes no memory.
    pub fn room(&self) -> u32
        ensures value { result ≡ room_in self.now }
        ensures first { 1 ≤ result }
        ensures last { result ≤ 1024 }
    {
        self.room
    }

    /// The role, which is below 8, with the other roles of its host. It takes no memory.
    pub fn group(&self, role: RoleId) -> RoleSet
        requires { role < 8 }
        ensures { IsGroup self.now role result.0 }
    {
        match self.said_of(role) {
            Some(row) => row.group,
            None => RoleSet(0).with(role),
        }
    }
}

// The lines of a later session.
fn shifted_lines(alloc: Global, lines: &[Line], by: u32) -> Result<Vec<Line>, AllocError>
    requires by { by ≤ 63 }
    requires counts { All (λ line. HasReadCount (line_in line)) lines.now }
    ensures { IfOk result (λ later. map line_in later.items ≡ shifted by (map line_in lines.now)) }
{
    let mut later = Vec::new(alloc);
    for line in lines {
        later.push(line.shifted(alloc, by)?)?;
    }
    Ok(later)
}

// The lines that are no crash lines.
fn calm_lines(alloc: Global, lines: &[Line]) -> Result<Vec<Line>, AllocError>
    ensures { IfOk result (λ calm. map line_in calm.items ≡ calm_lines (map line_in lines.now)) }
{
    let mut calm = Vec::new(alloc);
    for line in lines {
        if !line.is_any_crash() {
            calm.push(line.copied(alloc)?)?;
        }
    }
    Ok(calm)
}

// These lines, and then the one crash line.
fn lines_with_one_crash(
    alloc: Global,
    lines: &[Line],
    role: RoleId,
    number: u32,
) -> Result<Vec<Line>, AllocError>
    ensures { IfOk result (λ made. map line_in made.items ≡ with_one_crash role number (map line_in lines.now)) }
{
    let mut calm = calm_lines(alloc, lines)?;
    calm.push(Line::Crash { role, number })?;
    Ok(calm)
}

// The name of the host that has a role.
fn host_name(lines: &[Line], role: RoleId) -> Option<&[u8]>
    ensures { IfNone result (host_in (map line_in lines.now) role ≡ []) }
{
    for line in lines {
        if let Line::Host { name, roles } = line
            && is_listed(roles.as_slice(), role)
        {
            return Some(name.as_slice());
        }
    }
    None
}

// Whether the count that comes after so many others has been reached.
fn is_due(counts: &[u32], raw: u32, crashes: u32) -> bool
    requires { IsNonDecreasing counts.now }
    ensures { result ≡ nat_lt crashes (count_by (λ n. nat_le n raw) counts.now) }
{
    match counts.get(crashes as usize) {
        Some(count) => *count <= raw,
        None => false,
    }
}

// What the lines say of a role.
fn row_of(alloc: Global, lines: &[Line], role: RoleId) -> Result<Row, AllocError>
    requires role { role < 8 }
    requires fits { IsPlanFor 8 (map line_in lines.now) }
    ensures { IfOk result (IsRow (map line_in lines.now) role) }
{
    Ok(Row {
        every: every_of(lines, role),
        group: group_of(lines, role),
        crashes: crashes_of(alloc, lines, role)?,
    })
}

fn every_of(lines: &[Line], role: RoleId) -> u32
    ensures { result ≡ every_in (map line_in lines.now) role }
{
    for line in lines {
        if let Line::Every { role: of, number } = line
            && *of == role
        {
            return *number;
        }
    }
    1
}

fn limit_of(lines: &[Line]) -> u32
    ensures { result ≡ limit_in (map line_in lines.now) }
{
    for line in lines {
        if let Line::Limit(number) = line {
            return *number;
        }
    }
    10_000
}

fn room_of(lines: &[Line]) -> u32
    ensures { result ≡ room_in (map line_in lines.now) }
{
    for line in lines {
        if let Line::Room(number) = line {
            return *number;
        }
    }
    64
}

// The counts at which a role crashes, ascending.
fn crashes_of(alloc: Global, lines: &[Line], role: RoleId) -> Result<Vec<u32>, AllocError>
    ensures all { IfOk result (λ counts. IsPermutation (crashes_in (map line_in lines.now) role) counts.items) }
    ensures ascending { IfOk result (λ counts. IsNonDecreasing counts.items) }
{
    let mut counts = Vec::new(alloc);
    for line in lines {
        if let Line::Crash { role: of, number } = line
            && *of == role
        {
            counts.push(*number)?;
        }
    }
    counts.sort_unstable();
    Ok(counts)
}

// The roles of the host that names a role; none if no host does.
fn host_of<'a>(lines: &'a [Line], role: RoleId) -> &'a [RoleId]
    ensures { result.now ≡ host_in (map line_in lines.now) role }
{
    for line in lines {
        if let Line::Host { roles, .. } = line
            && is_listed(roles.as_slice(), role)
        {
            return roles.as_slice();
        }
    }
    &[]
}

// A role with the other roles of its host.
fn group_of(lines: &[Line], role: RoleId) -> RoleSet
    requires role { role < 8 }
    requires fits { IsPlanFor 8 (map line_in lines.now) }
    ensures { IsGroup (map line_in lines.now) role result.0 }
{
    let mut group = RoleSet(0).with(role);
    for member in host_of(lines, role) {
        group = group.with(*member);
    }
    group
}
