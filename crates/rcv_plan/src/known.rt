// What was read so far of a plan.

ghost use Rattle.std.specs.Prelude.{◌≡◌, ◌<◌, ℕ, [], map, false, OnOk};
ghost use Rattle.rcv_model.specs.Plan.{CrashLine};
ghost use Rattle.rcv_plan.specs.Lines.{has_every, has_crash, has_limit, has_room, is_hosted, is_crash, line_in};
ghost use Rattle.rcv_plan.specs.Codes.{is_among};
ghost use Rattle.rcv_plan.specs.Items.{with_line, with_host};

use crate::crash_counts::CrashCounts;
use crate::line::Line;
use rcv_lexer::is;
use rcv_tree::name::Name;
use rcv_tree::role::{RoleId, Roles};
use std::alloc::{AllocError, Global};
use std::marker::Model;

/// The lines so far, and the names of their hosts.
#[derive(Drop)]
pub struct Known<'a> {
    lines: Vec<Line>,
    // The counts at which their crash lines let roles crash, to find one.
    crashes: CrashCounts,
    names: Vec<&'a [u8]>,
}

impl<'a> Model for Known<'a> {
    ghost use Rattle.std.specs.Prelude.{map};
    ghost use Rattle.rcv_plan.specs.Lines.{line_in};
    ghost use Rattle.rcv_plan.specs.Items.{KnownView, AreFound};

    ghost Value = { KnownView };

    ghost view = { λ a. record { lines = map line_in a.lines.items; names = map (λ n. n.now) a.names.items } };

    ghost invariant = { λ a. AreFound a.crashes (map line_in a.lines.items) };
}

impl<'a> Known<'a> {
    /// Nothing yet. It keeps the allocator, and takes no memory.
    pub fn new(alloc: Global) -> Self
        ensures { result ≡ record { lines = []; names = [] } }
    {
        Known {
            lines: Vec::new(alloc),
            crashes: CrashCounts::new(alloc),
            names: Vec::new(alloc),
        }
    }

    /// The lines.
    pub fn into_lines(self) -> Vec<Line>
        ensures { map line_in result.items ≡ self.entry.lines }
    {
        self.lines
    }

    /// Whether a line says how often this role saves.
    pub fn has_every(&self, role: RoleId) -> bool
        ensures { result ≡ has_every role self.now.lines }
    {
        any_every(self.lines.as_slice(), role)
    }

    /// Whether a line lets this role, which is below 8, crash at this count. It takes the same time whatever the lines.
    pub fn has_crash(&self, role: RoleId, number: u32) -> bool
        requires { role < 8 }
        ensures { result ≡ has_crash role number self.now.lines }
    {
        self.crashes.has(role, number)
    }

    /// Whether a line says how many events a role may make.
    pub fn has_limit(&self) -> bool
        ensures { result ≡ has_limit self.now.lines }
    {
        any_limit(self.lines.as_slice())
    }

    /// Whether a line says how many messages a channel holds.
    pub fn has_room(&self) -> bool
        ensures { result ≡ has_room self.now.lines }
    {
        any_room(self.lines.as_slice())
    }

    /// Whether a host has this role.
    pub fn is_hosted(&self, role: RoleId) -> bool
        ensures { result ≡ is_hosted role self.now.lines }
    {
        any_host(self.lines.as_slice(), role)
    }

    /// Whether a host has this name.
    pub fn has_name(&self, name: &[u8]) -> bool
        ensures { result ≡ is_among name.now self.now.names }
    {
        is_among(self.names.as_slice(), name)
    }

    /// Appends a line that is no crash line. Fails if memory runs out.
    pub fn push(&mut self, line: Line) -> Result<(), AllocError>
        requires { (r n : ℕ) → is_crash r n (line_in line) ≡ false }
        ensures { OnOk result (self.new ≡ with_line self.old (line_in line)) }
    {
        self.lines.push(line)?;
        Ok(())
    }

    /// Appends a crash line of a role below 8. Fails if memory runs out.
    pub fn push_crash(&mut self, role: RoleId, number: u32) -> Result<(), AllocError>
        requires { role < 8 }
        ensures { OnOk result (self.new ≡ with_line self.old (CrashLine role number)) }
    {
        self.lines.push(Line::Crash { role, number })?;
        let Ok(()) = self.crashes.add(role, number) else {
            self.lines.pop();
            return Err(AllocError);
        };
        Ok(())
    }

    /// Appends a host with its name. Fails if memory runs out.
    pub fn push_host(
        &mut self,
        alloc: Global,
        name: &'a [u8],
        roles: Roles,
    ) -> Result<(), AllocError>
        ensures { OnOk result (self.new ≡ with_host self.old name.now roles) }
    {
        let kept = Name::of(alloc, name)?;
        self.names.push(name)?;
        self.lines.push(Line::Host { name: kept, roles })?;
        Ok(())
    }
}

fn any_every(lines: &[Line], role: RoleId) -> bool
    ensures { result ≡ has_every role (map line_in lines.now) }
{
    for line in lines {
        if line.is_every(role) {
            return true;
        }
    }
    false
}

fn any_limit(lines: &[Line]) -> bool
    ensures { result ≡ has_limit (map line_in lines.now) }
{
    for line in lines {
        if line.is_limit() {
            return true;
        }
    }
    false
}

fn any_room(lines: &[Line]) -> bool
    ensures { result ≡ has_room (map line_in lines.now) }
{
    for line in lines {
        if line.is_room() {
            return true;
        }
    }
    false
}

fn any_host(lines: &[Line], role: RoleId) -> bool
    ensures { result ≡ is_hosted role (map line_in lines.now) }
{
    for line in lines {
        if line.hosts(role) {
            return true;
        }
    }
    false
}

fn is_among(names: &[&[u8]], name: &[u8]) -> bool
    ensures { result ≡ is_among name.now (map (λ n. n.now) names.now) }
{
    for other in names {
        if is(other, name) {
            return true;
        }
    }
    false
}
