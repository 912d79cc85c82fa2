// Reads one item of a plan.

ghost use Rattle.std.specs.Prelude.{◌≡◌, ◌≤◌, ◌<◌, ◌∷◌, length, true, false, IfSome, IfNone, IfOk, OnOk};
ghost use Rattle.rcv_plan.specs.Symbols.{Is, IsNotNext};
ghost use Rattle.rcv_plan.specs.Codes.{within, is_second, is_second_every};
ghost use Rattle.rcv_plan.specs.Items.{
  Goes,
  next_sign,
  next_role,
  next_number,
  next_count,
  next_name,
  next_member,
  next_members,
  host_roles,
  every_line,
  crash_line,
  limit_line,
  room_line,
  host_line,
  is_first_word,
  line_by,
  next_item,
};

use crate::fault::{Fault, PlanError};
use crate::known::Known;
use crate::line::{Line, is_listed};
use crate::sign::Sign;
use rcv_lexer::{Ahead, is};
use rcv_tree::name::Names;
use rcv_tree::role::{RoleId, Roles};
use std::alloc::Global;

/// What is still to be read.
#[derive(Drop)]
pub struct Reader<'a> {
    pub rest: Ahead<'a, Sign>,
}

// The number, if it is in the range.
fn in_range(number: u64, low: u32, high: u32) -> Option<u32>
    ensures some { IfSome result (λ n. (n ≡ number) × (within low high n ≡ true)) }
    ensures none { IfNone result (within low high number ≡ false) }
{
    if number < low as u64 || (high as u64) < number {
        return None;
    }
    Some(number as u32)
}

impl<'a> Reader<'a> {
    // Takes this mark.
    fn expect(&mut self, sign: Sign) -> Result<(), PlanError>
        ensures goes { Goes result (λ _. sign) self.new.rest (next_sign sign self.old.rest) }
        ensures shorter { length self.new.rest ≤ length self.old.rest }
    {
        let Some(after) = self.rest.sign(sign) else {
            return Err(PlanError::Refused(Fault::Token));
        };
        self.rest = after;
        Ok(())
    }

    // Takes a comma if it is next.
    fn takes_comma(&mut self) -> bool
        ensures yes { result ≡ true → self.old.rest ≡ Is Sign.Comma ∷ self.new.rest }
        ensures no { result ≡ false → IsNotNext (Is Sign.Comma) self.old.rest }
        ensures kept { result ≡ false → self.new.rest ≡ self.old.rest }
    {
        let Some(after) = self.rest.sign(Sign::Comma) else {
            return false;
        };
        self.rest = after;
        true
    }

    // Takes a role that is declared.
    fn role(&mut self, roles: &Names) -> Result<RoleId, PlanError>
        requires { length roles.now ≤ 8 }
        ensures goes { Goes result (λ role. role) self.new.rest (next_role roles.now self.old.rest) }
        ensures few { IfOk result (λ role. role < 8) }
        ensures shorter { length self.new.rest ≤ length self.old.rest }
    {
        let Some((name, after)) = self.rest.word() else {
            return Err(PlanError::Refused(Fault::Token));
        };
        let Some(place) = roles.place_of(name) else {
            return Err(PlanError::Refused(Fault::Role));
        };
        self.rest = after;
        Ok(RoleId(place as u8))
    }

    // Takes a number in a range.
    fn number(&mut self, low: u32, high: u32) -> Result<u32, PlanError>
        ensures goes { Goes result (λ n. n) self.new.rest (next_number low high self.old.rest) }
        ensures shorter { length self.new.rest ≤ length self.old.rest }
    {
        let Some((number, after)) = self.rest.number() else {
            return Err(PlanError::Refused(Fault::Token));
        };
        let Some(number) = in_range(number, low, high) else {
            return Err(PlanError::Refused(Fault::Range));
        };
        self.rest = after;
        Ok(number)
    }

    // Takes the number of a crash line that doesn't stand before.
    fn count(&mut self, known: &Known<'a>, role: RoleId) -> Result<u32, PlanError>
        requires { role < 8 }
        ensures goes { Goes result (λ n. n) self.new.rest (next_count known.now role self.old.rest) }
        ensures shorter { length self.new.rest ≤ length self.old.rest }
    {
        let Some((number, after)) = self.rest.number() else {
            return Err(PlanError::Refused(Fault::Token));
        };
        let Some(number) = in_range(number, 0, 100_000) else {
            return Err(PlanError::Refused(Fault::Range));
        };
        if known.has_crash(role, number) {
            return Err(PlanError::Refused(Fault::Twice));
        }
        self.rest = after;
        Ok(number)
    }

    // Takes the name of a host that doesn't stand before.
    fn name(&mut self, known: &Known<'a>) -> Result<&'a [u8], PlanError>
        ensures goes { Goes result (λ h. h.now) self.new.rest (next_name known.now self.old.rest) }
        ensures shorter { length self.new.rest ≤ length self.old.rest }
    {
        let Some((name, after)) = self.rest.word() else {
            return Err(PlanError::Refused(Fault::Token));
        };
        if known.has_name(name) {
            return Err(PlanError::Refused(Fault::Twice));
        }
        self.rest = after;
        Ok(name)
    }

    // Takes a role that has no host yet.
    fn member(
        &mut self,
        roles: &Names,
        known: &Known<'a>,
        members: &mut Roles,
    ) -> Result<(), PlanError>
        requires { length roles.now ≤ 8 }
        ensures goes { Goes result (λ _. members.new) self.new.rest
            (next_member roles.now known.now members.old self.old.rest) }
        ensures shorter { length self.new.rest ≤ length self.old.rest }
    {
        let Some((name, after)) = self.rest.word() else {
            return Err(PlanError::Refused(Fault::Token));
        };
        let Some(place) = roles.place_of(name) else {
            return Err(PlanError::Refused(Fault::Role));
        };
        let role = RoleId(place as u8);
        if is_listed(members.as_slice(), role) || known.is_hosted(role) {
            return Err(PlanError::Refused(Fault::Twice));
        }
        members.push(role)?;
        self.rest = after;
        Ok(())
    }

    // Takes the other roles of a host.
    fn members(
        &mut self,
        roles: &Names,
        known: &Known<'a>,
        members: &mut Roles,
    ) -> Result<(), PlanError>
        requires { length roles.now ≤ 8 }
        ensures goes { Goes result (λ _. members.new) self.new.rest
            (next_members roles.now known.now members.old self.old.rest) }
        ensures shorter { length self.new.rest ≤ length self.old.rest }
    {
        while self.takes_comma() {
            self.member(roles, known, members)?;
        }
        Ok(())
    }

    // Takes the roles of a host, which are two or more.
    fn host_roles(
        &mut self,
        alloc: Global,
        roles: &Names,
        known: &Known<'a>,
    ) -> Result<Roles, PlanError>
        requires { length roles.now ≤ 8 }
        ensures goes { Goes result (λ qs. qs) self.new.rest (host_roles roles.now known.now self.old.rest) }
        ensures shorter { length self.new.rest ≤ length self.old.rest }
    {
        let mut members = Roles::new(alloc);
        self.member(roles, known, &mut members)?;
        self.expect(Sign::Comma)?;
        self.member(roles, known, &mut members)?;
        self.members(roles, known, &mut members)?;
        Ok(members)
    }

    // Whether the role that is next has an `every` line.
    fn is_second_every(&self, roles: &Names, known: &Known<'a>) -> bool
        requires { length roles.now ≤ 8 }
        ensures { result ≡ is_second_every roles.now known.now.lines self.now.rest }
    {
        let Some((name, _)) = self.rest.word() else {
            return false;
        };
        match roles.place_of(name) {
            Some(place) => known.has_every(RoleId(place as u8)),
            None => false,
        }
    }

    // Whether a second line of a kind begins with this word, which stands before.
    fn is_second(&self, word: &[u8], roles: &Names, known: &Known<'a>) -> bool
        requires { length roles.now ≤ 8 }
        ensures { result ≡ is_second roles.now known.now.lines word.now self.now.rest }
    {
        (is(word, b"every") && self.is_second_every(roles, known))
            || (is(word, b"limit") && known.has_limit())
            || (is(word, b"room") && known.has_room())
    }

    // Takes what stands after `every`.
    fn every(&mut self, roles: &Names, known: &mut Known<'a>) -> Result<(), PlanError>
        requires { length roles.now ≤ 8 }
        ensures goes { Goes result (λ _. known.new) self.new.rest (every_line roles.now known.old self.old.rest) }
        ensures shorter { length self.new.rest ≤ length self.old.rest }
    {
        let role = self.role(roles)?;
        let number = self.number(1, 100_000)?;
        known.push(Line::Every { role, number })?;
        Ok(())
    }

    // Takes what stands after `crash`.
    fn crash(&mut self, roles: &Names, known: &mut Known<'a>) -> Result<(), PlanError>
        requires { length roles.now ≤ 8 }
        ensures goes { Goes result (λ _. known.new) self.new.rest (crash_line roles.now known.old self.old.rest) }
        ensures shorter { length self.new.rest ≤ length self.old.rest }
    {
        let role = self.role(roles)?;
        let number = self.count(known, role)?;
        known.push_crash(role, number)?;
        Ok(())
    }

    // Takes what stands after `limit`.
    fn limit(&mut self, known: &mut Known<'a>) -> Result<(), PlanError>
        ensures goes { Goes result (λ _. known.new) self.new.rest (limit_line known.old self.old.rest) }
        ensures shorter { length self.new.rest ≤ length self.old.rest }
    {
        let number = self.number(1, 100_000)?;
        known.push(Line::Limit(number))?;
        Ok(())
    }

    // Takes what stands after `room`.
    fn room(&mut self, known: &mut Known<'a>) -> Result<(), PlanError>
        ensures goes { Goes result (λ _. known.new) self.new.rest (room_line known.old self.old.rest) }
        ensures shorter { length self.new.rest ≤ length self.old.rest }
    {
        let number = self.number(1, 1024)?;
        known.push(Line::Room(number))?;
        Ok(())
    }

    // Takes what stands after `host`.
    fn host(&mut self, alloc: Global, roles: &Names, known: &mut Known<'a>) -> Result<(), PlanError>
        requires { length roles.now ≤ 8 }
        ensures goes { Goes result (λ _. known.new) self.new.rest (host_line roles.now known.old self.old.rest) }
        ensures shorter { length self.new.rest ≤ length self.old.rest }
    {
        let name = self.name(known)?;
        self.expect(Sign::Equals)?;
        let members = self.host_roles(alloc, roles, known)?;
        known.push_host(alloc, name, members)?;
        Ok(())
    }

    // Takes what stands after this word, the first of an item.
    fn line(
        &mut self,
        alloc: Global,
        word: &[u8],
        roles: &Names,
        known: &mut Known<'a>,
    ) -> Result<(), PlanError>
        requires { length roles.now ≤ 8 }
        ensures goes { Goes result (λ _. known.new) self.new.rest (line_by roles.now known.old word.now self.old.rest) }
        ensures shorter { length self.new.rest ≤ length self.old.rest }
    {
        if is(word, b"every") {
            self.every(roles, known)
        } else if is(word, b"crash") {
            self.crash(roles, known)
        } else if is(word, b"limit") {
            self.limit(known)
        } else if is(word, b"room") {
            self.room(known)
        } else {
            self.host(alloc, roles, known)
        }
    }

    /// Takes one item.
    pub fn item(
        &mut self,
        alloc: Global,
        roles: &Names,
        known: &mut Known<'a>,
    ) -> Result<(), PlanError>
        requires { length roles.now ≤ 8 }
        ensures goes { Goes result (λ _. known.new) self.new.rest (next_item roles.now known.old self.old.rest) }
        ensures shorter { OnOk result (length self.new.rest < length self.old.rest) }
    {
        let Some((word, after)) = self.rest.word() else {
            return Err(PlanError::Refused(Fault::Token));
        };
        let behind = Reader { rest: after };
        if behind.is_second(word, roles, known) {
            return Err(PlanError::Refused(Fault::Twice));
        }
        if !is_first_word(word) {
            return Err(PlanError::Refused(Fault::Token));
        }
        self.rest = behind.rest;
        self.line(alloc, word, roles, known)
    }
}

// Whether an item begins with this word.
fn is_first_word(word: &[u8]) -> bool
    ensures { result ≡ is_first_word word.now }
{
    is(word, b"every")
        || is(word, b"crash")
        || is(word, b"limit")
        || is(word, b"room")
        || is(word, b"host")
}
