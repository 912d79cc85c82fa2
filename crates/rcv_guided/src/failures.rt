// Lines that tell failures.

ghost use Rattle.std.specs.Prelude.{◌≡◌, ◌+◌, ◌*◌, ◌<◌, ◌≤◌, ◌^◌, ◌↔◌, [], ◌∷◌, All, IsTrue, OnOk, MatchOption, length};
ghost use Rattle.rcv_guide.specs.Guide.{most_told, recovery_entry, HaveSavedEnough, MayRecover, IsFailureOf};
ghost use Rattle.rcv_dialogue.specs.declared.line.Line.TheVariants as line;
ghost use Rattle.rcv_dialogue.specs.Lines.{AreFailed};
ghost use Rattle.rcv_guided.specs.Session.{roles_in};
ghost use Rattle.rcv_guided.specs.Histories.{GoesOnBy};
ghost use Rattle.rcv_guided.specs.Hearing.{accepted_of, IsDown};
ghost use Rattle.rcv_guided.specs.Failures.{fallen, fall_of, entries_of, GoesBack, is_apart, IsRefusalOfFail, IsRefusalToRestart};
ghost use Rattle.rcv_guided.specs.Taking.{AreEnough, HasRoomFor, IsStill, MayFail, MayRestartNow, HaveTaken, SaysTaken};
ghost use Rattle.rcv_guided.specs.Answers.{Says, IsAnswer};

use crate::back::{copied, cut, raise, raised, who_goes_back};
use crate::counts::{all_made, first_below};
use crate::flights::flights;
use crate::session::GuidedSession;
use crate::taken::{Taken, answer, backs, is_stated_as, keeping};
use rcv_dialogue::answer::{Answer, Cause, Undone};
use rcv_dialogue::few::{Failed, FailedRoles};
use rcv_dialogue::line::ToldRecovery;
use rcv_guide::recovery::Recovery;
use rcv_text::writer::Writer;
use rcv_tree::role::{RoleId, RoleSet};
use std::alloc::{AllocError, Global};

// So much can be told at most.
const MOST_TOLD: u64 = 1 << 62;

impl GuidedSession {
    // A declared role that is up crashes.
    fn fall(&mut self, role: RoleId)
        requires declared { role < roles_in self.old }
        requires room { self.old.guide.told < most_told }
        ensures value { self.new ≡ fallen self.old role }
        ensures down { IsDown self.new role }
        ensures history { GoesOnBy self.old (fall_of self.old.guide role) self.new }
    {
        if self.guide.is_down(role) {
            return;
        }
        match self.guide.tell_crash(role) {
            Ok(_done) => {}
            Err(_why) => unreachable!(),
        }
    }

    // A role that is down recovers with its group. Each role has saved so many of its events.
    fn go_back(&mut self, role: RoleId, saved: &[u64; 8]) -> Recovery
        requires { MayRecover self.old.guide role saved.now }
        ensures back { GoesBack role saved.now self.old result self.new }
        ensures still { IsStill self.old self.new 1 }
        ensures history { GoesOnBy self.old (recovery_entry role result ∷ []) self.new }
    {
        let roles = self.guide.roles();
        let before = all_made(&self.guide);
        let group = self.guide.group(role);
        let recovery = match self.guide.tell_recovered(role, saved) {
            Ok(recovery) => recovery,
            Err(_why) => unreachable!(),
        };
        let back = who_goes_back(group, &before, &recovery.kept);
        cut(&mut self.saves, roles, &recovery.kept);
        raise(&mut self.incarnations, back);
        recovery
    }

    // A declared role fails. Each role has saved so many of its events.
    fn fail(&mut self, role: RoleId, saved: &[u64; 8]) -> Recovery
        requires declared { role < roles_in self.old }
        requires room { HasRoomFor self.old 2 }
        requires enough { HaveSavedEnough self.old.guide role saved.now }
        ensures back { GoesBack role saved.now (fallen self.old role) result self.new }
        ensures still { IsStill self.old self.new 2 }
        ensures history { GoesOnBy self.old (entries_of self.old.guide role result) self.new }
    {
        self.fall(role);
        self.go_back(role, saved)
    }

    // These roles fail in turn, except for those that went back with one before them.
    fn fail_in_turn(&mut self, failed: &[Failed]) -> Taken
        requires few { length failed.now ≤ 8 }
        requires declared { All (λ f. f.role < roles_in self.old) failed.now }
        requires enough { AreEnough self.old failed.now }
        requires room { HasRoomFor self.old (2 * length failed.now) }
        ensures { HaveTaken self.old failed.now result self.new }
    {
        // Tells the proof that there are few roles.
        let _roles = self.guide.roles();
        let mut gone = RoleSet(0);
        let mut taken = Taken::nothing();
        for one in failed {
            if gone.has(one.role) {
                continue;
            }
            gone = gone.union(self.guide.group(one.role));
            let saved = self.saved(failed);
            let recovery = self.fail(one.role, &saved);
            taken.add(&recovery);
        }
        taken
    }

    // Answers what failures took back. Before them the incarnations were these. Fails if there is no memory for it.
    fn say_taken(
        &self,
        alloc: Global,
        before: &[u64; 8],
        taken: &Taken,
        text: &mut Writer,
    ) -> Result<(), AllocError>
        ensures { OnOk result (Says (accepted_of self.now) text.old text.new (SaysTaken before.now taken.now self.now)) }
    {
        // Tells the proof where the parts of an answer are declared.
        let _none: Option<Answer<'static>> = None;
        let roles = self.guide.roles();
        let made = all_made(&self.guide);
        let higher = raised(before, self.incarnations.as_slice());
        let kept = keeping(alloc, roles, taken.concerned(), &made)?;
        let back = backs(alloc, higher, &made, self.incarnations.as_slice())?;
        let flight = flights(alloc, &self.guide, higher)?;
        let undone = Undone {
            undone: taken.undone(),
            kept: kept.as_slice(),
        };
        self.say(text, &answer(undone, back.as_slice(), flight.as_slice()))
    }

    // Whether so much more can be told.
    fn has_room_for(&self, count: u64) -> bool
        requires { count < 2 ^ 62 }
        ensures { IsTrue result ↔ HasRoomFor self.now count }
    {
        self.guide.told() + count <= MOST_TOLD
    }

    // Why failures of these declared roles can't be told, if they can't.
    fn refusal_of_fail(&self, failed: &[Failed]) -> Option<Answer<'static>>
        requires few { length failed.now ≤ 8 }
        requires declared { All (λ f. f.role < roles_in self.now) failed.now }
        ensures { MatchOption result (MayFail self.now failed.now) (IsRefusalOfFail self.now failed.now) }
    {
        // Tells the proof that there are few roles.
        let _roles = self.guide.roles();
        if let Some(kept) = first_below(&self.stable(), failed) {
            return Some(Answer::Illegal(Cause::Line(kept)));
        }
        if !self.has_room_for(2 * failed.len() as u64) {
            return Some(Answer::Memory);
        }
        None
    }

    /// Hears that roles failed, and answers who goes back. Fails if there is no memory for the answer.
    pub fn hear_fail(
        &mut self,
        alloc: Global,
        failed: &FailedRoles,
        text: &mut Writer,
    ) -> Result<(), AllocError>
        requires { AreFailed (accepted_of self.old) failed.now }
        ensures says { OnOk result (Says (accepted_of self.old) text.old text.new (IsAnswer self.old (line.Fail failed.now) self.new)) }
        ensures protocol { self.new.guide.protocol ≡ self.old.guide.protocol }
    {
        // Tells the proof that there are few roles.
        let _roles = self.guide.roles();
        if let Some(refusal) = self.refusal_of_fail(failed.as_slice()) {
            return self.say(text, &refusal);
        }
        let before = copied(self.incarnations.as_slice());
        let taken = self.fail_in_turn(failed.as_slice());
        self.say_taken(alloc, &before, &taken, text)
    }

    // Whether one of these declared roles isn't of the first one's group.
    fn is_apart(&self, failed: &[Failed]) -> bool
        requires some { 1 ≤ length failed.now }
        requires declared { All (λ f. f.role < roles_in self.now) failed.now }
        ensures { result ≡ is_apart self.now.guide failed.now }
    {
        // Tells the proof that there are few roles.
        let _roles = self.guide.roles();
        let group = self.guide.group(failed[0].role);
        for one in failed {
            if !group.has(one.role) {
                return true;
            }
        }
        false
    }

    // Why a recovery can't be told, if it can't, whatever it is said to take back.
    fn refusal_to_restart(&self, told: &ToldRecovery) -> Option<Answer<'static>>
        requires some { 1 ≤ length told.now.failed }
        requires declared { All (λ f. f.role < roles_in self.now) told.now.failed }
        ensures { MatchOption result (MayRestartNow self.now told.now.failed) (IsRefusalToRestart self.now told.now) }
    {
        let failed = told.failed.as_slice();
        // Tells the proof that there are few roles.
        let _roles = self.guide.roles();
        if !self.guide.is_down(failed[0].role) {
            return Some(Answer::Illegal(Cause::Up));
        }
        if self.is_apart(failed) {
            return Some(Answer::Illegal(Cause::Host));
        }
        if let Some(kept) = first_below(&self.stable(), failed) {
            return Some(Answer::Illegal(Cause::Line(kept)));
        }
        if !self.has_room_for(1) {
            return Some(Answer::Memory);
        }
        None
    }

    // What a recovery would take back.
    fn would_recover(&self, role: RoleId, saved: &[u64; 8]) -> Recovery
        requires { MayRecover self.now.guide role saved.now }
        ensures { IsFailureOf self.now.guide role saved.now result }
    {
        // Tells the proof that there are few roles.
        let _roles = self.guide.roles();
        match self.guide.would_recover(role, saved) {
            Ok(recovery) => recovery,
            Err(_why) => unreachable!(),
        }
    }

    /// Hears that a role which is down is started anew, and answers who goes back. Fails if there is no memory for the
    /// answer.
    pub fn hear_recover(
        &mut self,
        alloc: Global,
        told: &ToldRecovery,
        text: &mut Writer,
    ) -> Result<(), AllocError>
        requires { AreFailed (accepted_of self.old) told.now.failed }
        ensures says { OnOk result (Says (accepted_of self.old) text.old text.new (IsAnswer self.old (line.Recover told.now) self.new)) }
        ensures protocol { self.new.guide.protocol ≡ self.old.guide.protocol }
    {
        if let Some(refusal) = self.refusal_to_restart(told) {
            return self.say(text, &refusal);
        }
        let failed = told.failed.as_slice();
        let role = failed[0].role;
        let saved = self.saved(failed);
        let would = self.would_recover(role, &saved);
        let roles = self.guide.roles();
        let kept = keeping(alloc, roles, would.concerned, &would.kept)?;
        let undone = Undone {
            undone: would.undone as u64,
            kept: kept.as_slice(),
        };
        if !is_stated_as(&told.stated, &undone) {
            return self.say(text, &Answer::Illegal(Cause::Recovery(undone)));
        }
        let before = copied(self.incarnations.as_slice());
        let recovery = self.go_back(role, &saved);
        let mut taken = Taken::nothing();
        taken.add(&recovery);
        self.say_taken(alloc, &before, &taken, text)
    }
}
