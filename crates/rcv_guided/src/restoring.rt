// Lines of a snapshot: each restores a part of the session that gave it.

ghost use Rattle.std.specs.Prelude.{◌≡◌, ◌<◌, ◌≤◌, ◌↔◌, [], IsTrue, OnOk};
ghost use Rattle.rcv_dialogue.specs.declared.line.Again.TheVariants as again;
ghost use Rattle.rcv_dialogue.specs.declared.line.Line.TheVariants as line;
ghost use Rattle.rcv_dialogue.specs.Lines.{IsAgain};
ghost use Rattle.rcv_dialogue.specs.Answers.{IsDeclared, IsNamed};
ghost use Rattle.rcv_guided.specs.Session.{roles_in};
ghost use Rattle.rcv_guided.specs.Hearing.{accepted_of};
ghost use Rattle.rcv_guided.specs.Restoring.{IsRestoring, IsUnsaved, AreUnsaved, MayBegin, standing_in, Restores};
ghost use Rattle.rcv_guided.specs.Answers.{IsAnswer, Says};

use crate::counts::made;
use crate::session::GuidedSession;
use rcv_dialogue::answer::{Answer, Cause};
use rcv_dialogue::line::{Again, Extent, Flight, ToldStanding};
use rcv_guide::standing::Standing;
use rcv_text::writer::Writer;
use rcv_tree::event::Event;
use rcv_tree::role::RoleId;
use std::alloc::{AllocError, Global};

// So much can be told at most.
const MOST_TOLD: u64 = 1 << 62;

// A guide has room for fewer events.
const ROOM_END: u64 = 1 << 31;

// Where a role is told to stand.
fn standing(told: &ToldStanding) -> Standing
    ensures { result ≡ standing_in told.now }
{
    Standing {
        forgotten: told.kept,
        place: told.place,
        raw: told.raw,
        attempt: told.attempt,
        clock: told.clock,
        down: told.down,
    }
}

impl GuidedSession {
    // Whether only lines of a snapshot were told, its first one among them.
    fn is_restoring(&self) -> bool
        ensures { IsTrue result ↔ IsRestoring self.now }
    {
        match self.restored {
            Some(told) => told == self.guide.told(),
            None => false,
        }
    }

    // Whether no save was told of a declared role.
    fn is_unsaved(&self, role: RoleId) -> bool
        requires { role < roles_in self.now }
        ensures { IsTrue result ↔ IsUnsaved self.now role }
    {
        self.saves.told(role).is_empty()
    }

    // Whether no save was told.
    fn are_unsaved(&self) -> bool
        ensures { IsTrue result ↔ AreUnsaved self.now }
    {
        for role in 0..self.guide.roles() {
            if !self.is_unsaved(RoleId(role)) {
                return false;
            }
        }
        true
    }

    // Whether a snapshot of this extent may begin.
    fn may_begin(&self, told: &Extent) -> bool
        ensures { IsTrue result ↔ MayBegin self.now told.now }
    {
        if !self.are_unsaved() {
            return false;
        }
        self.guide.told() == 0 && told.told <= MOST_TOLD && 1 <= told.room && told.room < ROOM_END
    }

    // Begins with how much was told.
    fn restore_extent(&mut self, alloc: Global, told: &Extent) -> Answer<'static>
        ensures comes { Restores self.old (again.Session told.now) result [] self.new }
        ensures named { IsNamed (accepted_of self.new) result }
        ensures protocol { self.new.guide.protocol ≡ self.old.guide.protocol }
    {
        if !self.may_begin(told) {
            return Answer::Illegal(Cause::Again);
        }
        let Ok(()) = self.guide.begin_again(alloc, told.told, told.room as u32) else {
            return Answer::Memory;
        };
        self.restored = Some(told.told);
        Answer::Done
    }

    // Where a role stands.
    fn restore_role(&mut self, told: &ToldStanding) -> Answer<'static>
        requires { told.now.role < roles_in self.old }
        ensures comes { Restores self.old (again.Role told.now) result [] self.new }
        ensures named { IsNamed (accepted_of self.new) result }
        ensures protocol { self.new.guide.protocol ≡ self.old.guide.protocol }
    {
        if !self.is_restoring() {
            return Answer::Illegal(Cause::Again);
        }
        if told.incarnation > self.guide.told() {
            return Answer::Illegal(Cause::Again);
        }
        if !self.is_unsaved(told.role) {
            return Answer::Illegal(Cause::Again);
        }
        let Ok(()) = self.guide.stand_again(told.role, &standing(told)) else {
            return Answer::Illegal(Cause::Again);
        };
        self.incarnations[told.role.0 as usize] = told.incarnation;
        Answer::Done
    }

    // A message of what is forgotten.
    fn restore_flight(&mut self, told: &Flight) -> Answer<'static>
        requires { IsDeclared (accepted_of self.old) told.now.message.point }
        ensures comes { Restores self.old (again.Flight told.now) result [] self.new }
        ensures named { IsNamed (accepted_of self.new) result }
        ensures protocol { self.new.guide.protocol ≡ self.old.guide.protocol }
    {
        if !self.is_restoring() {
            return Answer::Illegal(Cause::Again);
        }
        if self.receiver(told.message.point) != told.to {
            return Answer::Illegal(Cause::Again);
        }
        let Ok(()) = self.guide.lie_again(told.from, &told.message) else {
            return Answer::Illegal(Cause::Again);
        };
        Answer::Done
    }

    // An event.
    fn restore_event(&mut self, event: &Event) -> Answer<'static>
        ensures comes { Restores self.old (again.Event event.now) result [] self.new }
        ensures named { IsNamed (accepted_of self.new) result }
        ensures protocol { self.new.guide.protocol ≡ self.old.guide.protocol }
    {
        if !self.is_restoring() {
            return Answer::Illegal(Cause::Again);
        }
        let Ok(()) = self.guide.add_again(event) else {
            return Answer::Illegal(Cause::Again);
        };
        Answer::Done
    }

    // That a role has saved its state.
    fn restore_save(&mut self, role: RoleId, count: u64) -> Answer<'static>
        requires { role < roles_in self.old }
        ensures comes { Restores self.old (again.Save role count) result [] self.new }
        ensures named { IsNamed (accepted_of self.new) result }
        ensures protocol { self.new.guide.protocol ≡ self.old.guide.protocol }
    {
        if !self.is_restoring() {
            return Answer::Illegal(Cause::Again);
        }
        if count > made(&self.guide, role) {
            return Answer::Illegal(Cause::Again);
        }
        let Ok(()) = self.saves.save(role, count) else {
            return Answer::Memory;
        };
        Answer::Done
    }

    // Restores what the line says, if it fits.
    fn restore(&mut self, alloc: Global, told: &Again) -> Answer<'static>
        requires { IsAgain (accepted_of self.old) told.now }
        ensures comes { Restores self.old told.now result [] self.new }
        ensures named { IsNamed (accepted_of self.new) result }
        ensures protocol { self.new.guide.protocol ≡ self.old.guide.protocol }
    {
        match told {
            Again::Session(extent) => self.restore_extent(alloc, extent),
            Again::Role(standing) => self.restore_role(standing),
            Again::Flight(flight) => self.restore_flight(flight),
            Again::Event(event) => self.restore_event(event),
            Again::Save { role, count } => self.restore_save(*role, *count),
        }
    }

    // Hears a line of a snapshot.
    pub(crate) fn hear_again(
        &mut self,
        alloc: Global,
        told: &Again,
        text: &mut Writer,
    ) -> Result<(), AllocError>
        requires { IsAgain (accepted_of self.old) told.now }
        ensures says { OnOk result (Says (accepted_of self.old) text.old text.new
            (IsAnswer self.old (line.Again told.now) self.new)) }
        ensures protocol { self.new.guide.protocol ≡ self.old.guide.protocol }
    {
        let answer = Some(self.restore(alloc, told));
        self.say_found(text, &answer)
    }
}
