// The lines that restore a session.

ghost use Rattle.std.specs.Prelude.{◌≡◌, ◌<◌, ◌++◌, map, flat_map, All, IfOk, OnOk};
ghost use Rattle.std.specs.List.{range_with_len};
ghost use Rattle.rcv_saves.specs.Saves.{told_of};
ghost use Rattle.rcv_guide.specs.Remembered.{seeds_of, IsDeclaredIn};
ghost use Rattle.rcv_dialogue.specs.declared.line.Again.TheVariants as again;
ghost use Rattle.rcv_dialogue.specs.Answers.{NamesInAgain};
ghost use Rattle.rcv_guided.specs.Session.{roles_in};
ghost use Rattle.rcv_guided.specs.Hearing.{accepted_of};
ghost use Rattle.rcv_guided.specs.Restoring.{extent_of, role_again, flight_again, saves_again, AreSnapshot};
ghost use Rattle.rcv_guided.specs.Questions.{AnswersSnapshot};
ghost use Rattle.rcv_guided.specs.Answers.{Says};

use crate::session::GuidedSession;
use rcv_dialogue::answer::Answer;
use rcv_dialogue::line::{Again, Extent, Flight, ToldStanding};
use rcv_text::writer::Writer;
use rcv_tree::event::Event;
use rcv_tree::role::RoleId;
use std::alloc::{AllocError, Global};

impl GuidedSession {
    // How much was told, and how many events may be remembered.
    fn extent(&self) -> Extent
        ensures { result ≡ extent_of self.now }
    {
        Extent {
            told: self.guide.told(),
            room: self.guide.room() as u64,
        }
    }

    // Where a declared role stands.
    fn role_again(&self, role: RoleId) -> Again
        requires { role < roles_in self.now }
        ensures { result ≡ role_again self.now role }
    {
        let standing = self.guide.standing(role);
        let incarnation = self.incarnations[role.0 as usize];
        Again::Role(ToldStanding {
            role,
            kept: standing.forgotten,
            raw: standing.raw,
            place: standing.place,
            clock: standing.clock,
            attempt: standing.attempt,
            down: standing.down,
            incarnation,
        })
    }

    // The message of a Send.
    fn flight_again(&self, sent: &Event) -> Again
        requires { IsDeclaredIn self.now.guide sent.now }
        ensures value { result ≡ flight_again self.now sent.now }
        ensures named { NamesInAgain (accepted_of self.now) result }
    {
        Again::Flight(Flight {
            from: sent.role,
            to: self.receiver(sent.point),
            message: sent.message(),
        })
    }

    // Adds where each role stands. Fails if memory runs out, like all that follows.
    fn add_roles(&self, lines: &mut Vec<Again>) -> Result<(), AllocError>
        ensures value { OnOk result (lines.new.items ≡ lines.old.items ++ map (role_again self.now) (range_with_len 0 (roles_in self.now))) }
        ensures named { OnOk result (All (NamesInAgain (accepted_of self.now)) lines.old.items
            → All (NamesInAgain (accepted_of self.now)) lines.new.items) }
    {
        for role in 0..self.guide.roles() {
            lines.push(self.role_again(RoleId(role)))?;
        }
        Ok(())
    }

    // Adds the messages of these Sends.
    fn add_flights_again(&self, seeds: &[Event], lines: &mut Vec<Again>) -> Result<(), AllocError>
        requires { All (IsDeclaredIn self.now.guide) seeds.now }
        ensures value { OnOk result (lines.new.items ≡ lines.old.items ++ map (flight_again self.now) seeds.now) }
        ensures named { OnOk result (All (NamesInAgain (accepted_of self.now)) lines.old.items
            → All (NamesInAgain (accepted_of self.now)) lines.new.items) }
    {
        for sent in seeds {
            lines.push(self.flight_again(sent))?;
        }
        Ok(())
    }

    // Adds these events.
    fn add_events(&self, events: &[Event], lines: &mut Vec<Again>) -> Result<(), AllocError>
        requires { All (IsDeclaredIn self.now.guide) events.now }
        ensures value { OnOk result (lines.new.items ≡ lines.old.items ++ map (λ e. again.Event e) events.now) }
        ensures named { OnOk result (All (NamesInAgain (accepted_of self.now)) lines.old.items
            → All (NamesInAgain (accepted_of self.now)) lines.new.items) }
    {
        for event in events {
            lines.push(Again::Event(*event))?;
        }
        Ok(())
    }

    // Adds what was told of a declared role's saves.
    fn add_saves_of(&self, role: RoleId, lines: &mut Vec<Again>) -> Result<(), AllocError>
        requires { role < roles_in self.now }
        ensures value { OnOk result (lines.new.items ≡ lines.old.items ++ saves_again self.now role) }
        ensures named { OnOk result (All (NamesInAgain (accepted_of self.now)) lines.old.items
            → All (NamesInAgain (accepted_of self.now)) lines.new.items) }
    {
        for count in self.saves.told(role) {
            lines.push(Again::Save {
                role,
                count: *count,
            })?;
        }
        Ok(())
    }

    // Adds those of all roles.
    fn add_saves(&self, lines: &mut Vec<Again>) -> Result<(), AllocError>
        ensures value { OnOk result (lines.new.items ≡ lines.old.items ++ flat_map (saves_again self.now) (range_with_len 0 (roles_in self.now))) }
        ensures named { OnOk result (All (NamesInAgain (accepted_of self.now)) lines.old.items
            → All (NamesInAgain (accepted_of self.now)) lines.new.items) }
    {
        for role in 0..self.guide.roles() {
            self.add_saves_of(RoleId(role), lines)?;
        }
        Ok(())
    }

    // All lines, in order.
    fn snapshot(&self, alloc: Global) -> Result<Vec<Again>, AllocError>
        ensures value { IfOk result (λ lines. AreSnapshot self.now lines.items) }
        ensures named { IfOk result (λ lines. All (NamesInAgain (accepted_of self.now)) lines.items) }
    {
        let seeds = self.guide.seeds(alloc)?;
        let events = self.guide.remembered(alloc)?;
        let mut lines = Vec::new(alloc);
        lines.push(Again::Session(self.extent()))?;
        self.add_roles(&mut lines)?;
        self.add_flights_again(seeds.as_slice(), &mut lines)?;
        self.add_events(events.as_slice(), &mut lines)?;
        self.add_saves(&mut lines)?;
        Ok(lines)
    }

    // The same, as an answer.
    pub(crate) fn say_snapshot(&self, alloc: Global, text: &mut Writer) -> Result<(), AllocError>
        ensures { OnOk result (Says (accepted_of self.now) text.old text.new (AnswersSnapshot self.now)) }
    {
        match self.snapshot(alloc) {
            Ok(lines) => self.say_found(text, &Some(Answer::Snapshot(lines.as_slice()))),
            Err(_) => self.say_found(text, &None),
        }
    }
}
