// Questions, which change nothing.

ghost use Rattle.std.specs.Prelude.{◌≡◌, ◌<◌, ◌==◌, count_by, All, IfSome, IfOk, OnOk};
ghost use Rattle.std.specs.List.{range_with_len};
ghost use Rattle.rcv_guide.specs.Guide.{roles_of};
ghost use Rattle.rcv_dialogue.specs.declared.line.Line.TheVariants as line;
ghost use Rattle.rcv_dialogue.specs.Lines.{IsQuestion};
ghost use Rattle.rcv_guided.specs.Session.{roles_in};
ghost use Rattle.rcv_guided.specs.Hearing.{accepted_of};
ghost use Rattle.rcv_guided.specs.Flights.{flights_to_all, AreFlightsTo, IsFlight};
ghost use Rattle.rcv_guided.specs.Questions.{AnswersNext, AnswersKept, AnswersLine, AnswersRole, AnswersFlight, AnswersTable, AnswersEnd, Asks};
ghost use Rattle.rcv_guided.specs.Answers.{IsAnswer, Says};

use crate::counts::all_made;
use crate::flights::add_flights;
use crate::session::GuidedSession;
use crate::states::listed;
use rcv_dialogue::answer::Answer;
use rcv_dialogue::line::{Flight, Question};
use rcv_guide::guide::Guide;
use rcv_tables::text::print_table;
use rcv_text::writer::Writer;
use rcv_tree::role::RoleId;
use std::alloc::{AllocError, Global};

// How many lines a text has, each of which ends with a line feed.
fn lines_in(text: &[u8]) -> u64
    ensures { result ≡ count_by (λ byte. byte == 10) text.now }
{
    text.iter().filter(|byte| **byte == b'\n').count() as u64
}

// The messages in flight to all roles, by receiver. Fails if memory runs out.
fn all_flights(alloc: Global, guide: &Guide) -> Result<Vec<Flight>, AllocError>
    ensures value { IfOk result (λ found. found.items ≡ flights_to_all guide.now (range_with_len 0 (roles_of guide.now))) }
    ensures declared { IfOk result (λ found. All (IsFlight guide.now) found.items) }
{
    let mut found = Vec::new(alloc);
    for role in 0..guide.roles() {
        add_flights(alloc, guide, RoleId(role), &mut found)?;
    }
    Ok(found)
}

impl GuidedSession {
    // What is next for a role.
    fn say_next(&self, role: RoleId, text: &mut Writer) -> Result<(), AllocError>
        requires { role < roles_in self.now }
        ensures { OnOk result (Says (accepted_of self.now) text.old text.new (AnswersNext self.now role)) }
    {
        if self.guide.is_down(role) {
            return self.say_found(text, &Some(Answer::NextDown(role)));
        }
        let turn = self.turn(role);
        self.say_found(text, &Some(Answer::Next { role, turn }))
    }

    // How many events each role keeps.
    fn say_kept(&self, text: &mut Writer) -> Result<(), AllocError>
        ensures { OnOk result (Says (accepted_of self.now) text.old text.new (AnswersKept self.now)) }
    {
        let roles = self.guide.roles();
        let kept = listed(&all_made(&self.guide), roles);
        self.say_found(text, &Some(Answer::Kept(&kept[..roles as usize])))
    }

    // How many of them are stable.
    fn say_line(&self, text: &mut Writer) -> Result<(), AllocError>
        ensures { OnOk result (Says (accepted_of self.now) text.old text.new (AnswersLine self.now)) }
    {
        let roles = self.guide.roles();
        let stable = listed(&self.stable(), roles);
        self.say_found(text, &Some(Answer::Line(&stable[..roles as usize])))
    }

    // Where a role is.
    fn say_role(&self, role: RoleId, text: &mut Writer) -> Result<(), AllocError>
        requires { role < roles_in self.now }
        ensures { OnOk result (Says (accepted_of self.now) text.old text.new (AnswersRole self.now role)) }
    {
        let incarnation = self.incarnations[role.0 as usize];
        let own = self.role_state(role);
        let answer = Answer::Role {
            role: own,
            incarnation,
        };
        self.say_found(text, &Some(answer))
    }

    // The messages in flight to a role, or to all.
    fn flights_to(&self, alloc: Global, to: Option<RoleId>) -> Result<Vec<Flight>, AllocError>
        requires { IfSome to (λ role. role < roles_in self.now) }
        ensures value { IfOk result (λ flights. AreFlightsTo self.now to flights.items) }
        ensures declared { IfOk result (λ flights. All (IsFlight self.now.guide) flights.items) }
    {
        let Some(to) = to else {
            return all_flights(alloc, &self.guide);
        };
        let mut found = Vec::new(alloc);
        add_flights(alloc, &self.guide, to, &mut found)?;
        Ok(found)
    }

    // The same, as an answer.
    fn say_flight(
        &self,
        alloc: Global,
        to: Option<RoleId>,
        text: &mut Writer,
    ) -> Result<(), AllocError>
        requires { IfSome to (λ role. role < roles_in self.now) }
        ensures { OnOk result (Says (accepted_of self.now) text.old text.new (AnswersFlight self.now to)) }
    {
        match self.flights_to(alloc, to) {
            Ok(found) => self.say_found(text, &Some(Answer::Flight(found.as_slice()))),
            Err(_) => self.say_found(text, &None),
        }
    }

    // The table.
    fn say_table(&self, alloc: Global, text: &mut Writer) -> Result<(), AllocError>
        ensures { OnOk result (Says (accepted_of self.now) text.old text.new (AnswersTable self.now)) }
    {
        let Ok(table) = print_table(alloc, self.guide.table(), self.guide.accepted()) else {
            return self.say_found(text, &None);
        };
        let table = table.as_slice();
        let answer = Answer::Table {
            lines: lines_in(table),
            text: table,
        };
        self.say_found(text, &Some(answer))
    }

    // Where the roles are at the end.
    fn say_end(&self, text: &mut Writer) -> Result<(), AllocError>
        ensures { OnOk result (Says (accepted_of self.now) text.old text.new (AnswersEnd self.now)) }
    {
        let states = self.states();
        self.say_found(
            text,
            &Some(Answer::End(&states[..self.guide.roles() as usize])),
        )
    }

    // The answer to a question.
    pub(crate) fn say_asked(
        &self,
        alloc: Global,
        asked: Question,
        text: &mut Writer,
    ) -> Result<(), AllocError>
        requires { IsQuestion (accepted_of self.now) asked }
        ensures { OnOk result (Says (accepted_of self.now) text.old text.new (Asks self.now asked)) }
    {
        match asked {
            Question::Next(role) => self.say_next(role, text),
            Question::Kept => self.say_kept(text),
            Question::Line => self.say_line(text),
            Question::Role(role) => self.say_role(role, text),
            Question::Flight(to) => self.say_flight(alloc, to, text),
            Question::Points => self.say_found(text, &Some(Answer::Points)),
            Question::Table => self.say_table(alloc, text),
            Question::Snapshot => self.say_snapshot(alloc, text),
            Question::End => self.say_end(text),
        }
    }

    // A question. Before a snapshot is given, what is stable is forgotten: so the snapshot is short.
    pub(crate) fn hear_asked(
        &mut self,
        alloc: Global,
        asked: Question,
        text: &mut Writer,
    ) -> Result<(), AllocError>
        requires { IsQuestion (accepted_of self.old) asked }
        ensures says { OnOk result (Says (accepted_of self.old) text.old text.new
            (IsAnswer self.old (line.Ask asked) self.new)) }
        ensures protocol { self.new.guide.protocol ≡ self.old.guide.protocol }
    {
        if matches!(asked, Question::Snapshot) {
            self.shorten(alloc);
            return self.say_asked(alloc, asked, text);
        }
        self.say_asked(alloc, asked, text)
    }
}
