// A descent over lines and scripts.

ghost use Rattle.std.specs.Prelude.{◌<◌, ◌≤◌, length, map, IfOk};
ghost use Rattle.rcv_script.specs.Symbols.{Is};
ghost use Rattle.rcv_script.specs.Lines.{line_of};
ghost use Rattle.rcv_script.specs.Machine.{This, ASigned, Lines, ALine, rest_of_line, begun, to_set};
ghost use Rattle.rcv_script.specs.Descent.{Goes, Adds};

use crate::fault::{Fault, Read, ScriptError};
use crate::formula::Banned;
use crate::line::Line;
use crate::sign::Sign;
use crate::words::{LineKind, kind_of};
use crate::writing::Writing;
use rcv_lexer::Ahead;
use rcv_points::points::Points;
use rcv_tree::name::Name;
use std::alloc::Global;

/// What is still to be read, and what memory is taken from.
#[derive(Drop)]
pub struct Parser<'a> {
    pub alloc: Global,
    pub rest: Ahead<'a, Sign>,
}

impl<'a> Parser<'a> {
    // Takes the word `set` and the name of a variable: its place.
    #[tactic(auto, using(crate::proofs::Stops::no_sign, crate::proofs::Stops::no_word))]
    fn variable(&mut self, writing: &Writing<'_>) -> Read<usize>
        ensures goes { Goes result (λ k. to_set writing.now.names k) (λ place. place) self.old.rest self.new.rest }
        ensures shorter { IfOk result (λ _. length self.new.rest ≤ length self.old.rest) }
    {
        if !self.takes_word(b"set") {
            return Err(ScriptError::Refused(Fault::Token));
        }
        let (word, after) = self.rest.word().ok_or(Fault::Token)?;
        let place = writing.names().place_of(word).ok_or(Fault::Variable)?;
        self.rest = after;
        Ok(place)
    }

    // Takes a number that may be below 0.
    #[tactic(auto, using(crate::proofs::Stops::to_number))]
    fn signed(&mut self) -> Read<i64>
        ensures goes { Goes result (λ k. ASigned k) (λ z. z) self.old.rest self.new.rest }
        ensures shorter { IfOk result (λ _. length self.new.rest ≤ length self.old.rest) }
    {
        let is_below = self.takes(Sign::Minus);
        let Some((number, after)) = self.rest.number() else {
            return Err(ScriptError::Refused(Fault::Token));
        };
        self.rest = after;
        let number = number as i64;
        Ok(if is_below { -number } else { number })
    }

    // Adds this line, and takes the mark `;` after it. If that is missing, nothing is kept of the script.
    fn end(&mut self, line: Line, writing: &mut Writing<'_>) -> Read<()>
        ensures goes { Adds result (λ s k. This (Is Sign.Semicolon) (k (s.names, line_of line)))
            writing.old writing.new self.old.rest self.new.rest }
        ensures shorter { length self.new.rest ≤ length self.old.rest }
    {
        writing.add(line)?;
        self.expect(Sign::Semicolon)
    }

    // Takes a line.
    #[tactic(auto, using(crate::proofs::Stops::no_line, crate::proofs::Stops::no_word, crate::proofs::Stops::fewer))]
    fn line(&mut self, writing: &mut Writing<'_>) -> Read<()>
        ensures goes { Adds result (λ s k. ALine s k) writing.old writing.new self.old.rest self.new.rest }
        ensures taken { IfOk result (λ _. length self.new.rest < length self.old.rest) }
    {
        let (word, after) = self.rest.word().ok_or(Fault::Token)?;
        let kind = kind_of(word).ok_or(Fault::Token)?;
        writing.line_fault(kind).map_or(Ok(()), Err)?;
        self.rest = after;
        let (word, after) = self.rest.word().ok_or(Fault::Token)?;
        writing.label_fault(kind, word).map_or(Ok(()), Err)?;
        self.rest = after;
        let label = Name::of(self.alloc, word)?;
        self.rest_of_line(kind, label, writing)
    }

    // Takes what stands after the first two words of a line. The second of these is a label or a variable's name.
    fn rest_of_line(&mut self, kind: LineKind, label: Name, writing: &mut Writing<'_>) -> Read<()>
        ensures goes { Adds result (λ s k. rest_of_line kind s label k) writing.old writing.new
            self.old.rest self.new.rest }
        ensures shorter { IfOk result (λ _. length self.new.rest ≤ length self.old.rest) }
    {
        match kind {
            LineKind::Var => {
                self.expect(Sign::Equals)?;
                let first = self.signed()?;
                self.expect(Sign::Semicolon)?;
                Ok(writing.declare(label, first)?)
            }
            LineKind::Send => {
                let number = self.number_set(writing, DECIDING)?;
                self.end(Line::Send { label, number }, writing)
            }
            LineKind::Pick => {
                if self.takes_word(b"when") {
                    let when = Some(self.condition(writing, DECIDING)?);
                    return self.end(Line::Pick { label, when }, writing);
                }
                self.end(Line::Pick { label, when: None }, writing)
            }
            LineKind::On => {
                let place = self.variable(writing)?;
                let banned = writing.remembering(&label);
                let number = self.number_set(writing, banned)?;
                let line = Line::On {
                    label,
                    place,
                    number,
                };
                self.end(line, writing)
            }
        }
    }

    /// Takes the lines of a role between braces.
    #[tactic(auto, using(crate::proofs::Stops::to_line))]
    pub fn lines(&mut self, points: &Points, role: usize) -> Read<Vec<Line>>
        ensures goes { Goes result (λ k. This (Is Sign.Open) (Lines (begun points.now.messages role) k))
            (λ lines. map line_of lines.items) self.old.rest self.new.rest }
        ensures shorter { IfOk result (λ _. length self.new.rest ≤ length self.old.rest) }
    {
        self.expect(Sign::Open)?;
        let mut writing = Writing::new(self.alloc, points, role);
        while !self.takes(Sign::Close) {
            self.line(&mut writing)?;
        }
        Ok(writing.into_lines())
    }
}

// What a `send` or `pick` line may not read.
const DECIDING: Banned = Banned {
    value: Some(Fault::Variable),
    attempt: None,
};
