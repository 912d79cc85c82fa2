// The script of a role while it is read.

ghost use Rattle.std.specs.Prelude.{◌≡◌, ◌∷◌, ◌++◌, [], map, Option, IfOk, MatchResult};
ghost use Rattle.rcv_model.specs.Script.{VarLine};
ghost use Rattle.rcv_script.specs.Lines.{line_of};
ghost use Rattle.rcv_script.specs.Machine.{begun, with_line, line_fault, label_fault, remembering};
ghost use Rattle.rcv_script.specs.Descent.{at_depth};

use crate::fault::Fault;
use crate::formula::Banned;
use crate::labels::{has_message, has_send};
use crate::line::Line;
use crate::words::LineKind;
use rcv_lexer::is;
use rcv_points::points::Points;
use rcv_tree::name::{Name, Names};
use std::alloc::{AllocError, Global};
use std::marker::Model;

/// What is known after some lines of a script: the points of the protocol, the role, its variables and these lines.
#[derive(Drop)]
pub struct Writing<'a> {
    points: &'a Points,
    role: usize,
    names: Names,
    lines: Vec<Line>,
}

impl<'a> Model for Writing<'a> {
    ghost use Rattle.std.specs.Prelude.{map};
    ghost use Rattle.rcv_script.specs.Lines.{line_of};
    ghost use Rattle.rcv_script.specs.Machine.{Writing};
    ghost use Rattle.rcv_formula.specs.Codes.{expr_code};
    ghost use Rattle.std.specs.Coded.{codes};

    ghost Value = { Writing };

    ghost coded = { Prim.hlevel (codes, expr_code) };

    ghost view = { λ a. record {
      messages = a.points.now.messages;
      role = a.role;
      names = a.names;
      lines = map line_of a.lines.items;
    } };
}

impl<'a> Writing<'a> {
    /// The script of a role, without lines.
    pub fn new(alloc: Global, points: &'a Points, role: usize) -> Self
        ensures { result ≡ begun points.now.messages role }
    {
        Writing {
            points,
            role,
            names: Names::new(alloc),
            lines: Vec::new(alloc),
        }
    }

    /// The names of the variables.
    pub fn names(&self) -> &Names
        ensures { result.now ≡ self.now.names }
    {
        &self.names
    }

    /// The lines.
    pub fn into_lines(self) -> Vec<Line>
        ensures { map line_of result.items ≡ self.entry.lines }
    {
        self.lines
    }

    /// What speaks against one more line of this kind.
    pub fn line_fault(&self, kind: LineKind) -> Option<Fault>
        ensures { result ≡ line_fault self.now.names self.now.lines kind }
    {
        let names = self.names.as_slice();
        let lines = self.lines.as_slice();
        let many = match kind {
            LineKind::Var => lines.len() >= 256 || names.len() >= 16,
            _ => lines.len() >= 256,
        };
        many.then_some(Fault::TooMany)
    }

    /// What speaks against the second word of a line of this kind: the name of a new variable, or a label.
    pub fn label_fault(&self, kind: LineKind, label: &[u8]) -> Option<Fault>
        ensures { result ≡ label_fault kind self.now label.now }
    {
        let (points, role) = (self.points, self.role);
        match kind {
            LineKind::Var if is(label, b"value") || is(label, b"attempt") => Some(Fault::Variable),
            LineKind::Var if self.names.place_of(label).is_some() => Some(Fault::Variable),
            LineKind::On if !has_message(points, role, label, true, false) => Some(Fault::Label),
            LineKind::Pick if !has_message(points, role, label, false, false) => Some(Fault::Label),
            LineKind::Send if !has_message(points, role, label, false, false) => Some(Fault::Label),
            LineKind::Send if has_send(label, self.lines.as_slice()) => Some(Fault::Label),
            LineKind::Send if has_message(points, role, label, false, true) => Some(
                Fault::NoPayload,
            ),
            _ => None,
        }
    }

    /// What an `on` line of this label may not read.
    pub fn remembering(&self, label: &Name) -> Banned
        ensures { at_depth self.now.names result 0 ≡ remembering self.now label.now }
    {
        let is_bare = has_message(self.points, self.role, label.as_slice(), true, true);
        Banned {
            value: is_bare.then_some(Fault::NoPayload),
            attempt: Some(Fault::AttemptInState),
        }
    }

    /// Adds a line.
    pub fn add(&mut self, line: Line) -> Result<(), AllocError>
        ensures { MatchResult result (λ _. self.new ≡ with_line self.old (self.old.names, line_of line))
            (λ _. self.new ≡ self.old) }
    {
        Ok(self.lines.push(line)?)
    }

    /// Adds a variable and its line. If no memory is left, the name may stand there without its line.
    pub fn declare(&mut self, name: Name, first: i64) -> Result<(), AllocError>
        ensures { IfOk result (λ _. self.new ≡ with_line self.old (self.old.names ++ name ∷ [], VarLine first)) }
    {
        self.names.push(name)?;
        Ok(self.lines.push(Line::Var { first })?)
    }
}
