// What is read of a journal, line by line: entries, a line for each role in order, the last line.

ghost use Rattle.std.specs.Prelude.{◌≡◌, ℕ, true, false, IfOk, IfSome, IfNone};
ghost use Rattle.rcv_lines.specs.Said.{view_of};
ghost use Rattle.rcv_lines.specs.Line.{EntryLine, RoleLineOf, EndLine};
ghost use Rattle.rcv_lines.specs.Reading.{nothing_read, Takes};

use crate::line::Line;
use rcv_journal::line::RoleLine;
use rcv_journal::recorded::Journal;
use rcv_tree::entry::Entry;
use rcv_tree::role::RoleId;
use std::alloc::{AllocError, Global};
use std::marker::Model;

/// A journal that is being read: what was read so far, and whether its last line was read too.
#[derive(Drop)]
pub struct Reading {
    journal: Journal,
    over: bool,
}

impl Model for Reading {
    ghost use Rattle.rcv_lines.specs.Reading.{ReadingView};

    ghost Value = { ReadingView };

    ghost view = { λ a. record { journal = a.journal; over = a.over } };
}

impl Reading {
    /// Nothing is read so far. It takes no memory.
    pub fn new(alloc: Global) -> Reading
        ensures { result ≡ nothing_read }
    {
        Reading {
            journal: Journal {
                entries: Vec::new(alloc),
                roles: Vec::new(alloc),
                limited: Vec::new(alloc),
            },
            over: false,
        }
    }

    // Reads an entry: before the lines of roles.
    fn entry(&mut self, entry: Entry) -> Result<bool, AllocError>
        ensures { IfOk result (λ taken. (roles : ℕ) → Takes roles self.old (EntryLine entry) taken self.new) }
    {
        if self.over || !self.journal.roles.is_empty() {
            return Ok(false);
        }
        self.journal.entries.push(entry)?;
        Ok(true)
    }

    // Reads the line of a role, which is the next one.
    fn role(&mut self, line: RoleLine) -> Result<bool, AllocError>
        ensures { IfOk result (λ taken. (roles : ℕ) → Takes roles self.old (RoleLineOf line) taken self.new) }
    {
        if self.over || line.role.0 as usize != self.journal.roles.len() {
            return Ok(false);
        }
        self.journal.roles.push(line)?;
        Ok(true)
    }

    // Reads the last line, after those of so many roles.
    fn end(&mut self, roles: usize, limited: Vec<RoleId>) -> bool
        ensures { Takes roles self.old (EndLine limited.items) result self.new }
    {
        if self.over || self.journal.roles.len() != roles {
            return false;
        }
        self.journal.limited = limited;
        self.over = true;
        true
    }

    /// Reads a line of the journal of a protocol with so many roles, if it may come next; else answers that it didn't.
    /// Fails if memory runs out.
    pub fn take(&mut self, roles: usize, line: Line) -> Result<bool, AllocError>
        ensures { IfOk result (λ taken. Takes roles self.old (view_of line) taken self.new) }
    {
        match line {
            Line::Entry(entry) => self.entry(entry),
            Line::Role(line) => self.role(line),
            Line::End(limited) => Ok(self.end(roles, limited)),
        }
    }

    /// The journal, if its last line was read. It takes no memory.
    pub fn finish(self) -> Option<Journal>
        ensures some { IfSome result (λ journal. (self.over ≡ true) × (journal ≡ self.journal)) }
        ensures none { IfNone result (self.over ≡ false) }
    {
        if self.over { Some(self.journal) } else { None }
    }
}
