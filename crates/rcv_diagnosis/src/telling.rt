// The lines of a diagnosis.

ghost use Rattle.std.specs.Prelude.{◌≡◌, ◌<◌, ◌++◌, IfOk, OnOk};
ghost use Rattle.rcv_theory.specs.Round.{role_of};
ghost use Rattle.rcv_session.specs.Session.{roles_of};
ghost use Rattle.rcv_journal.specs.JournalText.{IsDeclared, HaveRoles, entry_line};
ghost use Rattle.rcv_replay.specs.Lines.{wrong_line, wrong_end_line};
ghost use Rattle.rcv_diagnosis.specs.declared.diagnosis.Finding.TheVariants.{Wrong};
ghost use Rattle.rcv_diagnosis.specs.Diagnosing.{Says, IsRefusal, IsLegalOf};
ghost use Rattle.rcv_diagnosis.specs.Telling.{place_text, could_text, entry_text, unfinished_text, over_text};
ghost use Rattle.rcv_diagnosis.specs.Making.{IsShown};

use crate::diagnosis::{Diagnosis, Finding};
use crate::written::Written;
use rcv_core::setup::Setup;
use rcv_input::{Refused, refusal_line};
use rcv_journal::line::RoleLine;
use rcv_journal::name::name_of;
use rcv_journal::text::{closing_of, entry_line_of};
use rcv_judge::could::Could;
use rcv_replay::lines::{legal_line, wrong_end_line, wrong_line};
use rcv_text::writer::Writer;
use rcv_tree::entry::Entry;
use rcv_tree::role::RoleId;
use std::alloc::{AllocError, Global};

/// Says a refusal.
pub fn refusal(alloc: Global, refused: &Refused) -> Result<Diagnosis, AllocError>
    ensures { IfOk result (λ answer. Says (IsRefusal refused.now) answer.finding answer.bytes.items) }
{
    Ok(Diagnosis {
        finding: Finding::Refused,
        bytes: refusal_line(alloc, refused)?,
    })
}

/// Says that a journal of so many entries is legal.
pub fn legal(alloc: Global, entries: u32, limited: bool) -> Result<Diagnosis, AllocError>
    ensures { IfOk result (λ answer. Says (IsLegalOf entries limited) answer.finding answer.bytes.items) }
{
    Ok(Diagnosis {
        finding: Finding::Legal,
        bytes: legal_line(alloc, entries, limited)?,
    })
}

/// The role of an entry.
pub fn role_of(entry: &Entry) -> RoleId
    ensures { result ≡ role_of entry.now }
{
    match entry {
        Entry::Send(event) => event.role,
        Entry::Recv(event) => event.role,
        Entry::Crash(role) => *role,
        Entry::Recover { role, .. } => *role,
    }
}

// Where an entry with this number, counted from 1, stands.
fn write_place(text: &mut Writer, written: Written, number: u32) -> Result<(), AllocError>
    ensures { OnOk result (text.new ≡ text.old ++ place_text written number) }
{
    match written {
        Written::Lines(feeds) => {
            text.word(b"line ")?;
            text.large_number(u64::from(feeds) + u64::from(number))
        }
        Written::Json => {
            text.word(b"entry ")?;
            text.large_number(u64::from(number))
        }
    }
}

// The line of an entry.
fn write_entry(
    alloc: Global,
    text: &mut Writer,
    setup: &Setup,
    entry: &Entry,
) -> Result<(), AllocError>
    requires { IsDeclared setup.now entry.now }
    ensures { OnOk result (text.new ≡ text.old ++ entry_line setup.now entry.now) }
{
    let line = entry_line_of(alloc, setup, entry)?;
    text.word(line.as_slice())
}

// What a role could do.
fn write_could(
    alloc: Global,
    text: &mut Writer,
    setup: &Setup,
    role: RoleId,
    could: &Could,
) -> Result<(), AllocError>
    requires role { role < roles_of setup.now }
    requires shown { IsShown setup.now could.now }
    ensures { OnOk result (text.new ≡ text.old ++ could_text setup.now role could.now) }
{
    text.word(name_of(setup, role))?;
    match could {
        Could::Make(entry) => {
            text.word(b" could: ")?;
            write_entry(alloc, text, setup, entry)
        }
        Could::Awaits(from) => {
            text.word(b" could do nothing: it waits for ")?;
            text.word(name_of(setup, *from))?;
            text.word(b"\n")
        }
        Could::Done => text.word(b" could do nothing: it is done\n"),
        Could::AtLimit => text.word(b" could do nothing: it is at the limit\n"),
    }
}

/// Tells of an entry with this number, counted from 1, that may not come, and of what its role could do.
pub fn wrong_entry(
    alloc: Global,
    setup: &Setup,
    written: Written,
    number: u32,
    entry: &Entry,
    could: &Could,
) -> Result<Diagnosis, AllocError>
    requires entry { IsDeclared setup.now entry.now }
    requires role { role_of entry.now < roles_of setup.now }
    requires shown { IsShown setup.now could.now }
    ensures finding { IfOk result (λ answer. answer.finding ≡ Wrong) }
    ensures bytes { IfOk result (λ answer. answer.bytes.items
        ≡ wrong_line number ++ entry_text setup.now written number entry.now could.now) }
{
    let first = wrong_line(alloc, number)?;
    let mut text = Writer::new(alloc);
    text.word(first.as_slice())?;
    write_place(&mut text, written, number)?;
    text.word(b" is: ")?;
    write_entry(alloc, &mut text, setup, entry)?;
    write_could(alloc, &mut text, setup, role_of(entry), could)?;
    Ok(Diagnosis {
        finding: Finding::Wrong,
        bytes: text.finish(),
    })
}

/// Tells that a session isn't over, and that this entry could come.
pub fn unfinished(alloc: Global, setup: &Setup, entry: &Entry) -> Result<Diagnosis, AllocError>
    requires entry { IsDeclared setup.now entry.now }
    requires role { role_of entry.now < roles_of setup.now }
    ensures finding { IfOk result (λ answer. answer.finding ≡ Wrong) }
    ensures bytes { IfOk result (λ answer. answer.bytes.items ≡ wrong_end_line ++ unfinished_text setup.now entry.now) }
{
    let first = wrong_end_line(alloc)?;
    let mut text = Writer::new(alloc);
    text.word(first.as_slice())?;
    text.word(b"the session isn't over: ")?;
    write_could(
        alloc,
        &mut text,
        setup,
        role_of(entry),
        &Could::Make(*entry),
    )?;
    Ok(Diagnosis {
        finding: Finding::Wrong,
        bytes: text.finish(),
    })
}

/// Tells the right closing lines.
pub fn over(alloc: Global, setup: &Setup, lines: &[RoleLine]) -> Result<Diagnosis, AllocError>
    requires { HaveRoles setup.now lines.now }
    ensures finding { IfOk result (λ answer. answer.finding ≡ Wrong) }
    ensures bytes { IfOk result (λ answer. answer.bytes.items ≡ wrong_end_line ++ over_text setup.now lines.now) }
{
    let first = wrong_end_line(alloc)?;
    let closing = closing_of(alloc, setup, lines)?;
    let mut text = Writer::new(alloc);
    text.word(first.as_slice())?;
    text.word(b"the end is:\n")?;
    text.word(closing.as_slice())?;
    Ok(Diagnosis {
        finding: Finding::Wrong,
        bytes: text.finish(),
    })
}
