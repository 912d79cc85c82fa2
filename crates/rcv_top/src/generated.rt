// What `gen` answers: the summary of a generated session that one thread ran to its end.

ghost use Rattle.std.specs.Prelude.{◌≡◌, ◌*◌, ◌^◌, ◌≤◌, length, sum_by, IfOk};
ghost use Rattle.rcv_script.specs.Scripts.{AreScriptsFor};
ghost use Rattle.rcv_plan.specs.Lines.{IsPlanned};
ghost use Rattle.rcv_session.specs.Session.{net_for, roles_of, rules_of};
ghost use Rattle.rcv_core.specs.Book.{state_of};
ghost use Rattle.rcv_journal.specs.JournalText.{HaveRoles, last_line};
ghost use Rattle.rcv_journal.specs.Lines.{AreLinesOf};
ghost use Rattle.rcv_top.specs.Generating.{kept_in, IsSummaryOf, IsSummaryRun};
ghost use Rattle.rcv_top.specs.Running.{CanRun};

use crate::output::Output;
use crate::status::Status;
use rcv_core::book::Book;
use rcv_core::setup::Setup;
use rcv_gen::summary::summary;
use rcv_input::Input;
use rcv_journal::line::RoleLine;
use rcv_journal::role_lines::lines_of;
use rcv_journal::text::last_line_of;
use std::alloc::{AllocError, Global};

/// Runs the session of the generated input with this number by one thread, and writes the summary of its journal. A
/// book alone does that, without a cell.
pub fn run_generated(alloc: Global, taken: Input, number: u32) -> Result<Output, AllocError>
    requires belong { AreScriptsFor taken.accepted.protocol taken.scripts }
    requires planned { IsPlanned (length taken.accepted.protocol.roles) taken.plan }
    requires can_run { CanRun
        (record { protocol = taken.accepted.protocol; scripts = taken.scripts.lines; plan = taken.plan }) }
    ensures { IfOk result (λ output. IsSummaryRun number
        (record { protocol = taken.accepted.protocol; scripts = taken.scripts.lines; plan = taken.plan })
        output.status output.bytes.items) }
{
    let setup = Setup::new(alloc, taken.accepted, taken.scripts, taken.plan)?;
    run_setup(alloc, &setup, number)
}

// Runs the session of a setup. The caller keeps the setup, and frees it at one place.
fn run_setup(alloc: Global, setup: &Setup, number: u32) -> Result<Output, AllocError>
    requires { CanRun setup.now }
    ensures { IfOk result (λ output. IsSummaryRun number setup.now output.status output.bytes.items) }
{
    let mut book = Book::new(alloc, setup)?;
    book.run_alone();
    summary_of(alloc, &book, number)
}

// The summary of a book's journal.
fn summary_of(alloc: Global, book: &Book<'_>, number: u32) -> Result<Output, AllocError>
    ensures { IfOk result (λ output. (output.status ≡ Status.Completed)
        × IsSummaryOf book.now.setup book.now.entries number output.bytes.items) }
{
    let setup = book.setup();
    // Tells the proof that there are at most eight roles.
    let _protocol = setup.protocol();
    let lines = lines_of(alloc, book)?;
    let last = last_line_of(alloc, setup, lines.as_slice())?;
    let bytes = summary(
        alloc,
        number,
        setup.roles(),
        setup.accepted().points().count(),
        book.entries(),
        kept_in(lines.as_slice()),
        last.as_slice(),
    )?;
    Ok(Output {
        status: Status::Completed,
        bytes,
    })
}

// How many events the lines say are kept.
fn kept_in(lines: &[RoleLine]) -> u64
    requires { length lines.now ≤ 8 }
    ensures { result ≡ kept_in lines.now }
{
    lines.iter().map(|line| u64::from(line.kept)).sum()
}
