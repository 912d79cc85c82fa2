// What `line` answers: how many of each role's events no recovery takes back, at the end of a session that one thread ran.

ghost use Rattle.std.specs.Prelude.{◌≡◌, ◌<◌, ◌≤◌, ◌++◌, length, slice_index, IfOk, OnOk};
ghost use Rattle.rcv_script.specs.Scripts.{AreScriptsFor};
ghost use Rattle.rcv_plan.specs.Lines.{IsPlanned};
ghost use Rattle.rcv_top.specs.Lining.{count_text, counts_text, line_text, IsLineOf, IsLineRun};
ghost use Rattle.rcv_top.specs.Running.{CanRun};

use crate::output::Output;
use crate::status::Status;
use rcv_core::book::Book;
use rcv_core::setup::Setup;
use rcv_input::Input;
use rcv_text::writer::Writer;
use rcv_tree::name::Names;
use std::alloc::{AllocError, Global};

/// Runs the session by one thread, and writes the stable line at the end of its journal. A book alone does that,
/// without a cell.
pub fn run_line(alloc: Global, taken: Input) -> Result<Output, AllocError>
    requires belong { AreScriptsFor taken.accepted.protocol taken.scripts }
    requires planned { IsPlanned (length taken.accepted.protocol.roles) taken.plan }
    requires can_run { CanRun
        (record { protocol = taken.accepted.protocol; scripts = taken.scripts.lines; plan = taken.plan }) }
    ensures { IfOk result (λ output. IsLineRun
        (record { protocol = taken.accepted.protocol; scripts = taken.scripts.lines; plan = taken.plan })
        output.status output.bytes.items) }
{
    let setup = Setup::new(alloc, taken.accepted, taken.scripts, taken.plan)?;
    run_setup(alloc, &setup)
}

// Runs the session of a setup. The caller keeps the setup, and frees it at one place.
fn run_setup(alloc: Global, setup: &Setup) -> Result<Output, AllocError>
    requires { CanRun setup.now }
    ensures { IfOk result (λ output. IsLineRun setup.now output.status output.bytes.items) }
{
    let mut book = Book::new(alloc, setup)?;
    book.run_alone();
    line_of(alloc, &book)
}

// The stable line of a book.
fn line_of(alloc: Global, book: &Book<'_>) -> Result<Output, AllocError>
    ensures { IfOk result (λ output. (output.status ≡ Status.Completed)
        × IsLineOf book.now.setup book.now.entries output.bytes.items) }
{
    let counts = book.stable_line();
    // Tells the proof that there are at most eight roles.
    let protocol = book.setup().protocol();
    Ok(Output {
        status: Status::Completed,
        bytes: line_text(alloc, &protocol.roles, &counts)?,
    })
}

// The text of a line: each role with its count.
fn line_text(alloc: Global, names: &Names, counts: &[u32; 8]) -> Result<Vec<u8>, AllocError>
    requires { length names.now ≤ 8 }
    ensures { IfOk result (λ text. text.items ≡ line_text names.now (slice_index counts.now)) }
{
    let mut text = Writer::new(alloc);
    text.word(b"line")?;
    write_counts(&mut text, names, counts)?;
    text.word(b"\n")?;
    Ok(text.finish())
}

// Each role with its count, in order.
fn write_counts(text: &mut Writer, names: &Names, counts: &[u32; 8]) -> Result<(), AllocError>
    requires { length names.now ≤ 8 }
    ensures { OnOk result (text.new ≡ text.old ++ counts_text names.now (slice_index counts.now)) }
{
    for role in 0..names.as_slice().len() {
        write_count(text, names, counts, role)?;
    }
    Ok(())
}

// A role with its count.
fn write_count(
    text: &mut Writer,
    names: &Names,
    counts: &[u32; 8],
    role: usize,
) -> Result<(), AllocError>
    requires declared { role < length names.now }
    requires few { length names.now ≤ 8 }
    ensures { OnOk result (text.new ≡ text.old ++ count_text names.now (slice_index counts.now) role) }
{
    text.word(b" ")?;
    text.word(names.as_slice()[role].as_slice())?;
    text.word(b" ")?;
    text.large_number(u64::from(counts[role]))
}
