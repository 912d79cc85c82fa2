// What the picture says in words.

ghost use Rattle.std.specs.Prelude.{◌≡◌, ◌++◌, ◌<◌, IfOk, OnOk, codes, take};
ghost use Rattle.rcv_session.specs.Session.{roles_of};
ghost use Rattle.rcv_costs.specs.Named.{AreNamedCosts};
ghost use Rattle.rcv_losses.specs.Totals.{IsNamedWorst};
ghost use Rattle.rcv_heat.specs.Words.{title_text, shown_name, saves_text, undone_text, restart_text, worst_at_text};
ghost use Rattle.rcv_heat.specs.Words.{worst_text, sampled_text, step_text, foot_text};

use rcv_core::setup::Setup;
use rcv_costs::{Cost, Costs};
use rcv_journal::name::name_of;
use rcv_losses::lines::{write_crash, write_share};
use rcv_losses::totals::worst_of;
use rcv_text::writer::Writer;
use rcv_tree::role::RoleId;
use std::alloc::{AllocError, Global};

// A longer name is cut.
const LONGEST: usize = 24;

/// What the picture is called. Fails if memory runs out.
pub fn title_text(alloc: Global, setup: &Setup) -> Result<Vec<u8>, AllocError>
    ensures { IfOk result (λ text. text.items ≡ title_text setup.now) }
{
    let mut text = Writer::new(alloc);
    text.word(setup.protocol().name.as_slice())?;
    text.word(b": what each crash would undo")?;
    Ok(text.finish())
}

/// The name of a declared role, as far as it is shown.
pub fn shown_name(setup: &Setup, role: RoleId) -> &[u8]
    requires { role < roles_of setup.now }
    ensures { result.now ≡ shown_name setup.now role }
{
    let name = name_of(setup, role);
    &name[..name.len().min(LONGEST)]
}

/// Every how many events a role saves its state. Fails if memory runs out.
pub fn saves_text(alloc: Global, every: u32) -> Result<Vec<u8>, AllocError>
    ensures { IfOk result (λ text. text.items ≡ saves_text every) }
{
    let mut text = Writer::new(alloc);
    text.word(b"saves every ")?;
    text.large_number(every as u64)?;
    Ok(text.finish())
}

/// How many events the crashes of a role undo in all. Fails if memory runs out.
pub fn undone_text(alloc: Global, undone: u64) -> Result<Vec<u8>, AllocError>
    ensures { IfOk result (λ text. text.items ≡ undone_text undone) }
{
    let mut text = Writer::new(alloc);
    text.word(b"undone ")?;
    text.large_number(undone)?;
    text.word(b" in all")?;
    Ok(text.finish())
}

/// How many would be undone if everybody were restarted instead. Fails if memory runs out.
pub fn restart_text(alloc: Global, kept: u64) -> Result<Vec<u8>, AllocError>
    ensures { IfOk result (λ text. text.items ≡ restart_text kept) }
{
    let mut text = Writer::new(alloc);
    text.word(b"restarting everybody: ")?;
    text.large_number(kept)?;
    Ok(text.finish())
}

/// The worst of a role's crashes. Fails if memory runs out.
pub fn worst_at_text(alloc: Global, cost: &Cost) -> Result<Vec<u8>, AllocError>
    ensures { IfOk result (λ text. text.items ≡ worst_at_text cost.now) }
{
    let mut text = Writer::new(alloc);
    text.word(b"worst at ")?;
    text.large_number(cost.count as u64)?;
    text.word(b": ")?;
    write_share(&mut text, cost)?;
    Ok(text.finish())
}

// The worst crash of all.
fn write_worst(text: &mut Writer, setup: &Setup, worst: Option<Cost>) -> Result<(), AllocError>
    requires { IsNamedWorst setup.now worst }
    ensures { OnOk result (text.new ≡ text.old ++ worst_text setup.now worst) }
{
    let Some(cost) = worst else {
        return Ok(());
    };
    text.word(b"worst: ")?;
    write_crash(text, setup, &cost)?;
    text.word(b", ")?;
    write_share(text, &cost)
}

// Says that one of every so many counts is looked at.
fn write_sampled(text: &mut Writer, step: u32) -> Result<(), AllocError>
    ensures { OnOk result (text.new ≡ text.old ++ sampled_text step) }
{
    text.word(b" (sampled: every ")?;
    text.large_number(step as u64)?;
    text.word(b" counts)")
}

// The same, if not each count is looked at.
fn write_step(text: &mut Writer, step: u32) -> Result<(), AllocError>
    ensures { OnOk result (text.new ≡ text.old ++ step_text step) }
{
    if step == 1 {
        return Ok(());
    }
    write_sampled(text, step)
}

/// The last line: the worst crash of all, and whether only some counts were looked at. Fails if memory runs out.
pub fn foot_text(alloc: Global, setup: &Setup, costs: &Costs) -> Result<Vec<u8>, AllocError>
    requires { AreNamedCosts setup.now costs.now.list.items }
    ensures { IfOk result (λ text. text.items ≡ foot_text setup.now costs.now) }
{
    let mut text = Writer::new(alloc);
    write_worst(&mut text, setup, worst_of(costs.list.as_slice()))?;
    write_step(&mut text, costs.step)?;
    Ok(text.finish())
}
