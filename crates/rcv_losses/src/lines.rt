// The lines of what crashes cost.

ghost use Rattle.std.specs.Prelude.{◌≡◌, ◌++◌, ◌<◌, ◌^◌, IfOk, OnOk, codes, flat_map, length};
ghost use Rattle.std.specs.List.{range_with_len};
ghost use Rattle.rcv_session.specs.Session.{roles_of};
ghost use Rattle.rcv_costs.specs.Named.{IsNamedPoint, IsNamedCost, AreNamedCosts};
ghost use Rattle.rcv_losses.specs.Totals.{IsNamedWorst};
ghost use Rattle.rcv_losses.specs.LossText.{where_text, loss_text, names_text, whom_text, again_text, reach_text, crash_text, between_text, share_text, concerned_text, cost_text, cost_line};
ghost use Rattle.rcv_losses.specs.LossText.{sampled_line, step_line, worst_text, role_line, worst_line, losses_text};

use crate::totals::{undone_by, worst_by, worst_of};
use rcv_core::setup::Setup;
use rcv_costs::{Cost, Costs};
use rcv_journal::name::name_of;
use rcv_text::writer::Writer;
use rcv_tree::point::Point;
use rcv_tree::role::{RoleId, RoleSet};
use std::alloc::{AllocError, Global};

/// The text goes on with the line of a plan that makes the crash of a declared role. Fails if memory runs out.
pub fn write_crash(text: &mut Writer, setup: &Setup, cost: &Cost) -> Result<(), AllocError>
    requires { IsNamedCost setup.now cost.now }
    ensures { OnOk result (text.new ≡ text.old ++ crash_text setup.now cost.now) }
{
    text.word(b"crash ")?;
    text.word(name_of(setup, cost.role))?;
    text.byte(b' ')?;
    text.large_number(cost.count as u64)
}

// Between which of the role's events it crashes.
fn write_between(
    text: &mut Writer,
    setup: &Setup,
    before: Option<Point>,
    after: Option<Point>,
) -> Result<(), AllocError>
    requires before { IsNamedPoint setup.now before }
    requires after { IsNamedPoint setup.now after }
    ensures { OnOk result (text.new ≡ text.old ++ between_text setup.now before after) }
{
    match (before, after) {
        (None, None) => text.word(b"without events"),
        (None, Some(next)) => {
            text.word(b"before ")?;
            text.word(setup.label(next))
        }
        (Some(last), None) => {
            text.word(b"after ")?;
            text.word(setup.label(last))
        }
        (Some(last), Some(next)) => {
            text.word(b"after ")?;
            text.word(setup.label(last))?;
            text.word(b", before ")?;
            text.word(setup.label(next))
        }
    }
}

/// The text goes on with how many of the kept events are undone. Fails if memory runs out.
pub fn write_share(text: &mut Writer, cost: &Cost) -> Result<(), AllocError>
    ensures { OnOk result (text.new ≡ text.old ++ share_text cost.now) }
{
    text.word(b"undone ")?;
    text.large_number(cost.undone as u64)?;
    text.word(b" of ")?;
    text.large_number(cost.kept)
}

// The name of a declared role, if it is concerned.
fn write_if_concerned(
    text: &mut Writer,
    setup: &Setup,
    concerned: RoleSet,
    role: RoleId,
) -> Result<(), AllocError>
    requires { role < roles_of setup.now }
    ensures { OnOk result (text.new ≡ text.old ++ concerned_text setup.now concerned.0 role) }
{
    // Tells the proof that there are few roles.
    let _roles = setup.roles();
    if !concerned.has(role) {
        return Ok(());
    }
    text.byte(b' ')?;
    text.word(name_of(setup, role))
}

// The names of the concerned roles.
fn write_concerned(text: &mut Writer, setup: &Setup, concerned: RoleSet) -> Result<(), AllocError>
    ensures { OnOk result (text.new ≡ text.old
        ++ flat_map (concerned_text setup.now concerned.0) (range_with_len 0 (roles_of setup.now))) }
{
    for role in 0..setup.roles() {
        write_if_concerned(text, setup, concerned, RoleId(role))?;
    }
    Ok(())
}

// The first part of a cost's line: the crash, and where it is.
fn write_where(text: &mut Writer, setup: &Setup, cost: &Cost) -> Result<(), AllocError>
    requires { IsNamedCost setup.now cost.now }
    ensures { OnOk result (text.new ≡ text.old ++ where_text setup.now cost.now) }
{
    write_crash(text, setup, cost)?;
    text.word(b"  ")?;
    write_between(text, setup, cost.before, cost.after)
}

// The second part: how much is lost and undone.
fn write_loss(text: &mut Writer, cost: &Cost) -> Result<(), AllocError>
    ensures { OnOk result (text.new ≡ text.old ++ loss_text cost.now) }
{
    text.word(b": lost ")?;
    text.large_number(cost.lost)?;
    text.word(b", ")?;
    write_share(text, cost)
}

// The names of the concerned roles.
#[tactic(auto, unfolding(crate::specs::LossText::names_text))]
fn write_names(text: &mut Writer, setup: &Setup, concerned: RoleSet) -> Result<(), AllocError>
    ensures { OnOk result (text.new ≡ text.old ++ names_text setup.now concerned.0) }
{
    write_concerned(text, setup, concerned)
}

// Whom it concerns.
fn write_whom(text: &mut Writer, setup: &Setup, concerned: RoleSet) -> Result<(), AllocError>
    ensures { OnOk result (text.new ≡ text.old ++ whom_text setup.now concerned.0) }
{
    text.word(b", concerned")?;
    write_names(text, setup, concerned)
}

// What is received again.
fn write_again(text: &mut Writer, cost: &Cost) -> Result<(), AllocError>
    ensures { OnOk result (text.new ≡ text.old ++ again_text cost.now) }
{
    text.word(b", received again ")?;
    text.large_number(cost.again)
}

// The third part: whom it concerns, and what is received again.
fn write_reach(text: &mut Writer, setup: &Setup, cost: &Cost) -> Result<(), AllocError>
    ensures { OnOk result (text.new ≡ text.old ++ reach_text setup.now cost.now) }
{
    write_whom(text, setup, cost.concerned)?;
    write_again(text, cost)
}

// What one crash costs, without the end of the line.
#[tactic(auto, unfolding(crate::specs::LossText::cost_text))]
fn write_cost(text: &mut Writer, setup: &Setup, cost: &Cost) -> Result<(), AllocError>
    requires { IsNamedCost setup.now cost.now }
    ensures { OnOk result (text.new ≡ text.old ++ cost_text setup.now cost.now) }
{
    write_where(text, setup, cost)?;
    write_loss(text, cost)?;
    write_reach(text, setup, cost)
}

/// What one crash of a declared role costs, between events at points of the text: its line, without the end. Fails if
/// memory runs out.
pub fn line_of(alloc: Global, setup: &Setup, cost: &Cost) -> Result<Vec<u8>, AllocError>
    requires { IsNamedCost setup.now cost.now }
    ensures { IfOk result (λ line. line.items ≡ cost_text setup.now cost.now) }
{
    let mut line = Writer::new(alloc);
    write_cost(&mut line, setup, cost)?;
    Ok(line.finish())
}

// The lines of some costs.
fn write_costs(text: &mut Writer, setup: &Setup, costs: &[Cost]) -> Result<(), AllocError>
    requires { AreNamedCosts setup.now costs.now }
    ensures { OnOk result (text.new ≡ text.old ++ flat_map (cost_line setup.now) costs.now) }
{
    for cost in costs {
        write_cost(text, setup, cost)?;
        text.byte(b'\n')?;
    }
    Ok(())
}

// Says that one of every so many counts is looked at.
fn write_sampled(text: &mut Writer, step: u32) -> Result<(), AllocError>
    ensures { OnOk result (text.new ≡ text.old ++ sampled_line step) }
{
    text.word(b"sampled: every ")?;
    text.large_number(step as u64)?;
    text.word(b" counts\n")
}

// The same, if not each count is looked at.
fn write_step(text: &mut Writer, step: u32) -> Result<(), AllocError>
    ensures { OnOk result (text.new ≡ text.old ++ step_line step) }
{
    if step == 1 {
        return Ok(());
    }
    write_sampled(text, step)
}

// The worst of a role's crashes.
fn write_worst_of_role(text: &mut Writer, worst: Option<Cost>) -> Result<(), AllocError>
    ensures { OnOk result (text.new ≡ text.old ++ worst_text worst) }
{
    let Some(cost) = worst else {
        return Ok(());
    };
    text.word(b", worst at ")?;
    text.large_number(cost.count as u64)?;
    text.word(b": ")?;
    write_share(text, &cost)
}

// What a declared role's crashes cost together.
fn write_role(
    text: &mut Writer,
    setup: &Setup,
    costs: &[Cost],
    role: RoleId,
) -> Result<(), AllocError>
    requires declared { role < roles_of setup.now }
    requires few { length costs.now < 2 ^ 32 }
    ensures { OnOk result (text.new ≡ text.old ++ role_line setup.now costs.now role) }
{
    text.word(name_of(setup, role))?;
    text.word(b": undone ")?;
    text.large_number(undone_by(costs, role))?;
    text.word(b" in all")?;
    write_worst_of_role(text, worst_by(costs, role))?;
    text.byte(b'\n')
}

// The same of all roles.
fn write_roles(text: &mut Writer, setup: &Setup, costs: &[Cost]) -> Result<(), AllocError>
    requires { length costs.now < 2 ^ 32 }
    ensures { OnOk result (text.new ≡ text.old
        ++ flat_map (role_line setup.now costs.now) (range_with_len 0 (roles_of setup.now))) }
{
    for role in 0..setup.roles() {
        write_role(text, setup, costs, RoleId(role))?;
    }
    Ok(())
}

// The worst of all.
fn write_worst(text: &mut Writer, setup: &Setup, worst: Option<Cost>) -> Result<(), AllocError>
    requires { IsNamedWorst setup.now worst }
    ensures { OnOk result (text.new ≡ text.old ++ worst_line setup.now worst) }
{
    let Some(cost) = worst else {
        return Ok(());
    };
    text.word(b"worst: ")?;
    write_crash(text, setup, &cost)?;
    text.word(b", ")?;
    write_share(text, &cost)?;
    text.byte(b'\n')
}

/// The text of costs that were counted for a session. Fails if memory runs out.
pub fn text_of(alloc: Global, setup: &Setup, costs: &Costs) -> Result<Vec<u8>, AllocError>
    requires named { AreNamedCosts setup.now costs.now.list.items }
    requires few { length costs.now.list.items < 2 ^ 32 }
    ensures { IfOk result (λ text. text.items ≡ losses_text setup.now costs.now.step costs.now.list.items) }
{
    let mut text = Writer::new(alloc);
    let list = costs.list.as_slice();
    write_step(&mut text, costs.step)?;
    write_costs(&mut text, setup, list)?;
    write_roles(&mut text, setup, list)?;
    write_worst(&mut text, setup, worst_of(list))?;
    Ok(text.finish())
}
