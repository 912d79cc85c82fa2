// What a refusal by a rule of acceptance says.

ghost use Rattle.std.specs.Prelude.{◌≡◌, ◌++◌, ◌≤◌, ℕ, List, length, codes, decimal, IfOk, OnOk};
ghost use Rattle.rcv_tree.specs.Names.{name_at};
ghost use Rattle.rcv_points.specs.Follow.{net_in};
ghost use Rattle.rcv_input.specs.Line.{refusal_line};
ghost use Rattle.rcv_input.specs.declared.refused.Refused.TheVariants.{Rule};
ghost use Rattle.rcv_explain.specs.Explained.{HasRule};
ghost use Rattle.rcv_listing.specs.Lines.{rule_text, stand_text, place_text, subject_text, unreached_text, endless_text};
ghost use Rattle.rcv_listing.specs.Lines.{where_text, first_text, decides_text, choice_text, IsWay};
ghost use Rattle.rcv_listing.specs.Lines as lines;
ghost use Rattle.rcv_listing.specs.Lines.{IsNumberIn, IsRuleIn, AddsTold, AddsRefusal};

use crate::shown::{is_at_place, shown};
use crate::table::Table;
use crate::way::choice_in_way;
use rcv_explain::{Explanation, explain};
use rcv_input::{Refused, refusal_line};
use rcv_text::writer::Writer;
use rcv_tree::name::Name;
use rcv_tree::point::Point;
use rcv_tree::refusal::Refusal;
use rcv_tree::role::RoleId;
use std::alloc::{AllocError, Global};

// Where a role is that stands after a point.
fn write_behind(text: &mut Writer, table: &Table<'_>, point: Point) -> Result<(), AllocError>
    ensures { OnOk result (text.new ≡ text.old
        ++ (codes " is after its point " ++ decimal point ++ codes ", line "
        ++ decimal (lines.line_of table.now.lines.now point))) }
{
    text.word(b" is after its point ")?;
    text.number(point.0)?;
    text.word(b", line ")?;
    text.large_number(table.line(point) as u64)
}

// Where a role is.
fn write_stand(text: &mut Writer, table: &Table<'_>, place: u16) -> Result<(), AllocError>
    ensures { OnOk result (text.new ≡ text.old ++ stand_text table.now.lines.now place) }
{
    if place == 0 {
        text.word(b" is at the start")
    } else {
        write_behind(text, table, Point(place))
    }
}

// A role and where it is, in front of its next points.
fn write_place(
    text: &mut Writer,
    table: &Table<'_>,
    role: RoleId,
    place: u16,
) -> Result<(), AllocError>
    ensures { OnOk result (text.new ≡ text.old ++ place_text table.now.roles.now table.now.lines.now role place) }
{
    text.word(table.name(role))?;
    write_stand(text, table, place)?;
    text.word(b". Its next points there:\n")
}

// What is wrong with a first point of a choice that the role doesn't send.
fn write_subject(text: &mut Writer, table: &Table<'_>, role: RoleId) -> Result<(), AllocError>
    ensures { OnOk result (text.new ≡ text.old ++ subject_text table.now.roles.now role) }
{
    text.word(table.name(role))?;
    text.word(b" decides, but another role sends this first message:\n")
}

// What is wrong with a point of the role that no way comes to.
fn write_unreached(text: &mut Writer, table: &Table<'_>, role: RoleId) -> Result<(), AllocError>
    ensures { OnOk result (text.new ≡ text.old ++ unreached_text table.now.roles.now role) }
{
    text.word(table.name(role))?;
    text.word(b" sends this message, but no way from the start comes to it:\n")
}

// What is wrong with a point of the role from which no way leads to the end of its lane.
fn write_endless(text: &mut Writer, table: &Table<'_>, role: RoleId) -> Result<(), AllocError>
    ensures { OnOk result (text.new ≡ text.old ++ endless_text table.now.roles.now role) }
{
    text.word(table.name(role))?;
    text.word(
        b" sends this message, but no way leads from it to the end of its lane, and a stage follows:\n",
    )
}

// What is said of the place or the point where a rule fails, in front of the points that are shown.
fn write_where(
    text: &mut Writer,
    table: &Table<'_>,
    code: u8,
    role: RoleId,
    number: u16,
) -> Result<(), AllocError>
    ensures { OnOk result (text.new ≡ text.old ++ where_text table.now.roles.now table.now.lines.now code role number) }
{
    if is_at_place(code) {
        write_place(text, table, role, number)
    } else if code == 20 {
        write_subject(text, table, role)
    } else if code == 28 {
        write_endless(text, table, role)
    } else {
        write_unreached(text, table, role)
    }
}

// The line of the refusal by the rule with this code.
fn line_of(
    alloc: Global,
    table: &Table<'_>,
    code: u8,
    role: RoleId,
    number: u16,
) -> Result<Vec<u8>, AllocError>
    ensures { IfOk result (λ line. line.items ≡ refusal_line (Rule code (name_at table.now.roles.now role) number)) }
{
    let refused = Refused::Rule {
        code,
        role: Name::of(alloc, table.name(role))?,
        number,
    };
    refusal_line(alloc, &refused)
}

/// The rule and its repair. Fails if memory runs out.
pub fn write_rule(text: &mut Writer, explanation: &Explanation) -> Result<(), AllocError>
    ensures { OnOk result (text.new ≡ text.old ++ rule_text explanation.now) }
{
    text.word(explanation.rule)?;
    text.word(b"\n")?;
    text.word(b"Repair: ")?;
    text.word(explanation.repair)?;
    text.word(b"\n")
}

// A choice, by its first message.
fn write_first(text: &mut Writer, table: &Table<'_>, point: Point) -> Result<(), AllocError>
    ensures { OnOk result (text.new ≡ text.old ++ first_text table.now.lines.now point) }
{
    text.word(b"The choice whose first message is point ")?;
    text.number(point.0)?;
    text.word(b", line ")?;
    text.large_number(table.line(point) as u64)?;
    Ok(())
}

// Who decides there.
fn write_decides(text: &mut Writer, table: &Table<'_>, role: RoleId) -> Result<(), AllocError>
    ensures { OnOk result (text.new ≡ text.old ++ decides_text table.now.roles.now role) }
{
    text.word(b", stands in its way. There ")?;
    text.word(table.name(role))?;
    text.word(b" decides.\n")?;
    Ok(())
}

// The choice with this first message, which stands in the way.
fn write_choice(text: &mut Writer, table: &Table<'_>, point: Point) -> Result<(), AllocError>
    requires first { 1 ≤ point }
    requires last { point ≤ length table.now.points.now.messages }
    ensures { OnOk result (text.new ≡ text.old
        ++ choice_text table.now.roles.now (net_in table.now.points.now) table.now.lines.now point) }
{
    write_first(text, table, point)?;
    write_decides(text, table, table.points.sender(point))
}

// Writes which choice stands in the way, for the code of a role's send that isn't enabled.
#[tactic(auto, using(crate::proofs::Forking::way_told, crate::proofs::Forking::no_way_told))]
fn write_way(
    text: &mut Writer,
    table: &Table<'_>,
    code: u8,
    role: RoleId,
    number: u16,
) -> Result<(), AllocError>
    requires { number ≤ length table.now.points.now.messages }
    ensures { OnOk result ((way : List ℕ) × IsWay table.now.roles.now (net_in table.now.points.now) table.now.lines.now
        code role number way × (text.new ≡ text.old ++ way)) }
{
    if code != 24 {
        return Ok(());
    }
    match choice_in_way(table.points, role, number) {
        Some(point) => {
            write_choice(text, table, point)?;
            Ok(())
        }
        None => Ok(()),
    }
}

// Writes what the refusal by the rule with this code says.
fn write_told(
    alloc: Global,
    text: &mut Writer,
    table: &Table<'_>,
    code: u8,
    role: RoleId,
    number: u16,
) -> Result<(), AllocError>
    requires rule { HasRule code }
    requires number { IsNumberIn (net_in table.now.points.now) code number }
    ensures { OnOk result (AddsTold table.now.roles.now
        (net_in table.now.points.now) table.now.lines.now code role number text.old text.new) }
{
    let Some(explanation) = explain(code) else {
        unreachable!();
    };
    let line = line_of(alloc, table, code, role, number)?;
    let points = shown(alloc, table.points, code, role, number)?;
    text.word(b"\n")?;
    text.word(line.as_slice())?;
    write_where(text, table, code, role, number)?;
    table.write_points(text, points.as_slice())?;
    write_way(text, table, code, role, number)?;
    write_rule(text, &explanation)?;
    Ok(())
}

/// Writes what a refusal by a rule says: its line, the role and the place with their points, the rule and the repair.
/// Fails if memory runs out.
pub fn write_refusal(
    alloc: Global,
    text: &mut Writer,
    table: &Table<'_>,
    refusal: Refusal,
) -> Result<(), AllocError>
    requires { IsRuleIn (net_in table.now.points.now) refusal }
    ensures { OnOk result (AddsRefusal table.now.roles.now
        (net_in table.now.points.now) table.now.lines.now refusal text.old text.new) }
{
    match refusal {
        Refusal::Rule { code, role, point } => write_told(alloc, text, table, code, role, point),
        _ => unreachable!(),
    }
}
