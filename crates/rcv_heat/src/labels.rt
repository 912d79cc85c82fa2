// The words of the picture at their places: names of roles, what their crashes come to, and counts below the cells.

ghost use Rattle.std.specs.Prelude.{◌≡◌, [], ◌∷◌, ◌++◌, ◌+◌, ◌≤◌, ◌<◌, ◌^◌, length, IfOk, OnOk};
ghost use Rattle.rcv_session.specs.Session.{roles_of};
ghost use Rattle.rcv_costs.specs.Named.{AreNamedCosts};
ghost use Rattle.rcv_losses.specs.Totals.{costs_by, worst_of};
ghost use Rattle.rcv_heat.specs.Heat.{IsGrid, row_of};
ghost use Rattle.rcv_heat.specs.Words.{Words, words_in, head_words, is_dangerous, name_look, names_words, totals_words};
ghost use Rattle.rcv_heat.specs.Words.{row_words, rows_words, title_text, foot_text, all_words};

use crate::grid::{CELL, Grid, row};
use crate::words::{restart_text, saves_text, shown_name, undone_text, worst_at_text};
use rcv_core::setup::Setup;
use rcv_costs::{Cost, Costs};
use rcv_losses::totals::{kept_by, undone_by, worst_by, worst_of};
use rcv_picture::look::Look;
use rcv_picture::pixels::{At, Pixels};
use rcv_picture::shape::{Anchor, Shape};
use rcv_text::writer::Writer;
use rcv_tree::role::RoleId;
use std::alloc::{AllocError, Global};

/// How far everything is from the left edge.
pub const MARGIN: u32 = 16;

// A letter is so wide.
const LETTER: u32 = 8;

// Room for the words below a name, and for those right of a row.
const LEFT: u32 = 112;

const RIGHT: u32 = 240;

// Two numbers that are nearer to each other would overlap.
const APART: u32 = 36;

// How to read the picture.
const CELL_HINT: &[u8] =
    b"A cell is one crash, after so many of the role's events. Tinted: it undoes events. Bar: their share of all kept events.";

const ROW_HINT: &[u8] =
    b"A full bar is what restarting everybody costs. Beside a row: all its crashes together. Dashed: the worst crash of all.";

// Adds a text at this place.
fn add_words(
    shapes: &mut Vec<Shape>,
    x: u32,
    base: u32,
    anchor: Anchor,
    look: Look,
    text: Vec<u8>,
) -> Result<(), AllocError>
    ensures { OnOk result (words_in shapes.new.items
        ≡ words_in shapes.old.items ++ record { base = base; look = look; text = text.items } ∷ []) }
{
    let place = At {
        x: Pixels(x),
        y: Pixels(base),
    };
    shapes.push(Shape::Text {
        place,
        anchor,
        look,
        text,
    })?;
    Ok(())
}

/// How wide a text is at most.
pub fn width(text: &[u8]) -> u32
    ensures { result ≤ 80000 }
{
    text.len().min(10_000) as u32 * LETTER
}

/// The edge right of the names of all roles.
pub fn names_edge(setup: &Setup) -> u32 {
    let mut edge = LEFT;
    for role in 0..setup.roles() {
        edge = width(shown_name(setup, RoleId(role))).max(edge);
    }
    edge.min(900) + MARGIN + 12
}

// The last of a role's counts; 0 if it has none.
fn last_count(costs: &[Cost], role: RoleId) -> u32 {
    let mut last = 0;
    for cost in costs {
        if cost.role == role {
            last = cost.count;
        }
    }
    last
}

// Adds the title, and how to read the picture.
fn add_head(alloc: Global, shapes: &mut Vec<Shape>, title: &[u8]) -> Result<(), AllocError>
    ensures { OnOk result (words_in shapes.new.items ≡ words_in shapes.old.items ++ head_words title.now) }
{
    let title = Vec::from_slice(alloc, title)?;
    add_words(shapes, MARGIN, 26, Anchor::Start, Look::Big, title)?;
    let cells = Vec::from_slice(alloc, CELL_HINT)?;
    add_words(shapes, MARGIN, 44, Anchor::Start, Look::Note, cells)?;
    let rows = Vec::from_slice(alloc, ROW_HINT)?;
    add_words(shapes, MARGIN, 58, Anchor::Start, Look::Note, rows)
}

// Whether the worst crash of all is this role's, and undoes events.
fn is_dangerous(worst: &Option<Cost>, role: RoleId) -> bool
    ensures { result ≡ is_dangerous worst.now role }
{
    match worst {
        None => false,
        Some(worst) => worst.role == role && 0 < worst.undone,
    }
}

// How the name of a role looks.
fn name_look(worst: &Option<Cost>, role: RoleId) -> Look
    ensures { result ≡ name_look worst.now role }
{
    if is_dangerous(worst, role) {
        Look::Lost
    } else {
        Look::Head
    }
}

// Adds the name of a declared role, and how often it saves its state.
fn add_name(
    alloc: Global,
    shapes: &mut Vec<Shape>,
    setup: &Setup,
    worst: &Option<Cost>,
    role: RoleId,
) -> Result<(), AllocError>
    requires { role < roles_of setup.now }
    ensures { OnOk result (words_in shapes.new.items
        ≡ words_in shapes.old.items ++ names_words setup.now worst.now role) }
{
    let top = row(role);
    let name = Vec::from_slice(alloc, shown_name(setup, role))?;
    let look = name_look(worst, role);
    add_words(shapes, MARGIN, top + 20, Anchor::Start, look, name)?;
    let saves = saves_text(alloc, setup.every(role))?;
    add_words(shapes, MARGIN, top + 36, Anchor::Start, Look::Note, saves)
}

// Adds what the crashes of a role come to, right of its last cell.
fn add_totals(
    alloc: Global,
    shapes: &mut Vec<Shape>,
    grid: Grid,
    costs: &[Cost],
    role: RoleId,
) -> Result<(), AllocError>
    requires grid { IsGrid grid }
    requires few { length costs.now < 2 ^ 32 }
    ensures { OnOk result (words_in shapes.new.items ≡ words_in shapes.old.items
        ++ totals_words (row_of role) (costs_by role costs.now) (worst_of (costs_by role costs.now))) }
{
    let Some(worst) = worst_by(costs, role) else {
        return Ok(());
    };
    let top = row(role);
    let right = grid.column(last_count(costs, role)) + grid.wide + 12;
    let undone = undone_text(alloc, undone_by(costs, role))?;
    add_words(shapes, right, top + 13, Anchor::Start, Look::Plain, undone)?;
    let restart = restart_text(alloc, kept_by(costs, role))?;
    add_words(shapes, right, top + 28, Anchor::Start, Look::Note, restart)?;
    let worst = worst_at_text(alloc, &worst)?;
    add_words(shapes, right, top + 43, Anchor::Start, Look::Note, worst)
}

// Adds the words of a declared role's row.
fn add_row(
    alloc: Global,
    shapes: &mut Vec<Shape>,
    setup: &Setup,
    grid: Grid,
    costs: &[Cost],
    role: RoleId,
) -> Result<(), AllocError>
    requires declared { role < roles_of setup.now }
    requires grid { IsGrid grid }
    requires few { length costs.now < 2 ^ 32 }
    ensures { OnOk result (words_in shapes.new.items ≡ words_in shapes.old.items ++ row_words setup.now costs.now role) }
{
    add_name(alloc, shapes, setup, &worst_of(costs), role)?;
    add_totals(alloc, shapes, grid, costs, role)
}

// Adds the words of all rows.
fn add_rows(
    alloc: Global,
    shapes: &mut Vec<Shape>,
    setup: &Setup,
    grid: Grid,
    costs: &[Cost],
) -> Result<(), AllocError>
    requires grid { IsGrid grid }
    requires few { length costs.now < 2 ^ 32 }
    ensures { OnOk result (words_in shapes.new.items
        ≡ words_in shapes.old.items ++ rows_words setup.now costs.now (roles_of setup.now)) }
{
    for role in 0..setup.roles() {
        add_row(alloc, shapes, setup, grid, costs, RoleId(role))?;
    }
    Ok(())
}

/// All words of the picture, at their places: the title, how to read it, a row for each role, and the foot, which is given.
/// Fails if memory runs out.
pub fn words_of(
    alloc: Global,
    setup: &Setup,
    grid: Grid,
    costs: &Costs,
    title: &[u8],
    foot: &[u8],
) -> Result<Vec<Shape>, AllocError>
    requires grid { IsGrid grid }
    requires few { length costs.now.list.items < 2 ^ 32 }
    requires title { title.now ≡ title_text setup.now }
    requires foot { foot.now ≡ foot_text setup.now costs.now }
    ensures { IfOk result (λ shapes. words_in shapes.items ≡ all_words setup.now costs.now) }
{
    let mut shapes = Vec::new(alloc);
    add_head(alloc, &mut shapes, title)?;
    add_rows(alloc, &mut shapes, setup, grid, costs.list.as_slice())?;
    let base = row(RoleId(setup.roles())) + 10;
    let foot = Vec::from_slice(alloc, foot)?;
    add_words(&mut shapes, MARGIN, base, Anchor::Start, Look::Plain, foot)?;
    Ok(shapes)
}

// Adds a count below its cell.
fn add_count(
    alloc: Global,
    shapes: &mut Vec<Shape>,
    grid: Grid,
    role: RoleId,
    count: u32,
) -> Result<(), AllocError>
    requires { IsGrid grid }
{
    let mut text = Writer::new(alloc);
    text.large_number(count as u64)?;
    let middle = grid.column(count) + grid.wide / 2;
    let below = row(role) + CELL + 13;
    add_words(
        shapes,
        middle,
        below,
        Anchor::Middle,
        Look::Small,
        text.finish(),
    )
}

// Adds the first and the last count of a role, and the worst one if there is room for it.
fn add_row_counts(
    alloc: Global,
    shapes: &mut Vec<Shape>,
    grid: Grid,
    costs: &[Cost],
    role: RoleId,
) -> Result<(), AllocError>
    requires { IsGrid grid }
{
    let Some(worst) = worst_by(costs, role) else {
        return Ok(());
    };
    let last = last_count(costs, role);
    add_count(alloc, shapes, grid, role, 0)?;
    if grid.column(last) >= grid.column(0) + APART {
        add_count(alloc, shapes, grid, role, last)?;
    }
    let after_first = grid.column(worst.count) >= grid.column(0) + APART;
    if after_first && grid.column(last) >= grid.column(worst.count) + APART {
        add_count(alloc, shapes, grid, role, worst.count)?;
    }
    Ok(())
}

/// Counts below the cells of each role. Fails if memory runs out.
pub fn counts_of(
    alloc: Global,
    setup: &Setup,
    grid: Grid,
    costs: &[Cost],
) -> Result<Vec<Shape>, AllocError>
    requires { IsGrid grid }
{
    let mut shapes = Vec::new(alloc);
    for role in 0..setup.roles() {
        add_row_counts(alloc, &mut shapes, grid, costs, RoleId(role))?;
    }
    Ok(shapes)
}

/// How wide the picture is, so that all words have room.
pub fn picture_width(grid: Grid, costs: &[Cost], title: &[u8], foot: &[u8]) -> u32
    requires { IsGrid grid }
{
    let mut right = 0;
    for cost in costs {
        right = grid.column(cost.count).max(right);
    }
    (right + grid.wide + 12 + RIGHT)
        .max(MARGIN + width(title))
        .max(MARGIN + width(foot))
        .max(MARGIN + width(CELL_HINT) * 3 / 4)
}
