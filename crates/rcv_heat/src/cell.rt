// The cells: one for each cost, with a bar.

ghost use Rattle.std.specs.Prelude.{◌≡◌, ◌++◌, IfOk, OnOk};
ghost use Rattle.rcv_costs.specs.Named.{IsNamedCost, AreNamedCosts};
ghost use Rattle.rcv_losses.specs.Totals.{worst_of};
ghost use Rattle.rcv_heat.specs.Heat.{IsGrid, IsCell, AreCells, rect, is_worst, shapes_of, tints_of, marks_of};

use crate::grid::{CELL, Grid, bar, row};
use rcv_core::setup::Setup;
use rcv_costs::Cost;
use rcv_losses::lines::line_of;
use rcv_losses::totals::worst_of;
use rcv_picture::group::{Group, Says};
use rcv_picture::look::Look;
use rcv_picture::pixels::{At, Pixels};
use rcv_picture::shape::Shape;
use std::alloc::{AllocError, Global};

// A rectangle by its left and its upper edge, its width and its height.
fn rect(x: u32, y: u32, wide: u32, high: u32, look: Look) -> Shape
    ensures { result ≡ rect x y wide high look }
{
    Shape::Rect {
        corner: At {
            x: Pixels(x),
            y: Pixels(y),
        },
        width: Pixels(wide),
        height: Pixels(high),
        round: Pixels(0),
        look,
    }
}

// Whether a cost is the worst one.
fn is_worst(worst: &Option<Cost>, cost: &Cost) -> bool
    ensures { result ≡ is_worst worst.now cost.now }
{
    match worst {
        None => false,
        Some(worst) => cost.role == worst.role && cost.count == worst.count,
    }
}

// Adds the tint, if the crash undoes events.
fn add_tint(shapes: &mut Vec<Shape>, grid: Grid, cost: &Cost) -> Result<(), AllocError>
    requires { IsGrid grid }
    ensures { OnOk result (shapes.new.items ≡ shapes.old.items ++ tints_of grid cost.now) }
{
    if cost.undone == 0 {
        return Ok(());
    }
    let x = grid.column(cost.count) + 1;
    let y = row(cost.role) + 1;
    shapes.push(rect(x, y, grid.wide - 2, CELL - 2, Look::Zone))?;
    Ok(())
}

// Adds the mark, if the cost is the worst.
fn add_mark(
    shapes: &mut Vec<Shape>,
    grid: Grid,
    marked: bool,
    cost: &Cost,
) -> Result<(), AllocError>
    requires { IsGrid grid }
    ensures { OnOk result (shapes.new.items ≡ shapes.old.items ++ marks_of grid marked cost.now) }
{
    if !marked {
        return Ok(());
    }
    let left = grid.column(cost.count);
    shapes.push(rect(left, row(cost.role), grid.wide, CELL, Look::Cut))?;
    Ok(())
}

// The shapes of the cell of a cost.
fn shapes_of(alloc: Global, grid: Grid, marked: bool, cost: &Cost) -> Result<Vec<Shape>, AllocError>
    requires { IsGrid grid }
    ensures { IfOk result (λ shapes. shapes.items ≡ shapes_of grid marked cost.now) }
{
    let x = grid.column(cost.count);
    let y = row(cost.role);
    let high = bar(cost);
    let mut shapes = Vec::new(alloc);
    shapes.push(rect(x, y, grid.wide, CELL, Look::Box))?;
    add_tint(&mut shapes, grid, cost)?;
    shapes.push(rect(x, y + (CELL - high), grid.wide, high, Look::BarUndone))?;
    add_mark(&mut shapes, grid, marked, cost)?;
    Ok(shapes)
}

// The cell of a cost.
fn cell_of(
    alloc: Global,
    setup: &Setup,
    grid: Grid,
    worst: &Option<Cost>,
    cost: &Cost,
) -> Result<Group, AllocError>
    requires grid { IsGrid grid }
    requires named { IsNamedCost setup.now cost.now }
    ensures { IfOk result (λ group. IsCell setup.now grid worst.now cost.now group) }
{
    let title = line_of(alloc, setup, cost)?;
    let shapes = shapes_of(alloc, grid, is_worst(worst, cost), cost)?;
    Ok(Group {
        says: Says::Nothing,
        title,
        shapes,
    })
}

/// The cells of these costs. Fails if memory runs out.
pub fn cells_of(
    alloc: Global,
    setup: &Setup,
    grid: Grid,
    costs: &[Cost],
) -> Result<Vec<Group>, AllocError>
    requires grid { IsGrid grid }
    requires named { AreNamedCosts setup.now costs.now }
    ensures { IfOk result (λ cells. AreCells setup.now grid (worst_of costs.now) costs.now cells.items) }
{
    let worst = worst_of(costs);
    let mut cells = Vec::new(alloc);
    for cost in costs {
        let cell = cell_of(alloc, setup, grid, &worst, cost)?;
        cells.push(cell)?;
    }
    Ok(cells)
}
