// A protocol from above to below: its messages, and frames around its choices, loops, lanes and calls.

ghost use Rattle.std.specs.Prelude.{◌≡◌, IfOk, OnOk, IsTrue, codes};
ghost use Rattle.rcv_model.specs.Text.{Choose, Loop as Looped, Parallel, body_of, bodies_of, stmt_body};
ghost use Rattle.rcv_charts.specs.Statements.{continue_title, block_title};
ghost use Rattle.rcv_charts.specs.Chart.{AddsOne, AddsBody, AddsStatement, AddsBlocks, AddsLane, AddsBeside, AddsLanes};
ghost use Rattle.rcv_charts.specs.Chart.{upper, lower};
ghost use Rattle.rcv_charts.specs.Titles.{has_title};

use crate::beside::{Span, are_apart};
use crate::drawing::{Drawing, titled};
use crate::extent::{INSET, Within};
use crate::frames::{Chart, TAG, go_into, open_frame, put_frame};
use crate::messages::{Message, draw_message};
use crate::shapes::{line, path, text};
use crate::titles::{block_title, choice_title, continue_title, par_title, rec_title};
use crate::words::joined;
use rcv_picture::group::Group;
use rcv_picture::look::Look;
use rcv_picture::pixels::{At, Pixels, place};
use rcv_tree::name::Name;
use rcv_tree::role::RoleId;
use rcv_tree::statement::{Block, Blocks, Stmt};
use std::alloc::{AllocError, Global};

/// A loop that encloses the place that is drawn: where a way back to it goes up, and where it ends.
#[derive(Clone, Copy, Drop)]
pub struct Loop<'t> {
    name: &'t Name,
    x: Pixels,
    end: Pixels,
}

// The line between two blocks of a frame at this height, with this word below it. Fails if memory runs out.
fn divider(
    chart: &Chart<'_>,
    inset: Pixels,
    y: Pixels,
    word: &[u8],
    block: &Block,
) -> Result<Group, AllocError>
    ensures title { IfOk result (λ group. group.title.items ≡ block_title word.now (body_of block.now)) }
    ensures upper { IfOk result (λ group. upper group ≡ y.0) }
    ensures lower { IfOk result (λ group. lower group ≡ y.0) }
    ensures titled { IfOk result (λ group. IsTrue (has_title group)) }
{
    let left = chart.left + inset;
    let right = chart.right - inset;
    let title = block_title(chart.alloc, word, block)?;
    let word = Vec::from_slice(chart.alloc, word)?;
    let mut shapes = Vec::new(chart.alloc);
    shapes.push(line(At { x: left, y }, At { x: right, y }, Look::Divider))?;
    shapes.push(text(left + Pixels(8), y + Pixels(13), Look::Note, word))?;
    Ok(titled(title, shapes))
}

// Draws the line between two blocks of a frame, with this word. Fails if memory runs out.
fn draw_divider(
    chart: &Chart<'_>,
    drawing: &mut Drawing,
    inset: Pixels,
    word: &[u8],
    block: &Block,
) -> Result<(), AllocError>
    ensures { OnOk result (AddsOne (block_title word.now (body_of block.now)) drawing.old drawing.new) }
{
    drawing.skip(Pixels(10));
    let group = divider(chart, inset, drawing.down(), word, block)?;
    drawing.put_group(group)?;
    drawing.skip(Pixels(8));
    Ok(())
}

// The leftmost role of these blocks.
fn leftmost(blocks: &Blocks) -> RoleId {
    blocks.as_slice().iter().fold(
        RoleId(u8::MAX),
        |least, block| least.min(Span::of(block).first),
    )
}

// Where the line to the left of a lane stands.
fn side(chart: &Chart<'_>, first: RoleId) -> Pixels {
    chart.columns.start(first) - chart.columns.before
}

// Draws the lines between lanes beside each other, which begin here: one to the left of each but the leftmost. Fails if
// memory runs out.
fn draw_sides(
    chart: &Chart<'_>,
    drawing: &mut Drawing,
    top: Pixels,
    blocks: &Blocks,
) -> Result<(), AllocError>
    ensures { OnOk result (drawing.new ≡ drawing.old) }
{
    let leftmost = leftmost(blocks);
    let bottom = drawing.down() + Pixels(16);
    for block in blocks.as_slice() {
        let first = Span::of(block).first;
        if first != leftmost {
            let x = side(chart, first);
            drawing.put_below(line(place(x, top), place(x, bottom), Look::Divider))?;
        }
    }
    Ok(())
}

// The word at this height beside the line to the left of a lane that comes after the text's first one. The word of the
// leftmost lane stands beside the line of the first one. Fails if memory runs out.
fn and_word(
    chart: &Chart<'_>,
    blocks: &Blocks,
    first: &Block,
    block: &Block,
    y: Pixels,
) -> Result<Group, AllocError>
    ensures title { IfOk result (λ group. group.title.items ≡ block_title (codes "and") (body_of block.now)) }
    ensures upper { IfOk result (λ group. upper group ≡ y.0) }
    ensures lower { IfOk result (λ group. lower group ≡ y.0) }
    ensures titled { IfOk result (λ group. IsTrue (has_title group)) }
{
    let title = block_title(chart.alloc, b"and", block)?;
    let own = Span::of(block).first;
    let role = if own == leftmost(blocks) {
        Span::of(first).first
    } else {
        own
    };
    let word = Vec::from_slice(chart.alloc, b"and")?;
    let mut shapes = Vec::new(chart.alloc);
    shapes.push(text(side(chart, role) + Pixels(5), y, Look::Note, word))?;
    Ok(titled(title, shapes))
}

// Draws the word that stands beside a lane that comes after the text's first one. Fails if memory runs out.
fn draw_and(
    chart: &Chart<'_>,
    drawing: &mut Drawing,
    blocks: &Blocks,
    first: &Block,
    block: &Block,
) -> Result<(), AllocError>
    ensures { OnOk result (AddsOne (block_title (codes "and") (body_of block.now)) drawing.old drawing.new) }
{
    drawing.skip(Pixels(13));
    let group = and_word(chart, blocks, first, block, drawing.down())?;
    drawing.put_group(group)
}

// The words of a way back at this height, and the way, to the innermost of these loops that has the name. Fails if
// memory runs out.
fn way_back(
    chart: &Chart<'_>,
    loops: &[Loop<'_>],
    inset: Pixels,
    base: Pixels,
    name: &Name,
) -> Result<Group, AllocError>
    ensures title { IfOk result (λ group. group.title.items ≡ continue_title name.now) }
    ensures upper { IfOk result (λ group. upper group ≡ base.0) }
    ensures lower { IfOk result (λ group. lower group ≡ base.0) }
    ensures titled { IfOk result (λ group. IsTrue (has_title group)) }
{
    let y = base - Pixels(4);
    let left = chart.left + inset;
    let enclosing = loops
        .iter()
        .rev()
        .find(|enclosing| enclosing.name.as_slice() == name.as_slice());
    // Nothing is drawn of a way without its loop.
    let (x, end) = match enclosing {
        Some(enclosing) => (enclosing.x, enclosing.end),
        None => (left + Pixels(10), y),
    };
    let places = [place(left + Pixels(10), y), place(x, y), place(x, end)];
    let words = joined(chart.alloc, b"again ", name.as_slice())?;
    let mut shapes = Vec::new(chart.alloc);
    shapes.push(text(left + Pixels(14), base, Look::Again, words))?;
    shapes.push(path(chart.alloc, &places, Look::WireAgain)?)?;
    Ok(titled(continue_title(chart.alloc, name)?, shapes))
}

// Draws a way back. Fails if memory runs out.
fn draw_continue(
    chart: &Chart<'_>,
    drawing: &mut Drawing,
    loops: &[Loop<'_>],
    inset: Pixels,
    name: &Name,
) -> Result<(), AllocError>
    ensures { OnOk result (AddsOne (continue_title name.now) drawing.old drawing.new) }
{
    drawing.skip(Pixels(30));
    let group = way_back(chart, loops, inset, drawing.down(), name)?;
    drawing.put_group(group)
}

/// Draws the statements of a block inside these loops, with a frame around those that came through one call. Fails if
/// memory runs out.
#[cycle(draw)]
pub fn draw_block<'t>(
    chart: &Chart<'_>,
    drawing: &mut Drawing,
    loops: &mut Vec<Loop<'t>>,
    within: Within,
    block: &'t Block,
) -> Result<(), AllocError>
    ensures { OnOk result (AddsBody chart.now.roles.now (body_of block.now) drawing.old drawing.new) }
{
    let mut open = Vec::new(chart.alloc);
    for stmt in block.as_slice() {
        let calls = chart.calls.into_block(within, stmt);
        let framed = go_into(chart, drawing, &mut open, within, calls)?;
        draw_stmt(chart, drawing, loops, framed, stmt)?;
    }
    go_into(chart, drawing, &mut open, within, &[])?;
    Ok(())
}

// Draws blocks in a frame, with a line and a word between them. Fails if memory runs out.
#[cycle(draw)]
fn draw_blocks<'t>(
    chart: &Chart<'_>,
    drawing: &mut Drawing,
    loops: &mut Vec<Loop<'t>>,
    within: Within,
    word: &[u8],
    blocks: &'t Blocks,
) -> Result<(), AllocError>
    ensures { OnOk result (AddsBlocks chart.now.roles.now word.now (bodies_of blocks.now) drawing.old drawing.new) }
{
    let Some((first, others)) = blocks.as_slice().split_first() else {
        return Ok(());
    };
    drawing.skip(Pixels(14));
    draw_block(chart, drawing, loops, within.in_frame(), first)?;
    for block in others {
        draw_divider(chart, drawing, within.inset, word, block)?;
        draw_block(chart, drawing, loops, within.in_frame(), block)?;
    }
    Ok(())
}

// Draws a lane in its own columns, from here on. Answers how far down it goes, or `end` if that is further down. Fails
// if memory runs out.
#[cycle(draw)]
fn draw_lane<'t>(
    chart: &Chart<'_>,
    drawing: &mut Drawing,
    loops: &mut Vec<Loop<'t>>,
    within: Within,
    block: &'t Block,
    end: Pixels,
) -> Result<Pixels, AllocError>
    ensures { IfOk result (λ down. AddsLane chart.now.roles.now (body_of block.now) end.0 down.0 drawing.old drawing.new) }
{
    let lane = chart.lane(Span::of(block));
    let top = drawing.down();
    drawing.skip(Pixels(14));
    let within = within.in_frame().at(Pixels(0));
    draw_block(&lane, drawing, loops, within, block)?;
    let down = Pixels(end.0.max(drawing.down().0));
    drawing.go_to(top);
    Ok(down)
}

// Draws lanes beside each other, each in its own columns. Fails if memory runs out.
#[cycle(draw)]
fn draw_beside<'t>(
    chart: &Chart<'_>,
    drawing: &mut Drawing,
    loops: &mut Vec<Loop<'t>>,
    within: Within,
    blocks: &'t Blocks,
) -> Result<(), AllocError>
    ensures { OnOk result (AddsBeside chart.now.roles.now (bodies_of blocks.now) drawing.old drawing.new) }
{
    let Some((first, others)) = blocks.as_slice().split_first() else {
        return Ok(());
    };
    let top = drawing.down();
    let mut end = draw_lane(chart, drawing, loops, within, first, top)?;
    for block in others {
        draw_and(chart, drawing, blocks, first, block)?;
        end = Pixels(end.0.max(drawing.down().0));
        drawing.go_to(top);
        end = draw_lane(chart, drawing, loops, within, block, end)?;
    }
    drawing.go_to(end);
    draw_sides(chart, drawing, top, blocks)
}

// Draws the lanes of a `par`: beside each other if each has columns of its own, else one below the other. Fails if
// memory runs out.
#[cycle(draw)]
fn draw_lanes<'t>(
    chart: &Chart<'_>,
    drawing: &mut Drawing,
    loops: &mut Vec<Loop<'t>>,
    within: Within,
    blocks: &'t Blocks,
) -> Result<(), AllocError>
    ensures { OnOk result (AddsLanes chart.now.roles.now (bodies_of blocks.now) drawing.old drawing.new) }
{
    if are_apart(blocks) {
        draw_beside(chart, drawing, loops, within, blocks)
    } else {
        draw_blocks(chart, drawing, loops, within, b"and", blocks)
    }
}

// Draws a choice. Fails if memory runs out.
#[cycle(draw)]
fn draw_choice<'t>(
    chart: &Chart<'_>,
    drawing: &mut Drawing,
    loops: &mut Vec<Loop<'t>>,
    within: Within,
    subject: RoleId,
    branches: &'t Blocks,
) -> Result<(), AllocError>
    ensures { OnOk result (AddsStatement chart.now.roles.now (Choose subject (bodies_of branches.now)) drawing.old drawing.new) }
{
    let tag = joined(chart.alloc, chart.roles.name(subject), b" chooses")?;
    let title = choice_title(chart.alloc, chart.roles, subject, branches)?;
    open_frame(drawing);
    let mut inner = drawing.inner(chart.alloc);
    draw_blocks(chart, &mut inner, loops, within, b"or", branches)?;
    put_frame(chart, drawing, inner, within.inset, title, tag)
}

// Draws a loop. Fails if memory runs out.
#[cycle(draw)]
fn draw_loop<'t>(
    chart: &Chart<'_>,
    drawing: &mut Drawing,
    loops: &mut Vec<Loop<'t>>,
    within: Within,
    name: &'t Name,
    body: &'t Block,
) -> Result<(), AllocError>
    ensures { OnOk result (AddsStatement chart.now.roles.now (Looped name.now (body_of body.now)) drawing.old drawing.new) }
{
    let tag = joined(chart.alloc, b"loop ", name.as_slice())?;
    let title = rec_title(chart.alloc, name, body)?;
    let top = open_frame(drawing);
    loops.push(Loop {
        name,
        x: chart.left + within.inset + INSET.half(),
        end: top + TAG,
    })?;
    let mut inner = drawing.inner(chart.alloc);
    inner.skip(Pixels(14));
    draw_block(chart, &mut inner, loops, within.in_frame(), body)?;
    loops.pop();
    put_frame(chart, drawing, inner, within.inset, title, tag)
}

// Draws a `par`. Fails if memory runs out.
#[cycle(draw)]
fn draw_par<'t>(
    chart: &Chart<'_>,
    drawing: &mut Drawing,
    loops: &mut Vec<Loop<'t>>,
    within: Within,
    blocks: &'t Blocks,
) -> Result<(), AllocError>
    ensures { OnOk result (AddsStatement chart.now.roles.now (Parallel (bodies_of blocks.now)) drawing.old drawing.new) }
{
    let tag = Vec::from_slice(chart.alloc, b"in parallel")?;
    let title = par_title(chart.alloc, blocks)?;
    open_frame(drawing);
    let mut inner = drawing.inner(chart.alloc);
    draw_lanes(chart, &mut inner, loops, within, blocks)?;
    put_frame(chart, drawing, inner, within.inset, title, tag)
}

// Draws a statement. Fails if memory runs out.
#[cycle(draw)]
fn draw_stmt<'t>(
    chart: &Chart<'_>,
    drawing: &mut Drawing,
    loops: &mut Vec<Loop<'t>>,
    within: Within,
    stmt: &'t Stmt,
) -> Result<(), AllocError>
    ensures { OnOk result (AddsStatement chart.now.roles.now (stmt_body stmt.now) drawing.old drawing.new) }
{
    match stmt {
        Stmt::Message {
            label,
            sorts,
            sender,
            receiver,
            point,
        } => {
            let message = Message {
                label,
                sorts,
                sender: *sender,
                receiver: *receiver,
                point: *point,
            };
            draw_message(chart.alloc, drawing, chart.roles, chart.columns, &message)
        }
        Stmt::Choice { subject, branches } => {
            draw_choice(chart, drawing, loops, within, *subject, branches)
        }
        Stmt::Rec { name, body } => draw_loop(chart, drawing, loops, within, name, body),
        Stmt::Continue { name } => {
            draw_continue(chart, drawing, loops.as_slice(), within.inset, name)
        }
        Stmt::Par { blocks } => draw_par(chart, drawing, loops, within, blocks),
        // An expansion has no calls left.
        Stmt::Do { .. } => Ok(()),
    }
}
