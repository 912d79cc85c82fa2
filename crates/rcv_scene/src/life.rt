// The lines of life, one for each role. A line shows where the role is down and which part of it is undone later.

use crate::layout::Layout;
use crate::recoveries::{concerned_at, first_lost, is_in, top_of_zone};
use crate::shapes::Shapes;
use rcv_picture::look::Look;
use rcv_picture::pixels::{Pixels, place};
use rcv_picture::shape::Shape;
use rcv_story::story::Recovery;
use rcv_tree::entry::Entry;
use std::alloc::AllocError;

// A part of a line that looks different.
#[derive(Clone, Copy)]
struct Part {
    from: Pixels,
    to: Pixels,
    down: bool,
}

// Whether an entry is a Recover of this role.
fn is_recover_of(entry: &Entry, of: u8) -> bool {
    match entry {
        Entry::Recover { role, .. } => role.0 == of,
        Entry::Send(_) | Entry::Recv(_) | Entry::Crash(_) => false,
    }
}

// Whether the Recover at a place brings this role back.
fn brings_back(layout: &Layout<'_>, at: u32, role: u8) -> bool {
    match layout.entry(at) {
        Some(entry) => is_recover_of(&entry, role),
        None => false,
    }
}

// The parts of a role's line at one recovery.
fn add_parts(
    parts: &mut Vec<Part>,
    layout: &Layout<'_>,
    recovery: &Recovery,
    role: u8,
) -> Result<(), AllocError> {
    let to = layout.y(recovery.place);
    if let Some(first) = first_lost(recovery, role) {
        let from = top_of_zone(layout, first);
        parts.push(Part {
            from,
            to,
            down: false,
        })?;
    }
    if brings_back(layout, recovery.place, role) {
        if let Some(crash) = recovery.crash {
            let from = layout.y(crash);
            parts.push(Part {
                from,
                to,
                down: true,
            })?;
        }
    }
    Ok(())
}

// The parts of a role's line.
fn parts_of(layout: &Layout<'_>, role: u8) -> Result<Vec<Part>, AllocError> {
    let mut parts = Vec::new(layout.alloc);
    for recovery in layout.story.recoveries.iter() {
        if layout.is_shown(recovery.place) {
            add_parts(&mut parts, layout, recovery, role)?;
        }
    }
    Ok(parts)
}

// The nearest height below this one at which a part begins or ends, but at most so low.
fn next_change(parts: &[Part], from: Pixels, end: Pixels) -> Pixels {
    let mut next = end;
    for part in parts {
        if from < part.from {
            next = next.min(part.from);
        }
        if from < part.to {
            next = next.min(part.to);
        }
    }
    next
}

// How the line looks just below this height.
fn look_below(parts: &[Part], y: Pixels) -> Look {
    let mut look = Look::Life;
    for part in parts {
        if part.from <= y && y < part.to {
            if part.down {
                return Look::Down;
            }
            look = Look::Gone;
        }
    }
    look
}

// Gaps in the bands of recoveries that pass behind a role's line.
fn add_gaps(shapes: &mut Shapes, layout: &Layout<'_>, role: u8) -> Result<(), AllocError> {
    let x = layout.x(role);
    for recovery in layout.story.recoveries.iter() {
        if layout.is_shown(recovery.place) && !is_in(concerned_at(layout, recovery.place), role) {
            let y = layout.y(recovery.place);
            shapes.line(place(x, y - Pixels(7)), place(x, y + Pixels(7)), Look::Halo)?;
        }
    }
    Ok(())
}

// The line of a role.
fn add_line(shapes: &mut Shapes, layout: &Layout<'_>, role: u8) -> Result<(), AllocError> {
    let x = layout.x(role);
    let parts = parts_of(layout, role)?;
    let mut from = layout.first;
    let mut start = from;
    let mut look = look_below(parts.as_slice(), from);
    for _ in 0..parts.len().saturating_mul(2) {
        let next = next_change(parts.as_slice(), from, layout.end);
        let other = look_below(parts.as_slice(), next);
        if other != look {
            shapes.line(place(x, start), place(x, next), look)?;
            start = next;
            look = other;
        }
        from = next;
    }
    shapes.line(place(x, start), place(x, layout.end), look)
}

/// The lines of all roles. Fails if memory runs out.
pub fn lives(layout: &Layout<'_>) -> Result<Vec<Shape>, AllocError> {
    let mut shapes = Shapes::new(layout.alloc);
    for role in 0..layout.roles() {
        add_gaps(&mut shapes, layout, role)?;
        add_line(&mut shapes, layout, role)?;
    }
    Ok(shapes.finish())
}
