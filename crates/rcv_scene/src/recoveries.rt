// What recoveries look like: the undone parts of the roles, and the line to which they go back.

use crate::layout::{ENTRY_ROW, Layout};
use crate::shapes::Shapes;
use rcv_picture::look::Look;
use rcv_picture::pixels::{At, Pixels, place};
use rcv_picture::shape::Shape;
use rcv_story::story::Recovery;
use rcv_tree::entry::Entry;
use rcv_tree::role::{RoleId, RoleSet};
use std::alloc::AllocError;

/// Half the width of an undone part.
pub const HALF_ZONE: Pixels = Pixels(17);

/// Whether the role is one of the set.
pub fn is_in(concerned: RoleSet, role: u8) -> bool {
    role < 8 && concerned.has(RoleId(role))
}

/// The roles that the Recover at a place concerns.
pub fn concerned_at(layout: &Layout<'_>, at: u32) -> RoleSet {
    match layout.entry(at) {
        Some(Entry::Recover { concerned, .. }) => concerned,
        _ => RoleSet(0),
    }
}

/// The first event that a role lost by a recovery.
pub fn first_lost(recovery: &Recovery, role: u8) -> Option<u32> {
    recovery.firsts.get(role as usize).copied().flatten()
}

/// Where the undone part of a role begins if this is its first event: above the event's row, or at the lower edge of
/// its fold.
pub fn top_of_zone(layout: &Layout<'_>, first: u32) -> Pixels {
    let row = layout.row(first);
    if row.shown {
        row.middle - ENTRY_ROW.half() + Pixels(1)
    } else {
        row.bottom - Pixels(4)
    }
}

// The undone part of a role, from its first lost event to the Recover.
fn add_zone(
    shapes: &mut Shapes,
    layout: &Layout<'_>,
    role: u8,
    first: u32,
    bottom: Pixels,
) -> Result<(), AllocError> {
    let x = layout.x(role);
    let top = top_of_zone(layout, first);
    let left = x - HALF_ZONE;
    shapes.rect(
        place(left, top),
        HALF_ZONE * 2,
        bottom - top,
        Pixels(0),
        Look::Zone,
    )?;
    if !layout.is_shown(first) {
        return shapes.line(place(left, bottom), place(left, top), Look::Back);
    }
    shapes.line(place(left, bottom), place(left, top), Look::Rise)?;
    shapes.line(place(left, top), place(x + HALF_ZONE, top), Look::Back)
}

// What lies behind the columns at a recovery: the undone parts, the line that joins their beginnings, and the band.
fn add_recovery(
    shapes: &mut Shapes,
    layout: &Layout<'_>,
    recovery: &Recovery,
) -> Result<(), AllocError> {
    let y = layout.y(recovery.place);
    let concerned = concerned_at(layout, recovery.place);
    let mut before: Option<At> = None;
    let mut leftmost: Option<Pixels> = None;
    let mut rightmost = Pixels(0);
    for role in 0..layout.roles() {
        if is_in(concerned, role) {
            let x = layout.x(role);
            rightmost = x;
            if leftmost.is_none() {
                leftmost = Some(x);
            }
            if let Some(first) = first_lost(recovery, role) {
                add_zone(shapes, layout, role, first, y)?;
                if layout.is_shown(first) {
                    let top = top_of_zone(layout, first);
                    if let Some(from) = before {
                        shapes.line(from, place(x - HALF_ZONE, top), Look::Cut)?;
                    }
                    before = Some(place(x + HALF_ZONE, top));
                }
            }
        }
    }
    if let Some(left) = leftmost {
        if left < rightmost {
            shapes.line(place(left, y), place(rightmost, y), Look::Band)?;
        }
    }
    Ok(())
}

/// What lies behind the columns at all recoveries that are shown. Fails if memory runs out.
pub fn zones(layout: &Layout<'_>) -> Result<Vec<Shape>, AllocError> {
    let mut shapes = Shapes::new(layout.alloc);
    for recovery in layout.story.recoveries.iter() {
        if layout.is_shown(recovery.place) {
            add_recovery(&mut shapes, layout, recovery)?;
        }
    }
    Ok(shapes.finish())
}
