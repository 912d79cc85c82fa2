// The bar over a folded journal: all of it, with what is undone and what is shown.

use crate::layout::Layout;
use crate::shapes::Shapes;
use rcv_picture::look::Look;
use rcv_picture::pixels::{Pixels, place};
use rcv_picture::shape::{Anchor, Shape};
use rcv_tree::entry::Entry;
use std::alloc::AllocError;

// The bar has at most so many slices.
const SLICES: u32 = 120;

// Where it begins, and how high it is.
const TOP: Pixels = Pixels(52);

const HEIGHT: Pixels = Pixels(30);

// The least height at which something undone is seen.
const SEEN: Pixels = Pixels(2);

// The share of `of` that the number is of the whole.
fn share(of: u32, number: u32, whole: u32) -> u32 {
    (u64::from(of).saturating_mul(u64::from(number)) / u64::from(whole.max(1))).min(u64::from(
        u32::MAX,
    )) as u32
}

// Where an entry stands along the bar.
fn along(layout: &Layout<'_>, at: u32) -> Pixels {
    layout.left + Pixels(share(layout.width_of_columns().0, at, layout.count()))
}

// How high a slice is marked as undone: by the share of its events that are undone.
fn undone_height(layout: &Layout<'_>, first: u32, end: u32) -> Pixels {
    let mut events: u32 = 0;
    let mut undone: u32 = 0;
    for at in first..end {
        if layout.event(at).is_some() {
            events = events.saturating_add(1);
        }
        if layout.is_undone(at) {
            undone = undone.saturating_add(1);
        }
    }
    if undone == 0 {
        return Pixels(0);
    }
    Pixels(share(HEIGHT.0, undone, events)).max(SEEN)
}

// A slice: what is kept, and below it what is undone.
fn add_slice(
    shapes: &mut Shapes,
    layout: &Layout<'_>,
    first: u32,
    end: u32,
) -> Result<(), AllocError> {
    let left = along(layout, first);
    let width = along(layout, end) - left;
    let undone = undone_height(layout, first, end);
    let kept = HEIGHT - undone;
    shapes.rect(place(left, TOP), width, kept, Pixels(0), Look::BarKept)?;
    if undone > Pixels(0) {
        shapes.rect(
            place(left, TOP + kept),
            width,
            undone,
            Pixels(0),
            Look::BarUndone,
        )?;
    }
    Ok(())
}

// All slices.
fn add_slices(shapes: &mut Shapes, layout: &Layout<'_>) -> Result<(), AllocError> {
    let count = layout.count();
    let slices = SLICES.min(count);
    let mut first = 0;
    for slice in 0..slices {
        let end = share(count, slice.saturating_add(1), slices);
        add_slice(shapes, layout, first, end)?;
        first = end;
    }
    Ok(())
}

// A cross for the first Crash in each equal part of the bar. There are as many parts as the bar may have slices.
fn add_crashes(shapes: &mut Shapes, layout: &Layout<'_>) -> Result<(), AllocError> {
    let mut before: Option<u32> = None;
    for at in 0..layout.count() {
        if let Some(Entry::Crash(_)) = layout.entry(at) {
            let part = share(SLICES, at, layout.count());
            if before != Some(part) {
                shapes.cross(place(along(layout, at), TOP + Pixels(8)), 4)?;
            }
            before = Some(part);
        }
    }
    Ok(())
}

// A line under a part that is shown.
fn add_shown(
    shapes: &mut Shapes,
    layout: &Layout<'_>,
    first: u32,
    end: u32,
) -> Result<(), AllocError> {
    let left = along(layout, first);
    let width = (along(layout, end) - left).max(Pixels(3));
    shapes.rect(
        place(left, TOP + HEIGHT + Pixels(4)),
        width,
        Pixels(2),
        Pixels(0),
        Look::BarShown,
    )
}

// Lines under all parts that are shown.
fn add_shown_parts(shapes: &mut Shapes, layout: &Layout<'_>) -> Result<(), AllocError> {
    let mut from: Option<u32> = None;
    for at in 0..layout.count() {
        match (layout.is_shown(at), from) {
            (true, None) => from = Some(at),
            (false, Some(first)) => {
                add_shown(shapes, layout, first, at)?;
                from = None;
            }
            _ => {}
        }
    }
    if let Some(first) = from {
        add_shown(shapes, layout, first, layout.count())?;
    }
    Ok(())
}

/// The bar; nothing if no entry is folded. Fails if memory runs out.
pub fn bar(layout: &Layout<'_>) -> Result<Vec<Shape>, AllocError> {
    let mut shapes = Shapes::new(layout.alloc);
    if layout.folded {
        let text = "the whole journal: orange undone, ✕ crash, underlined shown below".as_bytes();
        shapes.words(
            place(layout.left, TOP - Pixels(6)),
            Anchor::Start,
            Look::Note,
            text,
        )?;
        add_slices(&mut shapes, layout)?;
        add_crashes(&mut shapes, layout)?;
        add_shown_parts(&mut shapes, layout)?;
    }
    Ok(shapes.finish())
}
