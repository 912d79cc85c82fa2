// The legend: what the symbols in a picture mean.

use crate::layout::Layout;
use crate::shapes::Shapes;
use rcv_picture::letters::{Letters, width_of};
use rcv_picture::look::Look;
use rcv_picture::pixels::{At, Pixels, place};
use rcv_picture::shape::{Anchor, Shape};
use rcv_tree::entry::Entry;
use std::alloc::AllocError;

// A symbol.
#[derive(Clone, Copy, Debug, PartialEq, Eq)]
enum Symbol {
    Sends,
    Receives,
    Undone,
    Again,
    Crash,
    Zone,
    Cut,
    Dropped,
    Waits,
}

const SYMBOLS: [Symbol; 9] = [
    Symbol::Sends,
    Symbol::Receives,
    Symbol::Undone,
    Symbol::Again,
    Symbol::Crash,
    Symbol::Zone,
    Symbol::Cut,
    Symbol::Dropped,
    Symbol::Waits,
];

// Which symbols occur, besides those of Sends and Recvs.
#[derive(Clone, Copy)]
struct Occurring {
    undone: bool,
    again: bool,
    crash: bool,
    lost: bool,
    lines: bool,
    dropped: bool,
    waits: bool,
}

impl Symbol {
    // What it means.
    fn meaning(self) -> &'static [u8] {
        match self {
            Symbol::Sends => b"sends (number: point)",
            Symbol::Receives => b"receives",
            Symbol::Undone => b"undone later",
            Symbol::Again => b"kept message, received again",
            Symbol::Crash => b"crash",
            Symbol::Zone => b"undone part of a role",
            Symbol::Cut => b"recovery line: the roles go back to it",
            Symbol::Dropped => b"dropped by a recovery",
            Symbol::Waits => b"sent, not received at the end",
        }
    }

    // How wide it is.
    fn width(self) -> Pixels {
        match self {
            Symbol::Sends | Symbol::Receives => Pixels(18),
            Symbol::Undone => Pixels(44),
            Symbol::Again | Symbol::Cut => Pixels(30),
            Symbol::Crash => Pixels(20),
            Symbol::Zone => Pixels(22),
            Symbol::Dropped | Symbol::Waits => Pixels(24),
        }
    }

    // Whether it occurs.
    fn occurs(self, occurring: &Occurring) -> bool {
        match self {
            Symbol::Sends | Symbol::Receives => true,
            Symbol::Undone => occurring.undone,
            Symbol::Again => occurring.again,
            Symbol::Crash => occurring.crash,
            Symbol::Zone => occurring.lost,
            Symbol::Cut => occurring.lines,
            Symbol::Dropped => occurring.dropped,
            Symbol::Waits => occurring.waits,
        }
    }

    // The symbol, from this place to the right.
    fn add(self, shapes: &mut Shapes, at: At) -> Result<(), AllocError> {
        let right = |far: u32| place(at.x + Pixels(far), at.y);
        match self {
            Symbol::Sends => shapes.circle(right(8), Pixels(6), Look::Send),
            Symbol::Receives => shapes.circle(right(8), Pixels(6), Look::Receive),
            Symbol::Undone => {
                shapes.circle(right(8), Pixels(6), Look::SendUndone)?;
                shapes.line(right(16), right(40), Look::WireUndone)
            }
            Symbol::Again => shapes.line(at, right(26), Look::WireAgain),
            Symbol::Crash => shapes.cross(right(8), 5),
            Symbol::Zone => {
                let corner = place(at.x + Pixels(2), at.y - Pixels(7));
                shapes.rect(corner, Pixels(14), Pixels(14), Pixels(0), Look::Zone)?;
                shapes.line(place(corner.x, at.y + Pixels(7)), corner, Look::Back)?;
                shapes.line(corner, place(at.x + Pixels(16), corner.y), Look::Back)
            }
            Symbol::Cut => shapes.line(at, right(26), Look::Cut),
            Symbol::Dropped => {
                shapes.line(at, right(14), Look::Gone)?;
                shapes.cross(right(16), 4)
            }
            Symbol::Waits => {
                shapes.line(at, right(12), Look::WirePlain)?;
                shapes.circle(right(15), Pixels(4), Look::Waiting)
            }
        }
    }
}

// Whether a recovery has more than one role whose undone part is shown.
fn has_line(layout: &Layout<'_>, firsts: &[Option<u32>]) -> bool {
    let mut count: u32 = 0;
    for first in firsts {
        if let Some(first) = first {
            if layout.is_shown(*first) {
                count = count.saturating_add(1);
            }
        }
    }
    count > 1
}

// Which symbols occur.
fn find_occurring(layout: &Layout<'_>) -> Occurring {
    let story = layout.story;
    let mut found = Occurring {
        undone: false,
        again: false,
        crash: false,
        lost: false,
        lines: false,
        dropped: false,
        waits: false,
    };
    for at in 0..layout.count() {
        if layout.is_shown(at) {
            found.undone = found.undone || layout.is_undone(at);
            found.again = found.again || story.is_again(at);
            found.crash = found.crash || matches!(layout.entry(at), Some(Entry::Crash(_)));
        }
    }
    for recovery in story.recoveries.iter() {
        if layout.is_shown(recovery.place) {
            found.lost = found.lost || recovery.firsts.iter().any(|first| first.is_some());
            found.lines = found.lines || has_line(layout, recovery.firsts.as_slice());
        }
    }
    for dropped in story.dropped.iter() {
        found.dropped = found.dropped || layout.is_shown(dropped.send);
    }
    for send in story.waiting.iter() {
        found.waits = found.waits || layout.is_shown(*send);
    }
    found
}

/// The legend, from this height downwards, and where it ends. Fails if memory runs out.
pub fn legend(layout: &Layout<'_>, top: Pixels) -> Result<(Vec<Shape>, Pixels), AllocError> {
    let mut shapes = Shapes::new(layout.alloc);
    let occurring = find_occurring(layout);
    let mut x = layout.left;
    let mut y = top;
    for symbol in SYMBOLS {
        if symbol.occurs(&occurring) {
            let width = symbol.width() + width_of(symbol.meaning(), Letters::Small) + Pixels(16);
            if layout.left < x && layout.width < x + width + Pixels(8) {
                x = layout.left;
                y = y + Pixels(18);
            }
            symbol.add(&mut shapes, place(x, y))?;
            let text = place(x + symbol.width() + Pixels(4), y + Pixels(4));
            shapes.words(text, Anchor::Start, Look::Note, symbol.meaning())?;
            x = x + width;
        }
    }
    Ok((shapes.finish(), y))
}
