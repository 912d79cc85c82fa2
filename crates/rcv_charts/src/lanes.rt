// Lanes for wires that go up and down beside each other: no two in one lane at the same height.

use rcv_picture::pixels::Pixels;
use std::alloc::{AllocError, Global};

// From where to where a wire goes.
#[derive(Clone, Copy, Drop)]
struct Span {
    top: Pixels,
    bottom: Pixels,
}

// The wires of a lane.
#[derive(Drop)]
struct Lane {
    spans: Vec<Span>,
}

impl Lane {
    // Whether a wire has room.
    fn is_free(&self, top: Pixels, bottom: Pixels) -> bool {
        self.spans
            .as_slice()
            .iter()
            .all(|span| bottom < span.top || span.bottom < top)
    }
}

/// Lanes beside each other.
#[derive(Drop)]
pub struct Lanes {
    lanes: Vec<Lane>,
}

impl Lanes {
    /// No lanes yet. It takes no memory.
    pub fn new(alloc: Global) -> Lanes {
        Lanes {
            lanes: Vec::new(alloc),
        }
    }

    /// How many there are.
    pub fn count(&self) -> usize {
        self.lanes.len()
    }

    /// Puts a wire between these heights into the first lane with room, and answers which lane that is. Fails if memory
    /// runs out.
    pub fn put(&mut self, alloc: Global, one: Pixels, other: Pixels) -> Result<usize, AllocError> {
        let span = Span {
            top: one.min(other) - Pixels(2),
            bottom: one.max(other) + Pixels(2),
        };
        let found = self
            .lanes
            .as_slice()
            .iter()
            .position(|lane| lane.is_free(span.top, span.bottom));
        if let Some(index) = found {
            self.lanes[index].spans.push(span)?;
            return Ok(index);
        }
        self.lanes.push(Lane {
            spans: vec![in alloc; span]?,
        })?;
        Ok(self.lanes.len() - 1)
    }
}
