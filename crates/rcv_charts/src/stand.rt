// Where the boxes of a machine stand.

use crate::states::State;
use rcv_picture::pixels::Pixels;
use std::alloc::{AllocError, Global};

/// How high the head of a state is, and how high each step below it.
pub const HEAD: Pixels = Pixels(26);

pub const STEP: Pixels = Pixels(20);

// How far a box is from the one above it.
const GAP: Pixels = Pixels(22);

/// Where the box of a state stands: how far down its upper edge is, and how high it is.
#[derive(Clone, Copy, Drop)]
pub struct Frame {
    pub top: Pixels,
    pub height: Pixels,
}

// How high the box of a state is.
fn height(state: &State) -> Pixels {
    let steps = state.next().len();
    if steps == 0 {
        HEAD
    } else {
        HEAD + Pixels::of(steps) * 20 + Pixels(6)
    }
}

/// Where the boxes of these states stand: below each other in order, the one where the part ends last. Fails if memory
/// runs out.
pub fn frames_of(alloc: Global, states: &[State], top: Pixels) -> Result<Vec<Frame>, AllocError> {
    let mut all = Pixels(0);
    for state in states {
        if !state.is_done() {
            all = all + height(state) + GAP;
        }
    }
    let mut frames = Vec::new(alloc);
    let mut next = top;
    for state in states {
        let height = height(state);
        if state.is_done() {
            let top = top + all;
            frames.push(Frame { top, height })?;
        } else {
            frames.push(Frame { top: next, height })?;
            next = next + height + GAP;
        }
    }
    Ok(frames)
}

/// The frame of a state.
pub fn frame_of(frames: &[Frame], state: usize) -> Frame {
    match frames.get(state) {
        Some(frame) => *frame,
        None => Frame {
            top: Pixels(0),
            height: Pixels(0),
        },
    }
}
