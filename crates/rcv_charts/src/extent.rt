// How much room a protocol's picture needs.

use crate::beside::{Span, are_apart};
use crate::calls::Calls;
use crate::columns::ROLES;
use crate::messages::Message;
use crate::notes::Notes;
use rcv_module::Called;
use rcv_picture::letters::{Letters, width_of};
use rcv_picture::pixels::Pixels;
use rcv_tree::name::Names;
use rcv_tree::statement::{Block, Blocks, Stmt};
use std::alloc::{AllocError, Global};

/// How much further in each frame stands than the one around it.
pub const INSET: Pixels = Pixels(14);

/// Where a block is drawn: how far in its frame stands, how many calls have a frame around it, and how many other
/// frames are around it within that of the innermost call.
#[derive(Clone, Copy, Drop)]
pub struct Within {
    pub inset: Pixels,
    pub calls: usize,
    pub blocks: u8,
}

/// What was found in the text.
#[derive(Drop)]
pub struct Extent {
    alloc: Global,
    /// How far in the innermost block stands.
    pub deepest: Pixels,
    /// The widest label, and the widest name of a loop that is begun again.
    pub label: Pixels,
    pub again: Pixels,
    /// How wide a picture must be for each tag to fit into its frame.
    pub tags: Pixels,
    /// The columns at which a lane begins that has another lane to its left.
    pub gaps: [bool; ROLES],
    /// Whether there are lanes, and whether there are calls.
    pub has_lanes: bool,
    pub has_calls: bool,
    /// The labels that are cut.
    pub notes: Notes,
}

/// How wide the tag of a frame is.
pub fn tag_width(tag: &[u8]) -> Pixels {
    width_of(tag, Letters::Plain) + Pixels(16)
}

impl Within {
    /// At this edge of the picture or of a lane.
    pub fn at(self, inset: Pixels) -> Within {
        Within { inset, ..self }
    }

    /// Within one frame more, of a choice, a loop or lanes.
    pub fn in_frame(self) -> Within {
        Within {
            inset: self.inset + INSET,
            calls: self.calls,
            blocks: self.blocks.saturating_add(1),
        }
    }

    /// Within the frame of one call more.
    pub fn in_call(self) -> Within {
        Within {
            inset: self.inset + INSET,
            calls: self.calls.saturating_add(1),
            blocks: 0,
        }
    }
}

impl Extent {
    /// What a block needs that stands there, whose points came through these calls. Fails if memory runs out.
    pub fn of(
        alloc: Global,
        roles: &Names,
        calls: Calls<'_>,
        within: Within,
        block: &Block,
    ) -> Result<Extent, AllocError> {
        let mut extent = Extent {
            alloc,
            deepest: within.inset,
            label: Pixels(0),
            again: Pixels(0),
            tags: Pixels(0),
            gaps: [false; ROLES],
            has_lanes: false,
            has_calls: false,
            notes: Notes::new(alloc),
        };
        extent.block(roles, calls, within, block)?;
        Ok(extent)
    }

    // Takes a message into account.
    fn message(&mut self, message: &Message<'_>) -> Result<(), AllocError> {
        let shown = message.shown(self.alloc)?;
        self.label = self.label.max(width_of(shown.as_slice(), Letters::Plain));
        if let Some(whole) = message.whole_if_cut(self.alloc)? {
            self.notes.add(self.alloc, message.point, whole.as_slice())?;
        }
        Ok(())
    }

    // Takes a tag of so many letters into account.
    fn tag(&mut self, inset: Pixels, words: &[u8], more: &[u8]) {
        let tag = tag_width(words) + width_of(more, Letters::Plain) + Pixels(8);
        self.tags = self.tags.max(inset * 2 + tag);
    }

    // Takes lanes beside each other into account.
    fn lanes(&mut self, blocks: &Blocks) {
        self.has_lanes = true;
        if are_apart(blocks) {
            for block in blocks.as_slice() {
                let first = Span::of(block).first.0 as usize;
                if 0 < first && first < ROLES {
                    self.gaps[first] = true;
                }
            }
        }
    }

    // Takes the frames of these calls into account, each within the one before. What stands in the innermost stands there.
    fn calls(&mut self, calls: Calls<'_>, within: Within, into: &[Called]) -> Within {
        let mut framed = within;
        for call in into {
            self.has_calls = true;
            self.tag(framed.inset, b"do ", calls.name(*call));
            framed = framed.in_call();
        }
        self.deepest = self.deepest.max(framed.inset);
        framed
    }

    // Takes the statements of a block into account.
    #[cycle(extent)]
    fn block(
        &mut self,
        roles: &Names,
        calls: Calls<'_>,
        within: Within,
        block: &Block,
    ) -> Result<(), AllocError> {
        self.deepest = self.deepest.max(within.inset);
        for stmt in block.as_slice() {
            let framed = self.calls(calls, within, calls.into_block(within, stmt));
            self.stmt(roles, calls, framed, stmt)?;
        }
        Ok(())
    }

    // Takes blocks into account.
    #[cycle(extent)]
    fn blocks(
        &mut self,
        roles: &Names,
        calls: Calls<'_>,
        within: Within,
        blocks: &Blocks,
    ) -> Result<(), AllocError> {
        for block in blocks.as_slice() {
            self.block(roles, calls, within, block)?;
        }
        Ok(())
    }

    // Takes a statement into account.
    #[cycle(extent)]
    fn stmt(
        &mut self,
        roles: &Names,
        calls: Calls<'_>,
        within: Within,
        stmt: &Stmt,
    ) -> Result<(), AllocError> {
        match stmt {
            Stmt::Message {
                label,
                sorts,
                sender,
                receiver,
                point,
            } => {
                let message = Message {
                    label,
                    sorts,
                    sender: *sender,
                    receiver: *receiver,
                    point: *point,
                };
                self.message(&message)
            }
            Stmt::Choice { subject, branches } => {
                self.tag(within.inset, roles.name(*subject), b" chooses");
                self.blocks(roles, calls, within.in_frame(), branches)
            }
            Stmt::Rec { name, body } => {
                self.tag(within.inset, b"loop ", name.as_slice());
                self.block(roles, calls, within.in_frame(), body)
            }
            Stmt::Continue { name } => {
                let words = width_of(b"again ", Letters::Plain)
                    + width_of(name.as_slice(), Letters::Plain);
                self.again = self.again.max(words);
                Ok(())
            }
            Stmt::Par { blocks } => {
                self.tag(within.inset, b"in parallel", b"");
                self.lanes(blocks);
                self.blocks(roles, calls, within.in_frame(), blocks)
            }
            Stmt::Do { .. } => Ok(()),
        }
    }
}
