// Groups of shapes, and what each says of a journal.

use crate::shape::Shape;

/// How many entries of each kind a run of entries has, and how many of its events aren't kept at the end.
#[derive(Clone, Copy, Debug, PartialEq, Eq)]
pub struct Counts {
    pub sends: u32,
    pub receives: u32,
    pub crashes: u32,
    pub recoveries: u32,
    pub undone: u32,
}

/// What a group says of the journal that is drawn. It counts entries from 0.
#[derive(Clone, Copy, Debug, PartialEq, Eq)]
pub enum Says {
    /// Nothing of its own.
    Nothing,
    /// This entry stands here; and whether it is an event that isn't kept at the end.
    Entry {
        place: u32,
        undone: bool,
    },
    /// The entries from the first up to before the end stand here, folded, and so many of each kind.
    Fold {
        first: u32,
        end: u32,
        counts: Counts,
    },
    /// The message of one entry, a Send, which the other, a Recv, receives; and whether the Recv isn't kept at the end.
    Arrow {
        send: u32,
        receive: u32,
        undone: bool,
    },
}

/// Shapes that belong together, with what they say and a text that a viewer shows when the pointer rests on them.
#[derive(Drop)]
pub struct Group {
    pub says: Says,
    pub title: Vec<u8>,
    pub shapes: Vec<Shape>,
}
