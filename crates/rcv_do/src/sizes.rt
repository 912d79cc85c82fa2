// How large an expansion is, counted without it. Numbers stop one above the limits, so no sum is too large.

ghost use Rattle.std.specs.Prelude.{◌≡◌, ◌<◌, ◌≤◌, ◌+◌, ℕ, [], min, max, All, length, Some, slice_get, OnOk, IfOk};
ghost use Rattle.rcv_model.specs.Text.{Body, body_of, bodies_of, stmt_body};
ghost use Rattle.rcv_module.specs.Parts.{Part, calls, first_from};
ghost use Rattle.rcv_module.specs.Refusing.{AreCallable};
ghost use Rattle.rcv_do.specs.Code.{protocols_in, parts_in, known_at, AreAllKnown, CallsBehind};
ghost use Rattle.rcv_do.specs.Counting.{PassesBlock, PassesBlocks, PassesStmt, IsSizeOf, AreSizesOf, AreKnown, AreCapped, is_deep, is_many};

use crate::parts::Parts;
use rcv_tree::statement::{Block, Blocks, Stmt};
use std::alloc::{AllocError, Global};

/// Points up to 257, and nested blocks up to 33: what is above these counts as much.
#[derive(Clone, Copy)]
pub struct Size {
    pub points: u16,
    pub blocks: u8,
}

impl Size {
    fn one_point(self) -> Size
        ensures points { result.points ≡ min (self.points + 1) 257 }
        ensures blocks { result.blocks ≡ self.blocks }
    {
        Size {
            points: self.points.saturating_add(1).min(257),
            blocks: self.blocks,
        }
    }

    // With so many blocks open.
    fn opened(self, depth: u8) -> Size
        ensures points { result.points ≡ self.points }
        ensures blocks { result.blocks ≡ max self.blocks depth }
    {
        Size {
            points: self.points,
            blocks: self.blocks.max(depth),
        }
    }

    // With a text of that size inside so many open blocks.
    fn joined(self, depth: u8, inner: Size) -> Size
        ensures points { result.points ≡ min (self.points + inner.points) 257 }
        ensures blocks { result.blocks ≡ max self.blocks (min (depth + inner.blocks) 33) }
    {
        Size {
            points: self.points.saturating_add(inner.points).min(257),
            blocks: self.blocks.max(depth.saturating_add(inner.blocks).min(33)),
        }
    }
}

// What is known of the protocol at this place.
#[tactic(auto, using(crate::proofs::Items::known_past))]
fn known_at(known: &[Option<Size>], place: usize) -> Option<Size>
    ensures { result ≡ known_at known.now place }
{
    if place < known.len() {
        known[place]
    } else {
        None
    }
}

// One open block more.
fn deeper(depth: u8) -> u8
    ensures { result ≡ min (depth + 1) 33 }
{
    depth.saturating_add(1).min(33)
}

// A count along a text: the protocols, the sizes that are known, how large the text was so far, and how large it was at
// the end of each call.
#[derive(Drop)]
pub struct Count<'a> {
    parts: Parts<'a>,
    known: &'a [Option<Size>],
    now: Size,
    ends: Vec<Size>,
}

impl<'a> Count<'a> {
    // Goes past a block in which so many blocks are open.
    #[cycle(count)]
    fn block(&mut self, block: &Block, depth: u8) -> Result<(), AllocError>
        ensures { OnOk result (PassesBlock self.old depth (body_of block.now) self.new) }
    {
        for stmt in block.as_slice() {
            self.stmt(stmt, depth)?;
        }
        Ok(())
    }

    // Goes past these blocks. Each of them counts as open.
    #[cycle(count)]
    fn blocks(&mut self, blocks: &Blocks, depth: u8) -> Result<(), AllocError>
        ensures { OnOk result (PassesBlocks self.old depth (bodies_of blocks.now) self.new) }
    {
        for block in blocks.as_slice() {
            self.now = self.now.opened(depth);
            self.block(block, depth)?;
        }
        Ok(())
    }

    // Goes past a statement.
    #[cycle(count)]
    fn stmt(&mut self, stmt: &Stmt, depth: u8) -> Result<(), AllocError>
        ensures { OnOk result (PassesStmt self.old depth stmt.now self.new) }
    {
        let inner = deeper(depth);
        match stmt {
            Stmt::Message { .. } => {
                self.now = self.now.one_point();
                Ok(())
            }
            Stmt::Continue { .. } => Ok(()),
            Stmt::Choice { branches, .. } => self.blocks(branches, inner),
            Stmt::Par { blocks } => self.blocks(blocks, inner),
            Stmt::Rec { body, .. } => {
                self.now = self.now.opened(inner);
                self.block(body, inner)
            }
            Stmt::Do { protocol, .. } => {
                let Some(target) = self.parts.place_of(protocol.as_slice()) else {
                    return Ok(());
                };
                let Some(size) = known_at(self.known, target) else {
                    return Ok(());
                };
                self.now = self.now.joined(depth, size);
                self.ends.push(self.now)?;
                Ok(())
            }
        }
    }
}

/// The size of the expansion of the protocol at this place, whose own block doesn't count.
pub fn size_of(
    alloc: Global,
    parts: &Parts<'_>,
    known: &[Option<Size>],
    place: usize,
) -> Result<Size, AllocError>
    requires { place < length (protocols_in parts.now) }
    ensures { IfOk result (λ z. AreSizesOf (parts_in parts.now) known.now → (p : Part) → slice_get (parts_in parts.now) place ≡ Some p
        → AreKnown (parts_in parts.now) known.now (calls 0 p.body) → IsSizeOf (parts_in parts.now) place z) }
{
    let mut count = Count {
        parts: *parts,
        known,
        now: Size {
            points: 0,
            blocks: 0,
        },
        ends: Vec::new(alloc),
    };
    count.block(&parts.at(place).body, 0)?;
    Ok(count.now)
}

/// How large the expansion of the first protocol is up to the end of each of its calls. The last call stands for the
/// text after it, too.
pub fn marks_of(
    alloc: Global,
    parts: &Parts<'_>,
    known: &[Option<Size>],
) -> Result<Vec<Size>, AllocError>
    ensures { IfOk result (λ marks. AreSizesOf (parts_in parts.now) known.now
        → AreKnown (parts_in parts.now) known.now (calls 0 (body_of parts.now.main.now.body)) → AreCapped (parts_in parts.now) marks.items) }
{
    let mut count = Count {
        parts: *parts,
        known,
        now: Size {
            points: 0,
            blocks: 1,
        },
        ends: Vec::new(alloc),
    };
    count.block(&parts.main.body, 1)?;
    let whole = count.now;
    let mut ends = count.ends;
    let last = ends.len();
    if last > 0 {
        ends[last - 1] = whole;
    }
    Ok(ends)
}

/// The sizes of the protocols in this order, in which each stands after those that it calls.
pub fn sizes_of(
    alloc: Global,
    parts: &Parts<'_>,
    order: &[usize],
) -> Result<Vec<Option<Size>>, AllocError>
    requires inside { All (λ i. i < length (protocols_in parts.now)) order.now }
    requires callable { AreCallable (parts_in parts.now) }
    requires behind { CallsBehind (parts_in parts.now) [] order.now }
    ensures sizes { IfOk result (λ known. AreSizesOf (parts_in parts.now) known.items) }
    ensures all { IfOk result (λ known. AreAllKnown order.now known.items) }
{
    let mut known = Vec::new(alloc);
    for _ in 0..parts.count() {
        known.push(None)?;
    }
    for place in order {
        let size = size_of(alloc, parts, known.as_slice(), *place)?;
        known[*place] = Some(size);
    }
    Ok(known)
}

/// The number of the first call up to whose end there are more than 32 nested blocks.
pub fn first_deep(marks: &[Size]) -> Option<usize>
    ensures { result ≡ first_from is_deep 0 marks.now }
{
    for number in 0..marks.len() {
        if marks[number].blocks > 32 {
            return Some(number);
        }
    }
    None
}

/// The number of the first call up to whose end there are more than 256 points.
pub fn first_many(marks: &[Size]) -> Option<usize>
    ensures { result ≡ first_from is_many 0 marks.now }
{
    for number in 0..marks.len() {
        if marks[number].points > 256 {
            return Some(number);
        }
    }
    None
}
