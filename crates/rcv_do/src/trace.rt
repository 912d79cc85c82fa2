// Where the points of an expansion come from, without the expansion.

ghost use Rattle.std.specs.Prelude.{◌≡◌, ◌++◌, ◌∷◌, [], length, map, slice_index_or, OnOk, IfOk};
ghost use Rattle.rcv_model.specs.Text.{body_of, bodies_of};
ghost use Rattle.rcv_module.specs.Origins.{AreOriginsOf};
ghost use Rattle.rcv_module.specs.Parts.{Part, parts_of, sites};
ghost use Rattle.rcv_do.specs.Code.{parts_in, IsCallOrder};
ghost use Rattle.rcv_do.specs.Tracing.{Traced, TracedBlocks, TracedStmt};

use crate::calls::first_calls;
use crate::order::before;
use crate::parts::Parts;
use rcv_module::{Called, Origin, Origins};
use rcv_tree::module::Module;
use rcv_tree::name::{Name, Names};
use rcv_tree::statement::{Block, Blocks, Stmt};
use std::alloc::{AllocError, Global};

// The number of the first call of the protocol at this place.
fn first_of(firsts: &[usize], place: usize) -> usize
    ensures { result ≡ slice_index_or firsts.now place 0 }
{
    match firsts.get(place) {
        Some(first) => *first,
        None => 0,
    }
}

// These calls and one more.
fn with_call(alloc: Global, through: &[Called], call: Called) -> Result<Vec<Called>, AllocError>
    ensures { IfOk result (λ calls. calls.items ≡ through.now ++ call ∷ []) }
{
    let mut calls = Vec::from_slice(alloc, through)?;
    calls.push(call)?;
    Ok(calls)
}

// A text whose points are traced: the protocols, and the number of the first call of each one; the place of the
// protocol whose text it is, the calls through which one came to it, and the places of those that it may call.
#[derive(Clone, Copy)]
pub struct Tracing<'a> {
    parts: Parts<'a>,
    firsts: &'a [usize],
    holder: usize,
    through: &'a [Called],
    under: &'a [usize],
}

impl<'a> Tracing<'a> {
    // Adds the origins of a block's points. The block's first call has this number.
    #[cycle(trace)]
    fn block(
        &self,
        alloc: Global,
        block: &Block,
        number: &mut usize,
        points: &mut Vec<Origin>,
    ) -> Result<(), AllocError>
        ensures { OnOk result (Traced self.now number.old number.new (body_of block.now) points.old.items points.new.items) }
    {
        for stmt in block.as_slice() {
            self.stmt(alloc, stmt, number, points)?;
        }
        Ok(())
    }

    // Adds those of these blocks.
    #[cycle(trace)]
    fn blocks(
        &self,
        alloc: Global,
        blocks: &Blocks,
        number: &mut usize,
        points: &mut Vec<Origin>,
    ) -> Result<(), AllocError>
        ensures { OnOk result (TracedBlocks self.now number.old number.new (bodies_of blocks.now) points.old.items points.new.items) }
    {
        for block in blocks.as_slice() {
            self.block(alloc, block, number, points)?;
        }
        Ok(())
    }

    // Adds those of a statement.
    #[cycle(trace)]
    fn stmt(
        &self,
        alloc: Global,
        stmt: &Stmt,
        number: &mut usize,
        points: &mut Vec<Origin>,
    ) -> Result<(), AllocError>
        ensures { OnOk result (TracedStmt self.now number.old number.new stmt.now points.old.items points.new.items) }
    {
        match stmt {
            Stmt::Message { point, .. } => {
                points.push(Origin {
                    protocol: self.holder,
                    point: *point,
                    calls: Vec::from_slice(alloc, self.through)?,
                })?;
                Ok(())
            }
            Stmt::Continue { .. } => Ok(()),
            Stmt::Choice { branches, .. } => self.blocks(alloc, branches, number, points),
            Stmt::Rec { body, .. } => self.block(alloc, body, number, points),
            Stmt::Par { blocks } => self.blocks(alloc, blocks, number, points),
            Stmt::Do { protocol, .. } => {
                let entered = *number;
                *number = number.saturating_add(1);
                let Some(target) = self.parts.place_of(protocol.as_slice()) else {
                    return Ok(());
                };
                let Some(under) = before(self.under, target) else {
                    return Ok(());
                };
                let call = Called {
                    number: entered,
                    protocol: target,
                };
                let through = with_call(alloc, self.through, call)?;
                let inner = Tracing {
                    parts: self.parts,
                    firsts: self.firsts,
                    holder: target,
                    through: through.as_slice(),
                    under,
                };
                let mut first = first_of(self.firsts, target);
                inner.block(alloc, &self.parts.at(target).body, &mut first, points)
            }
        }
    }
}

// The names of the protocols, in text order.
fn names_of(alloc: Global, parts: &Parts<'_>) -> Result<Names, AllocError>
    ensures { IfOk result (λ names. names ≡ map (λ (p : Part). p.name) (parts_in parts.now)) }
{
    let mut names = Names::new(alloc);
    for index in 0..parts.count() {
        names.push(Name::of(alloc, parts.at(index).name.as_slice())?)?;
    }
    Ok(names)
}

/// Where the points of a module's expansion come from, along an order.
pub fn origins_of(alloc: Global, whole: &Module, order: &[usize]) -> Result<Origins, AllocError>
    requires lines { length whole.now.dos ≡ length (sites (parts_of whole.now)) }
    requires order { IsCallOrder (parts_of whole.now) order.now }
    ensures { IfOk result (AreOriginsOf whole.now) }
{
    let parts = Parts::of(whole);
    // There is a line for each call, so a number says how many there are.
    let _calls = whole.dos.as_slice().len();
    let firsts = first_calls(alloc, &parts)?;
    let tracing = Tracing {
        parts,
        firsts: firsts.as_slice(),
        holder: 0,
        through: &[],
        under: order,
    };
    let mut points = Vec::new(alloc);
    tracing.block(alloc, &whole.main.body, &mut 0, &mut points)?;
    Ok(Origins {
        names: names_of(alloc, &parts)?,
        points,
    })
}
