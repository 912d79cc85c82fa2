// The calls of a module, in text order.

ghost use Rattle.std.specs.Prelude.{◌≡◌, ◌≤◌, ◌++◌, All, length, map, OnOk, IfOk, drop};
ghost use Rattle.rcv_model.specs.Text.{Body, body_of, bodies_of, stmt_body};
ghost use Rattle.rcv_module.specs.Parts.{calls as calls_in, calls_of, sites};
ghost use Rattle.rcv_do.specs.Code.{call_of, parts_in, protocols_in, AreFirsts};
ghost use Rattle.rcv_do.specs.Rows.{IsInside};

use crate::parts::Parts;
use rcv_tree::statement::{Block, Blocks, Stmt};
use std::alloc::{AllocError, Global};

/// A call: the place of the protocol that holds it, the place of the protocol that it names, and the number of its
/// arguments.
#[derive(Clone, Copy)]
pub struct Call {
    pub holder: usize,
    pub target: Option<usize>,
    pub arguments: usize,
}

/// The calls of all protocols.
pub fn calls_of_all(alloc: Global, parts: &Parts<'_>) -> Result<Vec<Call>, AllocError>
    ensures calls { IfOk result (λ calls. calls.items ≡ map (call_of (parts_in parts.now)) (sites (parts_in parts.now))) }
    ensures inside { IfOk result (λ calls. All (IsInside (length (protocols_in parts.now))) calls.items) }
{
    let mut calls = Vec::new(alloc);
    for index in 0..parts.count() {
        add_block(parts, index, &parts.at(index).body, &mut calls)?;
    }
    Ok(calls)
}

/// For each protocol, the number of its first call: so many calls stand before it.
pub fn first_calls(alloc: Global, parts: &Parts<'_>) -> Result<Vec<usize>, AllocError>
    ensures { IfOk result (λ firsts. AreFirsts (parts_in parts.now) firsts.items) }
{
    let mut calls = Vec::new(alloc);
    let mut firsts = Vec::with_capacity(alloc, parts.count())?;
    for index in 0..parts.count() {
        firsts.push(calls.len())?;
        add_block(parts, index, &parts.at(index).body, &mut calls)?;
    }
    Ok(firsts)
}

// Adds those of a block.
#[cycle(calls)]
fn add_block(
    parts: &Parts<'_>,
    holder: usize,
    block: &Block,
    calls: &mut Vec<Call>,
) -> Result<(), AllocError>
    ensures { OnOk result (calls.new.items ≡ calls.old.items
        ++ map (call_of (parts_in parts.now)) (calls_in holder (body_of block.now))) }
{
    for stmt in block.as_slice() {
        add_stmt(parts, holder, stmt, calls)?;
    }
    Ok(())
}

// Adds those of blocks.
#[cycle(calls)]
fn add_blocks(
    parts: &Parts<'_>,
    holder: usize,
    blocks: &Blocks,
    calls: &mut Vec<Call>,
) -> Result<(), AllocError>
    ensures { OnOk result (calls.new.items ≡ calls.old.items
        ++ map (call_of (parts_in parts.now)) (calls_of holder (bodies_of blocks.now))) }
{
    for block in blocks.as_slice() {
        add_block(parts, holder, block, calls)?;
    }
    Ok(())
}

// Adds those of a statement.
#[cycle(calls)]
fn add_stmt(
    parts: &Parts<'_>,
    holder: usize,
    stmt: &Stmt,
    calls: &mut Vec<Call>,
) -> Result<(), AllocError>
    ensures { OnOk result ((rest : Body) → calls.new.items ++ map (call_of (parts_in parts.now)) (calls_in holder rest)
        ≡ calls.old.items ++ map (call_of (parts_in parts.now)) (calls_in holder (stmt_body stmt.now rest))) }
{
    match stmt {
        Stmt::Message { .. } | Stmt::Continue { .. } => Ok(()),
        Stmt::Choice { branches, .. } => add_blocks(parts, holder, branches, calls),
        Stmt::Rec { body, .. } => add_block(parts, holder, body, calls),
        Stmt::Par { blocks } => add_blocks(parts, holder, blocks, calls),
        Stmt::Do { protocol, roles } => {
            calls.push(Call {
                holder,
                target: parts.place_of(protocol.as_slice()),
                arguments: roles.as_slice().len(),
            })?;
            Ok(())
        }
    }
}
