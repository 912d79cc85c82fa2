// The sorts of a text's messages, by point.

ghost use Rattle.std.specs.Prelude.{◌≡◌, ◌++◌, IfOk, OnOk};
ghost use Rattle.rcv_model.specs.Text.{Body, body_of, bodies_of, stmt_body};
ghost use Rattle.rcv_accept.specs.Accepted.{text_of};
ghost use Rattle.rcv_export.specs.Messages.{sorts_in, sorts_beside};

use rcv_accept::accepted::Accepted;
use rcv_tree::name::Names;
use rcv_tree::statement::{Block, Blocks, Stmt};
use std::alloc::{AllocError, Global};

/// The sorts of each message of the text, in text order: those of point p stand at p - 1. Fails if memory runs out.
pub fn sorts_of(alloc: Global, accepted: &Accepted) -> Result<Vec<Names>, AllocError>
    ensures { IfOk result (λ sorts. sorts.items ≡ sorts_in (text_of accepted.now)) }
{
    let mut sorts = Vec::new(alloc);
    add_block(&mut sorts, &accepted.protocol().body)?;
    Ok(sorts)
}

// Adds those of a block. Fails if memory runs out.
#[cycle(sorts)]
fn add_block(sorts: &mut Vec<Names>, block: &Block) -> Result<(), AllocError>
    ensures { OnOk result (sorts.new.items ≡ sorts.old.items ++ sorts_in (body_of block.now)) }
{
    for stmt in block.as_slice() {
        add_stmt(sorts, stmt)?;
    }
    Ok(())
}

// Adds those of blocks beside each other. Fails if memory runs out.
#[cycle(sorts)]
fn add_blocks(sorts: &mut Vec<Names>, blocks: &Blocks) -> Result<(), AllocError>
    ensures { OnOk result (sorts.new.items ≡ sorts.old.items ++ sorts_beside (bodies_of blocks.now)) }
{
    for block in blocks.as_slice() {
        add_block(sorts, block)?;
    }
    Ok(())
}

// Adds those of a statement. Fails if memory runs out.
#[cycle(sorts)]
fn add_stmt(all: &mut Vec<Names>, stmt: &Stmt) -> Result<(), AllocError>
    ensures { OnOk result ((rest : Body) → all.new.items ++ sorts_in rest
        ≡ all.old.items ++ sorts_in (stmt_body stmt.now rest)) }
{
    match stmt {
        Stmt::Message { sorts, .. } => {
            all.push(sorts.share()?)?;
            Ok(())
        }
        Stmt::Choice { branches, .. } => add_blocks(all, branches),
        Stmt::Rec { body, .. } => add_block(all, body),
        Stmt::Par { blocks } => add_blocks(all, blocks),
        Stmt::Continue { .. } | Stmt::Do { .. } => Ok(()),
    }
}
