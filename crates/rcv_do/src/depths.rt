// How deep in its protocol's text each call stands.

ghost use Rattle.std.specs.Prelude.{◌≡◌, ◌++◌, OnOk, IfOk};
ghost use Rattle.rcv_model.specs.Text.{Body, body_of, bodies_of, stmt_body};
ghost use Rattle.rcv_module.specs.Parts.{parts_of};
ghost use Rattle.rcv_do.specs.Depths.{deeper, depths as depths_in, depths_of, call_depths};

use rcv_tree::module::Module;
use rcv_tree::statement::{Block, Blocks, Stmt};
use std::alloc::{AllocError, Global};

// One block more.
fn deeper(depth: u8) -> u8
    ensures { result ≡ deeper depth }
{
    if depth < 255 { depth + 1 } else { depth }
}

// Adds those of the calls of a block that stands in so many others.
#[cycle(depths)]
fn add_block(depth: u8, block: &Block, depths: &mut Vec<u8>) -> Result<(), AllocError>
    ensures { OnOk result (depths.new.items ≡ depths.old.items ++ depths_in depth (body_of block.now)) }
{
    for stmt in block.as_slice() {
        add_stmt(depth, stmt, depths)?;
    }
    Ok(())
}

// Adds those of blocks.
#[cycle(depths)]
fn add_blocks(depth: u8, blocks: &Blocks, depths: &mut Vec<u8>) -> Result<(), AllocError>
    ensures { OnOk result (depths.new.items ≡ depths.old.items ++ depths_of depth (bodies_of blocks.now)) }
{
    for block in blocks.as_slice() {
        add_block(depth, block, depths)?;
    }
    Ok(())
}

// Adds those of a statement.
#[cycle(depths)]
fn add_stmt(depth: u8, stmt: &Stmt, depths: &mut Vec<u8>) -> Result<(), AllocError>
    ensures { OnOk result ((rest : Body) → depths.new.items ++ depths_in depth rest
        ≡ depths.old.items ++ depths_in depth (stmt_body stmt.now rest)) }
{
    match stmt {
        Stmt::Message { .. } | Stmt::Continue { .. } => Ok(()),
        Stmt::Choice { branches, .. } => add_blocks(deeper(depth), branches, depths),
        Stmt::Rec { body, .. } => add_block(deeper(depth), body, depths),
        Stmt::Par { blocks } => add_blocks(deeper(depth), blocks, depths),
        Stmt::Do { .. } => {
            depths.push(depth)?;
            Ok(())
        }
    }
}

/// For each call of a module, in text order, in how many inner blocks of its protocol's text it stands, counted up to
/// 255. Fails if memory runs out.
pub fn call_depths(alloc: Global, whole: &Module) -> Result<Vec<u8>, AllocError>
    ensures { IfOk result (λ depths. depths.items ≡ call_depths (parts_of whole.now)) }
{
    let mut depths = Vec::new(alloc);
    add_block(0, &whole.main.body, &mut depths)?;
    for other in whole.others.as_slice() {
        add_block(0, &other.body, &mut depths)?;
    }
    Ok(depths)
}
