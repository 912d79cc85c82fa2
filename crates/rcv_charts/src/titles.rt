// What statements are called that aren't messages: texts that a viewer shows where the pointer rests.

ghost use Rattle.std.specs.Prelude.{◌≡◌, IfOk, IsTrue};
ghost use Rattle.rcv_model.specs.Text.{body_of, bodies_of};
ghost use Rattle.rcv_charts.specs.Statements.{choice_title, rec_title, continue_title, par_title, block_title};
ghost use Rattle.rcv_charts.specs.Titles.{is_titled};

use crate::reach::Reach;
use rcv_text::writer::Writer;
use rcv_tree::name::{Name, Names};
use rcv_tree::role::RoleId;
use rcv_tree::statement::{Block, Blocks};
use std::alloc::{AllocError, Global};

/// `choice at B: points 2 to 5`. Fails if memory runs out.
pub fn choice_title(
    alloc: Global,
    roles: &Names,
    subject: RoleId,
    branches: &Blocks,
) -> Result<Vec<u8>, AllocError>
    ensures value { IfOk result (λ title. title.items ≡ choice_title roles.now subject (bodies_of branches.now)) }
    ensures titled { IfOk result (λ title. IsTrue (is_titled title.items)) }
{
    let mut title = Writer::new(alloc);
    title.word(b"choice at ")?;
    title.word(roles.name(subject))?;
    title.word(b": ")?;
    Reach::of_blocks(branches).write(&mut title)?;
    Ok(title.finish())
}

/// `rec Try: points 1 to 7`. Fails if memory runs out.
pub fn rec_title(alloc: Global, name: &Name, body: &Block) -> Result<Vec<u8>, AllocError>
    ensures value { IfOk result (λ title. title.items ≡ rec_title name.now (body_of body.now)) }
    ensures titled { IfOk result (λ title. IsTrue (is_titled title.items)) }
{
    let mut title = Writer::new(alloc);
    title.word(b"rec ")?;
    title.word(name.as_slice())?;
    title.word(b": ")?;
    Reach::of(body).write(&mut title)?;
    Ok(title.finish())
}

/// `continue Try`. Fails if memory runs out.
pub fn continue_title(alloc: Global, name: &Name) -> Result<Vec<u8>, AllocError>
    ensures value { IfOk result (λ title. title.items ≡ continue_title name.now) }
    ensures titled { IfOk result (λ title. IsTrue (is_titled title.items)) }
{
    let mut title = Writer::new(alloc);
    title.word(b"continue ")?;
    title.word(name.as_slice())?;
    Ok(title.finish())
}

/// `par: points 4 to 9`. Fails if memory runs out.
pub fn par_title(alloc: Global, blocks: &Blocks) -> Result<Vec<u8>, AllocError>
    ensures value { IfOk result (λ title. title.items ≡ par_title (bodies_of blocks.now)) }
    ensures titled { IfOk result (λ title. IsTrue (is_titled title.items)) }
{
    let mut title = Writer::new(alloc);
    title.word(b"par: ")?;
    Reach::of_blocks(blocks).write(&mut title)?;
    Ok(title.finish())
}

/// The title of a block with this word in front: `or: points 4 to 5`. Fails if memory runs out.
pub fn block_title(alloc: Global, word: &[u8], block: &Block) -> Result<Vec<u8>, AllocError>
    ensures value { IfOk result (λ title. title.items ≡ block_title word.now (body_of block.now)) }
    ensures titled { IfOk result (λ title. IsTrue (is_titled title.items)) }
{
    let mut title = Writer::new(alloc);
    title.word(word)?;
    title.word(b": ")?;
    Reach::of(block).write(&mut title)?;
    Ok(title.finish())
}
