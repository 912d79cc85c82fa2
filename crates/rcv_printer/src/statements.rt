// Statements, one on a line, and blocks of them.

ghost use Rattle.std.specs.Prelude.{◌≡◌, ◌++◌, OnOk, IfOk, codes};
ghost use Rattle.rcv_model.specs.Text.{body_of, bodies_of, stmt_body};
ghost use Rattle.rcv_printer.specs.CanonicalText.{inner, body_text, blocks_text};
ghost use Rattle.rcv_printer.specs.Printing.{Puts, PutsStatements};

use crate::names::{put, put_list, put_roles, put_words};
use rcv_text::writer::Writer;
use rcv_tree::name::{Name, Names};
use rcv_tree::role::RoleId;
use rcv_tree::statement::{Block, Blocks, Stmt};
use std::alloc::{AllocError, Global};

// The margin inside a block.
fn inner(alloc: Global, margin: &[u8]) -> Result<Vec<u8>, AllocError>
    ensures { IfOk result (λ more. more.items ≡ inner margin.now) }
{
    let mut more = Vec::from_slice(alloc, margin)?;
    more.extend_from_slice(b"  ")?;
    Ok(more)
}

// Puts the statements of a block after the text, with the margin before each.
#[cycle(statements)]
pub fn put_block(
    alloc: Global,
    text: &mut Writer,
    roles: &Names,
    margin: &[u8],
    block: &Block,
) -> Result<(), AllocError>
    ensures { OnOk result (Puts text.old text.new (body_text roles.now margin.now (body_of block.now))) }
{
    for stmt in block.as_slice() {
        put_stmt(alloc, text, roles, margin, stmt)?;
    }
    Ok(())
}

// Puts blocks after the text, with one word before the first brace and another one before each that follows, and ends
// the line.
#[cycle(statements)]
fn put_blocks(
    alloc: Global,
    text: &mut Writer,
    roles: &Names,
    margin: &[u8],
    before: &[u8],
    between: &[u8],
    blocks: &Blocks,
) -> Result<(), AllocError>
    ensures { OnOk result (Puts text.old text.new
        (λ next. blocks_text roles.now margin.now before.now between.now (bodies_of blocks.now) (codes "\n" ++ next))) }
{
    let further = inner(alloc, margin)?;
    let mut word = before;
    for block in blocks.as_slice() {
        put_words(text, &[word, b"{\n"])?;
        put_block(alloc, text, roles, further.as_slice(), block)?;
        put_words(text, &[margin, b"}"])?;
        word = between;
    }
    put(text, b"\n")?;
    Ok(())
}

// Puts the margin and a statement after the text.
#[cycle(statements)]
fn put_stmt(
    alloc: Global,
    text: &mut Writer,
    roles: &Names,
    margin: &[u8],
    stmt: &Stmt,
) -> Result<(), AllocError>
    ensures { OnOk result (PutsStatements roles.now margin.now text.old text.new (stmt_body stmt.now)) }
{
    match stmt {
        Stmt::Message {
            label,
            sorts,
            sender,
            receiver,
            ..
        } => {
            put_words(text, &[margin, label.as_slice(), b"("])?;
            put_list(text, b"", b", ", sorts)?;
            let sender = roles.name(*sender);
            let receiver = roles.name(*receiver);
            put_words(text, &[b") from ", sender, b" to ", receiver, b";\n"])
        }
        Stmt::Choice { subject, branches } => {
            put_words(text, &[margin, b"choice at ", roles.name(*subject)])?;
            put_blocks(alloc, text, roles, margin, b" ", b" or ", branches)
        }
        Stmt::Rec { name, body } => {
            put_words(text, &[margin, b"rec ", name.as_slice(), b" {\n"])?;
            put_block(alloc, text, roles, inner(alloc, margin)?.as_slice(), body)?;
            put_words(text, &[margin, b"}\n"])
        }
        Stmt::Continue { name } => put_words(
            text,
            &[margin, b"continue ", name.as_slice(), b";\n"],
        ),
        Stmt::Par { blocks } => {
            put_words(text, &[margin, b"par"])?;
            put_blocks(alloc, text, roles, margin, b" ", b" and ", blocks)
        }
        Stmt::Do {
            protocol,
            roles: places,
        } => {
            put_words(text, &[margin, b"do ", protocol.as_slice(), b"("])?;
            put_roles(text, roles, places)?;
            put(text, b");\n")
        }
    }
}
