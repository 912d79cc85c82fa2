// Prints a whole protocol.

ghost use Rattle.std.specs.Prelude.{◌≡◌, IfOk};
ghost use Rattle.rcv_printer.specs.CanonicalText.{canonical};

use crate::head::{put_decls, put_head, put_module};
use crate::names::put;
use crate::statements::put_block;
use rcv_text::writer::Writer;
use rcv_tree::protocol::Protocol;
use std::alloc::{AllocError, Global};

/// The canonical text of a protocol: the line of the module, a line for each declaration, an empty line, the line with
/// the protocol's name and its roles, and the body with one statement on a line, two spaces further in for each block
/// around it. Each line ends with a line feed. A role that isn't declared has the empty name. It fails if memory
/// runs out.
pub fn print_protocol(alloc: Global, protocol: &Protocol) -> Result<Vec<u8>, AllocError>
    ensures { IfOk result (λ text. text.items ≡ canonical protocol.now) }
{
    let mut text = Writer::new(alloc);
    put_module(&mut text, &protocol.module)?;
    put_decls(&mut text, &protocol.decls)?;
    put(&mut text, b"\n")?;
    put_head(&mut text, protocol.name.as_slice(), &protocol.roles)?;
    put_block(alloc, &mut text, &protocol.roles, b"  ", &protocol.body)?;
    put(&mut text, b"}\n")?;
    Ok(text.finish())
}
