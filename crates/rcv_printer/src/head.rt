// What stands before the statements: the module, the declarations, and the protocol's name with its roles.

ghost use Rattle.std.specs.Prelude.{OnOk};
ghost use Rattle.rcv_tree.specs.Lists.{declarations};
ghost use Rattle.rcv_printer.specs.CanonicalText.{module_line, decl_lines, head_line};
ghost use Rattle.rcv_printer.specs.Printing.{Puts};

use crate::names::{put, put_list, put_words};
use rcv_text::writer::Writer;
use rcv_tree::name::Names;
use rcv_tree::protocol::Decls;
use std::alloc::AllocError;

// Puts the module's line after the text.
pub fn put_module(text: &mut Writer, module: &Names) -> Result<(), AllocError>
    ensures { OnOk result (Puts text.old text.new (module_line «module».now)) }
{
    put(text, b"module ")?;
    put_list(text, b"", b".", module)?;
    put(text, b";\n")
}

// Puts the lines of the declarations after the text.
pub fn put_decls(text: &mut Writer, decls: &Decls) -> Result<(), AllocError>
    ensures { OnOk result (Puts text.old text.new (decl_lines (declarations decls.now))) }
{
    for decl in decls.as_slice() {
        put_words(
            text,
            &[
                decl.word.as_slice(),
                b" <",
                decl.schema.as_slice(),
                b"> \"",
                decl.extern_name.as_slice(),
                b"\" from \"",
                decl.file.as_slice(),
                b"\" as ",
                decl.alias.as_slice(),
                b";\n",
            ],
        )?;
    }
    Ok(())
}

// Puts the line with the protocol's name and its roles after the text.
pub fn put_head(text: &mut Writer, name: &[u8], roles: &Names) -> Result<(), AllocError>
    ensures { OnOk result (Puts text.old text.new (head_line name.now roles.now)) }
{
    put_words(text, &[b"global protocol ", name, b"("])?;
    put_list(text, b"role ", b", role ", roles)?;
    put(text, b") {\n")
}
