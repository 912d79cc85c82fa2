// Lines cut at their spaces.

ghost use Rattle.std.specs.Prelude.{◌≡◌, IfOk};
ghost use Rattle.rcv_lines.specs.Cutting.{fields_of, texts};

use std::alloc::{AllocError, Global};

// What stands between the spaces of a text. Fails if memory runs out.
pub fn fields_of<'a>(alloc: Global, text: &'a [u8]) -> Result<Vec<&'a [u8]>, AllocError>
    ensures { IfOk result (λ fields. texts fields.items ≡ fields_of text.entry.now) }
{
    let mut fields = Vec::new(alloc);
    let mut start = 0;
    for (index, byte) in text.iter().enumerate() {
        if *byte == b' ' {
            fields.push(&text[start..index])?;
            start = index + 1;
        }
    }
    fields.push(&text[start..])?;
    Ok(fields)
}
