// Pieces of markup, added to a text.

ghost use Rattle.std.specs.Prelude.{◌≡◌, [], ◌++◌, OnOk, decimal};
ghost use Rattle.rcv_picture.specs.Tree.{escape, escaped, attribute_text, spelled};
ghost use Rattle.rcv_picture.specs.Drawn.{attribute, number, class, words_in};

use crate::look::Look;
use crate::pixels::Pixels;
use rcv_text::writer::Writer;
use std::alloc::AllocError;

// Adds a byte to the text, escaped where it must be.
#[inline(always)]
fn put_byte(text: &mut Writer, byte: u8) -> Result<(), AllocError>
    ensures { OnOk result (text.new ≡ text.old ++ escape byte) }
{
    match byte {
        b'&' => text.word(b"&amp;"),
        b'<' => text.word(b"&lt;"),
        b'>' => text.word(b"&gt;"),
        b'"' => text.word(b"&quot;"),
        b'\n' | 32.. => text.byte(byte),
        _ => text.byte(b'?'),
    }
}

/// Adds the words to the text, escaped where they must be. Fails if memory runs out.
pub fn put_words(text: &mut Writer, words: &[u8]) -> Result<(), AllocError>
    ensures { OnOk result (text.new ≡ text.old ++ escaped words.now) }
{
    for byte in words {
        put_byte(text, *byte)?;
    }
    Ok(())
}

/// Adds a number to the text. Fails if memory runs out.
#[tactic(auto, using(crate::proofs::Escapes::number_stays))]
pub fn put_digits(text: &mut Writer, number: u64) -> Result<(), AllocError>
    ensures { OnOk result (text.new ≡ text.old ++ escaped (decimal number)) }
{
    text.large_number(number)
}

/// Adds an attribute to the text, as ` name="value"`. Fails if memory runs out.
#[tactic(auto, unfolding(crate::specs::Tree::attribute_text))]
pub fn put_attribute(text: &mut Writer, name: &[u8], value: &[u8]) -> Result<(), AllocError>
    ensures { OnOk result (text.new ≡ text.old ++ attribute_text (attribute name.now value.now)) }
{
    text.byte(b' ')?;
    text.word(name)?;
    text.word(b"=\"")?;
    put_words(text, value)?;
    text.byte(b'"')
}

/// Adds an attribute whose value is a number to the text. Fails if memory runs out.
#[tactic(auto, unfolding(crate::specs::Tree::attribute_text))]
pub fn put_number(text: &mut Writer, name: &[u8], value: Pixels) -> Result<(), AllocError>
    ensures { OnOk result (text.new ≡ text.old ++ attribute_text (number name.now value.0)) }
{
    text.byte(b' ')?;
    text.word(name)?;
    text.word(b"=\"")?;
    put_digits(text, value.0 as u64)?;
    text.byte(b'"')
}

/// Adds the class of a look to the text, as an attribute. Fails if memory runs out.
pub fn put_class(text: &mut Writer, look: Look) -> Result<(), AllocError>
    ensures { OnOk result (text.new ≡ text.old ++ attribute_text (class look)) }
{
    put_attribute(text, b"class", look.class())
}

/// Adds an element without attributes that holds only these words. Fails if memory runs out.
pub fn put_words_in(text: &mut Writer, name: &[u8], words: &[u8]) -> Result<(), AllocError>
    ensures { OnOk result (text.new ≡ text.old ++ spelled (words_in name.now [] words.now)) }
{
    text.byte(b'<')?;
    text.word(name)?;
    text.byte(b'>')?;
    put_words(text, words)?;
    text.word(b"</")?;
    text.word(name)?;
    text.byte(b'>')
}
