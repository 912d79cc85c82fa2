// What is put after a text: words, and lists of names.

ghost use Rattle.std.specs.Prelude.{◌++◌, OnOk, map};
ghost use Rattle.rcv_grammar.specs.Canonical.{names_at};
ghost use Rattle.rcv_printer.specs.CanonicalText.{words, listed, comma_list};
ghost use Rattle.rcv_printer.specs.Printing.{Puts};

use rcv_text::writer::Writer;
use rcv_tree::name::Names;
use rcv_tree::role::Roles;
use std::alloc::AllocError;

// Puts the word after the text.
pub fn put(text: &mut Writer, word: &[u8]) -> Result<(), AllocError>
    ensures { OnOk result (Puts text.old text.new (λ next. word.now ++ next)) }
{
    text.word(word)
}

// Puts the words after the text, one after another.
pub fn put_words(text: &mut Writer, all: &[&[u8]]) -> Result<(), AllocError>
    ensures { OnOk result (Puts text.old text.new (words (map (λ word. word.now) all.now))) }
{
    for word in all {
        put(text, word)?;
    }
    Ok(())
}

// Puts names after the text, with one word before the first and another one before each that follows.
pub fn put_list(
    text: &mut Writer,
    before: &[u8],
    between: &[u8],
    names: &Names,
) -> Result<(), AllocError>
    ensures { OnOk result (Puts text.old text.new (listed before.now between.now names.now)) }
{
    let mut word = before;
    for name in names.as_slice() {
        put_words(text, &[word, name.as_slice()])?;
        word = between;
    }
    Ok(())
}

// Puts the names of roles after the text, with commas between.
pub fn put_roles(text: &mut Writer, roles: &Names, places: &Roles) -> Result<(), AllocError>
    ensures { OnOk result (Puts text.old text.new (comma_list (names_at roles.now places.now))) }
{
    let mut word: &[u8] = b"";
    for role in places.as_slice() {
        put_words(text, &[word, roles.name(*role)])?;
        word = b", ";
    }
    Ok(())
}
