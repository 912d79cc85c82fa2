// What is written of a wrong token: what was found, where, and what may stand there.

ghost use Rattle.std.specs.Prelude.{◌≡◌, ◌≤◌, ◌++◌, flat_map, OnOk};
ghost use Rattle.rcv_lexer.specs.Parts.{LiesIn};
ghost use Rattle.rcv_found.specs.Things.{said_of, quoted};
ghost use Rattle.rcv_listing.specs.Found.{found_words, letter_words, what_words, found_text, listed_text, may_text, next_text, wrong_text, cut_words, shown_length, rest_words};

use rcv_found::spot::Spot;
use rcv_found::thing::Thing;
use rcv_found::wrong::Wrong;
use rcv_lexer::token::Kind;
use rcv_text::writer::Writer;
use std::alloc::AllocError;

// A word in quotes.
fn write_quoted(text: &mut Writer, word: &[u8]) -> Result<(), AllocError>
    ensures { OnOk result (text.new ≡ text.old ++ quoted word.now) }
{
    text.word(b"\"")?;
    text.word(word)?;
    text.word(b"\"")
}

/// Writes what may stand somewhere. Fails if memory runs out.
pub fn write_thing(text: &mut Writer, thing: &Thing) -> Result<(), AllocError>
    ensures { OnOk result (text.new ≡ text.old ++ said_of thing.now) }
{
    match thing.kind() {
        None => text.word(b"the end of the text"),
        Some(Kind::Number) => text.word(b"a number"),
        Some(Kind::Text) => text.word(b"a text in quotes"),
        Some(Kind::Word) if thing.bytes().is_empty() => text.word(b"a name"),
        Some(_) => write_quoted(text, thing.bytes()),
    }
}

// How many bytes are shown of a word with so many.
fn shown_len(len: usize) -> usize
    ensures within { result ≤ len }
    ensures shown { result ≡ shown_length len }
{
    if len <= 64 { len } else { 64 }
}

// Whether more stands there than is shown.
fn write_rest(text: &mut Writer, len: usize) -> Result<(), AllocError>
    ensures { OnOk result (text.new ≡ text.old ++ rest_words len) }
{
    if len <= 64 {
        Ok(())
    } else {
        text.word(b" and more")
    }
}

// The bytes of a token, cut off if there are too many.
fn write_cut(text: &mut Writer, word: &[u8]) -> Result<(), AllocError>
    ensures { OnOk result (text.new ≡ text.old ++ cut_words word.now) }
{
    let len = shown_len(word.len());
    write_quoted(text, &word[..len])?;
    write_rest(text, word.len())
}

// What was found: a token's bytes, unless it is a text in quotes; or the end.
fn write_words(text: &mut Writer, word: &[u8]) -> Result<(), AllocError>
    ensures { OnOk result (text.new ≡ text.old ++ found_words word.now) }
{
    if word.len() == 0 {
        text.word(b"the end of the text")
    } else if word[0] == b'"' {
        text.word(b"a text in quotes")
    } else {
        write_cut(text, word)
    }
}

// What a bad letter begins.
fn write_letter(text: &mut Writer, word: &[u8]) -> Result<(), AllocError>
    ensures { OnOk result (text.new ≡ text.old ++ letter_words word.now) }
{
    match word.first() {
        Some(b'"') => text.word(b"a text in quotes that doesn't end on its line, or is too long"),
        Some(b'/') => text.word(b"\"/\", which begins no comment that ends"),
        _ => write_cut(text, word),
    }
}

// What was found, by the code of the refusal.
fn write_what(text: &mut Writer, code: u8, word: &[u8]) -> Result<(), AllocError>
    ensures { OnOk result (text.new ≡ text.old ++ what_words code word.now) }
{
    if code == 10 {
        write_letter(text, word)
    } else {
        write_words(text, word)
    }
}

// What was found there.
fn write_found(text: &mut Writer, input: &[u8], code: u8, spot: &Spot) -> Result<(), AllocError>
    requires { LiesIn input.now spot.now.span }
    ensures { OnOk result (text.new ≡ text.old ++ found_text input.now code spot.now) }
{
    text.word(b"found ")?;
    write_what(text, code, &input[spot.span.start..spot.span.end])?;
    text.word(b" at line ")?;
    text.large_number(spot.line as u64)?;
    text.word(b", column ")?;
    text.large_number(spot.column as u64)?;
    text.word(b"\n")
}

// Each of these things, with a comma before it.
fn write_more(text: &mut Writer, things: &[Thing]) -> Result<(), AllocError>
    ensures { OnOk result (text.new ≡ text.old ++ flat_map next_text things.now) }
{
    for thing in things {
        text.word(b", ")?;
        write_thing(text, thing)?;
    }
    Ok(())
}

// This may stand there, and each of these.
fn write_listed(text: &mut Writer, first: &Thing, more: &[Thing]) -> Result<(), AllocError>
    ensures { OnOk result (text.new ≡ text.old ++ listed_text first.now more.now) }
{
    text.word(b"may stand here: ")?;
    write_thing(text, first)?;
    write_more(text, more)?;
    text.word(b"\n")?;
    Ok(())
}

// What may stand there, if something may.
fn write_may(text: &mut Writer, things: &[Thing]) -> Result<(), AllocError>
    ensures { OnOk result (text.new ≡ text.old ++ may_text things.now) }
{
    let Some((first, more)) = things.split_first() else {
        return Ok(());
    };
    write_listed(text, first, more)
}

/// Writes what was found at a bad letter or a wrong token, and what may stand there. Fails if memory runs out.
pub fn write_wrong(text: &mut Writer, input: &[u8], wrong: &Wrong) -> Result<(), AllocError>
    requires { LiesIn input.now wrong.now.spot.span }
    ensures { OnOk result (text.new ≡ text.old ++ wrong_text input.now wrong.now) }
{
    write_found(text, input, wrong.code, &wrong.spot)?;
    write_may(text, wrong.may.as_slice())
}
