// The command that words say.

ghost use Rattle.std.specs.Prelude.{◌≡◌, ◌≢◌, map, IfOk, IfErr};
ghost use Rattle.clap.specs.Words.{kind_of};
ghost use Rattle.rcv_look.specs.Commands.{IsCommand, IsNoCommand, IsWithin, line_of, texts_of, view_of};
ghost use Rattle.rcv_words.specs.declared.error.WordsError.TheVariants.{Usage};

use crate::command::Command;
use crate::given::Given;
use crate::program::program;
use clap::Error;
use clap::error::ErrorKind;
use rcv_words::error::WordsError;
use std::alloc::{AllocError, Global};

// The program's name, and then the words.
fn line_of<'a>(alloc: Global, words: &'a [String]) -> Result<Vec<&'a str>, AllocError>
    ensures { IfOk result (λ line. map (λ word. word.now) line.items ≡ line_of (texts_of words.now)) }
{
    let mut line = Vec::new(alloc);
    line.push("rcv-show")?;
    for word in words {
        line.push(word.as_str())?;
    }
    Ok(line)
}

// Why the crate gave no matches.
fn reason_of(error: &Error) -> WordsError
    ensures { result ≡ Usage → kind_of error.now ≢ ErrorKind.OutOfMemory }
{
    match error.kind() {
        ErrorKind::OutOfMemory => WordsError::Memory,
        _ => WordsError::Usage,
    }
}

/// The command that the words are. `Usage` says that they are none, `Memory` that no memory was left.
///
/// The code of an `Explain` is at most 255, the number of a `Session` is from 1 to 64.
pub fn read_words(alloc: Global, words: &[String]) -> Result<Command, WordsError>
    ensures command { IfOk result (λ command. IsCommand (texts_of words.now) (view_of command)) }
    ensures within { IfOk result (λ command. IsWithin (view_of command)) }
    ensures usage { IfErr result (λ error. error ≡ Usage → IsNoCommand (texts_of words.now)) }
{
    let line = line_of(alloc, words)?;
    match program(alloc)?.try_get_matches_from(line.as_slice()) {
        Ok(matches) => Given::of(&matches).command(alloc),
        Err(error) => Err(reason_of(&error)),
    }
}
