// The text in front of the told lines.

ghost use Rattle.std.specs.Prelude.{◌≡◌, ◌+◌, ◌<◌, ◌≤◌, ◌↔◌, ◌++◌, length, IsTrue, OnOk, IsErrOf};
ghost use Rattle.rcv_io.specs.Causes.{Rose};
ghost use Rattle.rcv_pipe.specs.declared.opening.OpeningError.TheVariants as errors;
ghost use Rattle.rcv_pipe.specs.Pipe.{empty};
ghost use Rattle.rcv_pipe.specs.Opening.{IsEventsLine, Takes};

use crate::pipe::Pipe;
use rcv_io::{Failed, Source};
use std::alloc::{AllocError, Global};

// How many bytes the text may have.
const MOST: usize = 1_048_576;

// How many bytes the line that ends it has at most, with its end.
const LONGEST: usize = 11;

/// Why there is no text.
#[derive(Clone, Copy, Debug, PartialEq, Eq)]
pub enum OpeningError {
    /// The source ends without a line `%% events`.
    NoEvents,
    /// The source failed.
    ReadFault,
    /// The text has too many bytes.
    TooLong,
    /// No memory was left.
    Memory,
}

impl From<Failed> for OpeningError {
    ghost from_gives = { λ _ e. e ≡ errors.ReadFault };

    fn from(_e: Failed) -> OpeningError {
        OpeningError::ReadFault
    }
}

impl From<AllocError> for OpeningError {
    ghost from_gives = { λ _ e. e ≡ errors.Memory };

    fn from(_e: AllocError) -> OpeningError {
        OpeningError::Memory
    }
}

/// The text before the first line `%% events`, which may end with a CR. The pipe is empty before the call. After it the
/// pipe holds what was read after that line.
///
/// `NoEvents` comes if the source ends before that line. `TooLong` comes exactly if the text has more than 1,048,576
/// bytes, whatever stands after what was taken. `ReadFault` comes only if the source's count of faults rose, and always
/// if it is greater than before. What was taken before an error is gone from the source.
pub fn read_text<S: Source>(
    alloc: Global,
    pipe: &mut Pipe,
    source: &mut S,
) -> Result<Vec<u8>, OpeningError>
    requires { pipe.old ≡ empty }
    ensures takes { Takes (S.rest source.old) (S.rest source.new) (S.given source.old) (S.given source.new) pipe.new result }
    ensures fault { IsErrOf result OpeningError.ReadFault → Rose (S.faults source.old) (S.faults source.new) }
    ensures fault_always { S.faults source.old < S.faults source.new → IsErrOf result OpeningError.ReadFault }
    ensures later { S.faults source.old ≤ S.faults source.new }
{
    let mut text = Vec::new(alloc);
    // Where the last line of the text begins.
    let mut line = 0;
    loop {
        match pipe.feed() {
            Some(feed) => {
                add(&mut text, &pipe.held()[..feed + 1])?;
                pipe.pass(feed);
                if is_events(&text.as_slice()[line..]) {
                    text.truncate(line);
                    return Ok(text);
                }
                line = text.len();
                if line > MOST {
                    return Err(OpeningError::TooLong);
                }
            }
            None => {
                add(&mut text, pipe.held())?;
                pipe.clear();
                if pipe.fill(source)? == 0 {
                    return Err(OpeningError::NoEvents);
                }
            }
        }
    }
}

// The text goes on with these bytes, which may be those of the line that ends it.
fn add(text: &mut Vec<u8>, bytes: &[u8]) -> Result<(), OpeningError>
    requires { length text.old.items ≤ 1048587 }
    ensures added { OnOk result (text.new.items ≡ text.old.items ++ bytes.now) }
    ensures fits { OnOk result (length text.old.items + length bytes.now ≤ 1048587) }
    ensures long { IsErrOf result OpeningError.TooLong → 1048587 < length text.old.items + length bytes.now }
    ensures calm { IsErrOf result OpeningError.ReadFault → ⊥ }
    ensures other { IsErrOf result OpeningError.NoEvents → ⊥ }
{
    if bytes.len() > MOST + LONGEST - text.len() {
        return Err(OpeningError::TooLong);
    }
    text.extend_from_slice(bytes)?;
    Ok(())
}

// Whether a line with its line feed is the one that ends the text.
fn is_events(line: &[u8]) -> bool
    ensures { IsTrue result ↔ IsEventsLine line.now }
{
    line == b"%% events\n".as_slice() || line == b"%% events\r\n".as_slice()
}
