// The bytes that the text of an input or an output stands for, with its lines that begin with `== `.

use std::alloc::{AllocError, Global};

// Lines that stand so many times one after the other, with this after each.
#[derive(Drop)]
struct Piece {
    text: String,
    times: u64,
    end: &'static str,
}

/// The bytes of a text. A line `== ..` of it is no text, but says:
///
/// - `== N times`: the lines after it stand so often, and a number in braces grows, `{1}` by 1 and `{1+8}` by 8;
/// - `== CR`: the lines after it end with CR LF;
/// - `== once`: the lines after it are ordinary ones again;
/// - `== cut`: the last line so far has no line end;
/// - `== N spaces`: so many spaces.
pub fn bytes_of(alloc: Global, text: &str) -> Result<Vec<u8>, AllocError> {
    let mut bytes = Vec::new(alloc);
    let mut piece = once(alloc);
    for line in text.lines() {
        match line.strip_prefix("== ") {
            None => add_line(&mut piece, line)?,
            Some(word) => {
                add_piece(alloc, &mut bytes, &piece)?;
                piece = begin(alloc, &mut bytes, word)?;
            }
        }
    }
    add_piece(alloc, &mut bytes, &piece)?;
    Ok(bytes)
}

// A piece of ordinary lines, without one so far.
fn once(alloc: Global) -> Piece {
    Piece {
        text: String::new(alloc),
        times: 1,
        end: "\n",
    }
}

// The piece that begins after this word, once what the word does to the bytes is done.
fn begin(alloc: Global, bytes: &mut Vec<u8>, word: &str) -> Result<Piece, AllocError> {
    let mut piece = once(alloc);
    if word == "CR" {
        piece.end = "\r\n";
    } else if word == "cut" {
        let _line_end = bytes.pop();
    } else if let Some(count) = number_before(word, " times") {
        piece.times = count;
    } else if let Some(count) = number_before(word, " spaces") {
        for _ in 0..count {
            bytes.push(b' ')?;
        }
    }
    Ok(piece)
}

// The number in front of this end of the word.
fn number_before(word: &str, end: &str) -> Option<u64> {
    word.strip_suffix(end)?.parse().ok()
}

// Adds a line to the piece.
fn add_line(piece: &mut Piece, line: &str) -> Result<(), AllocError> {
    piece.text.push_str(line)?;
    piece.text.push_str(piece.end)
}

// Adds the piece, as often as it stands.
fn add_piece(alloc: Global, bytes: &mut Vec<u8>, piece: &Piece) -> Result<(), AllocError> {
    if piece.times == 1 {
        return bytes.extend_from_slice(piece.text.as_bytes());
    }
    for turn in 0..piece.times {
        add_turn(alloc, bytes, piece.text.as_str(), turn)?;
    }
    Ok(())
}

// Adds the text of one turn, in which each number in braces has grown so often.
fn add_turn(alloc: Global, bytes: &mut Vec<u8>, text: &str, turn: u64) -> Result<(), AllocError> {
    let mut pieces = text.split('{');
    if let Some(front) = pieces.next() {
        bytes.extend_from_slice(front.as_bytes())?;
    }
    for piece in pieces {
        match growing(piece) {
            Some((first, step, rest)) => {
                let number = first.saturating_add(step.saturating_mul(turn));
                let digits = format!(in alloc; "{number}")?;
                bytes.extend_from_slice(digits.as_bytes())?;
                bytes.extend_from_slice(rest.as_bytes())?;
            }
            None => {
                bytes.push(b'{')?;
                bytes.extend_from_slice(piece.as_bytes())?;
            }
        }
    }
    Ok(())
}

// The first number, the step, and what stands after the brace, if a number and a closing brace begin this text.
fn growing(text: &str) -> Option<(u64, u64, &str)> {
    let (number, rest) = text.split_once('}')?;
    match number.split_once('+') {
        Some((first, step)) => Some((first.parse().ok()?, step.parse().ok()?, rest)),
        None => Some((number.parse().ok()?, 1, rest)),
    }
}
