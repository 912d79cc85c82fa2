// A case as its file says it: the words, the input, and the answer that is wanted.

use crate::piece::bytes_of;
use std::alloc::{AllocError, Global};

/// What a program is called with, and how it must answer.
#[derive(Drop)]
pub struct Case {
    pub words: Vec<String>,
    pub input: Vec<u8>,
    pub status: String,
    pub output: Vec<u8>,
}

/// The case that a file says: what it shows, a line `$ PROGRAM WORDS`, the input, a line `== status N`, the output.
///
/// None if the file has another form.
pub fn read_case(alloc: Global, program: &str, text: &str) -> Result<Option<Case>, AllocError> {
    let Some((_, called)) = text.split_once("\n$ ") else {
        return Ok(None);
    };
    let Some(called) = called.strip_prefix(program) else {
        return Ok(None);
    };
    let Some((words, rest)) = called.split_once('\n') else {
        return Ok(None);
    };
    let Some((input, answer)) = rest.split_once("== status ") else {
        return Ok(None);
    };
    let Some((status, output)) = answer.split_once('\n') else {
        return Ok(None);
    };
    Ok(Some(Case {
        words: words_of(alloc, words)?,
        input: bytes_of(alloc, input)?,
        status: String::from_str(alloc, status)?,
        output: bytes_of(alloc, output)?,
    }))
}

// The words after the program's name, divided by single spaces; `""` is the empty word.
fn words_of(alloc: Global, line: &str) -> Result<Vec<String>, AllocError> {
    let mut words = Vec::new(alloc);
    for word in line.split(' ') {
        if !word.is_empty() {
            let word = if word == "\"\"" { "" } else { word };
            words.push(String::from_str(alloc, word)?)?;
        }
    }
    Ok(words)
}
