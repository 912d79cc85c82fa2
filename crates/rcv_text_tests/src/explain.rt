// The examples of all codes: each is refused by its own code, and its repair is taken.

use rcv_explain::explain;
use rcv_input::{InputError, read_input, refusal_line};
use std::alloc::{AllocError, Global};
use std::fmt::Write;
use std::test::Fail;

// The lines without the four spaces in front.
fn unindented(alloc: Global, text: &[u8]) -> Result<Vec<u8>, AllocError> {
    let mut lines = Vec::new(alloc);
    let mut column = 0u8;
    for byte in text {
        if *byte == b'\n' {
            lines.push(*byte)?;
            column = 0;
        } else if column < 4 {
            column += 1;
        } else {
            lines.push(*byte)?;
        }
    }
    Ok(lines)
}

// The refusal's line for an indented input; nothing if the input is taken.
fn answer(alloc: Global, text: &[u8]) -> Result<Vec<u8>, AllocError> {
    let input = unindented(alloc, text)?;
    if input.len() > 4096 {
        return Vec::from_slice(alloc, b"too long");
    }
    match read_input(alloc, input.as_slice()) {
        Ok(_input) => Ok(Vec::new(alloc)),
        Err(InputError::Refused(refused)) => refusal_line(alloc, &refused),
        Err(InputError::Memory) => Vec::from_slice(alloc, b"no memory"),
    }
}

// The examples of 27, 50, 51 and 55 have words in front. This doesn't try them.
#[test]
fn examples_are_refused_by_their_codes(rt: HostRuntime) -> Result<(), Fail> {
    for code in 10..55u8 {
        if code == 27 || code == 50 || code == 51 {
            continue;
        }
        let Some(explanation) = explain(code) else {
            continue;
        };
        let mut head = String::new(rt.alloc());
        write!(head, "refused {code} ")?;
        assert!(rt;
            explanation.refusal.starts_with(head.as_bytes()),
            "the code of {code}"
        );
        let refused = answer(rt.alloc(), explanation.example)?;
        assert!(rt;
            refused.as_slice().starts_with(explanation.refusal),
            "the example of {code}"
        );
        let taken = answer(rt.alloc(), explanation.repaired)?;
        assert!(rt; taken.is_empty(), "the repair of {code}");
    }
    Ok(())
}
