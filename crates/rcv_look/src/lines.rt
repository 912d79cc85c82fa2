// The lines that say why nothing is drawn.

ghost use Rattle.std.specs.Prelude.{◌≡◌, ◌++◌, decimal, codes, IfOk};
ghost use Rattle.rcv_input.specs.declared.refused.Refused as refusals;
ghost use Rattle.rcv_input.specs.Line.{refusal_line};
ghost use Rattle.rcv_look.specs.Drawing.{no_rule_line};
ghost use Rattle.rcv_look.specs.Outcome.{no_journal_line, malformed_line, illegal_line, illegal_entry_line, illegal_closing_line};

use crate::output::Output;
use crate::status::Status;
use itoa::Buffer;
use rcv_diagnosis::written::Written;
use rcv_input::{InputError, Refused, refusal_line};
use std::alloc::{AllocError, Global};

// Words, a number and a line end.
fn numbered(alloc: Global, words: &[u8], number: u64) -> Result<Vec<u8>, AllocError>
    ensures { IfOk result (λ text. text.items ≡ words.now ++ decimal number ++ codes "\n") }
{
    let mut digits = Buffer::new();
    let mut text = Vec::from_slice(alloc, words)?;
    text.extend_from_slice(digits.format(number).as_bytes())?;
    text.extend_from_slice(b"\n")?;
    Ok(text)
}

/// Says that an input which ends at this line has no line `%% journal`.
pub fn no_journal(alloc: Global, line: u32) -> Result<Output, AllocError>
    ensures status { IfOk result (λ output. output.status ≡ Status.Refused) }
    ensures bytes { IfOk result (λ output. output.bytes.items ≡ no_journal_line line) }
{
    refused(alloc, &Refused::Line { code: 50, line })
}

/// Says the line of the input at which a journal isn't of the form.
pub fn malformed(alloc: Global, line: u32) -> Result<Output, AllocError>
    ensures status { IfOk result (λ output. output.status ≡ Status.Refused) }
    ensures bytes { IfOk result (λ output. output.bytes.items ≡ malformed_line line) }
{
    refused(alloc, &Refused::Line { code: 51, line })
}

/// Says the line of the input at which a journal of the form isn't legal.
pub fn illegal(alloc: Global, line: u64) -> Result<Output, AllocError>
    ensures status { IfOk result (λ output. output.status ≡ Status.Illegal) }
    ensures bytes { IfOk result (λ output. output.bytes.items ≡ illegal_line line) }
{
    Ok(Output {
        status: Status::Illegal,
        bytes: numbered(alloc, b"illegal line ", line)?,
    })
}

/// Says which entry of a journal, counted from 0, can't come.
pub fn illegal_entry(alloc: Global, written: Written, number: u32) -> Result<Output, AllocError>
    ensures status { IfOk result (λ output. output.status ≡ Status.Illegal) }
    ensures bytes { IfOk result (λ output. output.bytes.items ≡ illegal_entry_line written number) }
{
    match written {
        Written::Lines(feeds) => illegal(alloc, u64::from(feeds) + 1 + u64::from(number)),
        Written::Json => Ok(Output {
            status: Status::Illegal,
            bytes: numbered(alloc, b"illegal entry ", u64::from(number) + 1)?,
        }),
    }
}

/// Says which closing line of a journal with so many entries, counted from 0, isn't what they leave.
pub fn illegal_closing(
    alloc: Global,
    written: Written,
    entries: u32,
    number: u32,
) -> Result<Output, AllocError>
    ensures status { IfOk result (λ output. output.status ≡ Status.Illegal) }
    ensures bytes { IfOk result (λ output. output.bytes.items ≡ illegal_closing_line written entries number) }
{
    match written {
        Written::Lines(feeds) => {
            let before = u64::from(feeds) + 1 + u64::from(entries);
            illegal(alloc, before + u64::from(number))
        }
        Written::Json => Ok(Output {
            status: Status::Illegal,
            bytes: Vec::from_slice(alloc, b"illegal end\n")?,
        }),
    }
}

/// Says that no rule has this code.
pub fn no_rule(alloc: Global, code: u32) -> Result<Output, AllocError>
    ensures status { IfOk result (λ output. output.status ≡ Status.Refused) }
    ensures bytes { IfOk result (λ output. output.bytes.items ≡ no_rule_line code) }
{
    Ok(Output {
        status: Status::Refused,
        bytes: numbered(alloc, b"no rule ", u64::from(code))?,
    })
}

/// Says a refusal.
pub fn refused(alloc: Global, refused: &Refused) -> Result<Output, AllocError>
    ensures status { IfOk result (λ output. output.status ≡ Status.Refused) }
    ensures bytes { IfOk result (λ output. output.bytes.items ≡ refusal_line refused.now) }
{
    Ok(Output {
        status: Status::Refused,
        bytes: refusal_line(alloc, refused)?,
    })
}

/// Says why an input isn't taken. Fails if memory ran out.
pub fn refuse(alloc: Global, error: InputError) -> Result<Output, AllocError>
    ensures { IfOk result (λ output. (refusal : refusals.Refused) × (error ≡ InputError.Refused refusal)
        × (output.status ≡ Status.Refused) × (output.bytes.items ≡ refusal_line refusal)) }
{
    match error {
        InputError::Refused(refusal) => refused(alloc, &refusal),
        InputError::Memory => Err(AllocError),
    }
}
