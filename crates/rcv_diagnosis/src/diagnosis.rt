// The one call, and its answer.

ghost use Rattle.std.specs.Prelude.{◌≡◌, ◌≤◌, ◌+◌, Some, length, IfOk};
ghost use Rattle.rcv_replay.specs.Cutting.{cut_of};
ghost use Rattle.rcv_diagnosis.specs.Diagnosing.{Says, IsOfBundle, IsDiagnosis};

use crate::session::of_session;
use crate::telling::refusal;
use rcv_input::{InputError, Refused, read_input};
use rcv_lexer::line_feeds;
use rcv_replay::cut::{Cut, cut_of};
use std::alloc::{AllocError, Global};

/// What a diagnosis comes to.
#[derive(Clone, Copy, Debug, PartialEq, Eq)]
pub enum Finding {
    /// The bundle is longer than 1,048,576 bytes.
    TooLong,
    /// The input is refused.
    Refused,
    /// The journal is legal.
    Legal,
    /// An entry may not come, or the journal doesn't close as its entries leave it.
    Wrong,
}

/// What was found, and the lines that tell it: none if the bundle is too long.
#[derive(Drop)]
pub struct Diagnosis {
    pub finding: Finding,
    pub bytes: Vec<u8>,
}

/// A bundle may be so long.
const MOST_OF_BUNDLE: usize = 1_048_576;

/// What is found in the journal that stands after the input's bundle. The first line is what a replay says, for a
/// longer input, too. After a wrong entry it tells where that stands and what its role could have done. After a wrong
/// end it tells what could come, or the right lines if nothing could.
///
/// The journal is JSON if it begins with an opening brace. Whether a channel has room isn't asked. Fails if memory runs
/// out.
pub fn diagnose(alloc: Global, input: &[u8]) -> Result<Diagnosis, AllocError>
    requires { length input.now ≤ 134217728 }
    ensures { IfOk result (λ answer. IsDiagnosis input.now answer.finding answer.bytes.items) }
{
    match cut_of(input) {
        Some(cut) => parted(alloc, input, cut),
        None => {
            let line = 1 + line_feeds(input);
            refusal(alloc, &Refused::Line { code: 50, line })
        }
    }
}

// What is found in an input that is cut here.
fn parted(alloc: Global, input: &[u8], cut: Cut) -> Result<Diagnosis, AllocError>
    requires cut { cut_of input.now ≡ Some cut }
    requires order { cut.end ≤ cut.behind }
    requires within { cut.behind ≤ length input.now }
    requires most { length input.now ≤ 134217728 }
    ensures { IfOk result (λ answer. IsDiagnosis input.now answer.finding answer.bytes.items) }
{
    if cut.end > MOST_OF_BUNDLE {
        return Ok(Diagnosis {
            finding: Finding::TooLong,
            bytes: Vec::new(alloc),
        });
    }
    let feeds = line_feeds(&input[..cut.behind]);
    of_bundle(alloc, &input[..cut.end], &input[cut.behind..], feeds)
}

// What is found in a bundle and the text after it. So many line feeds stand before the text.
fn of_bundle(alloc: Global, bundle: &[u8], text: &[u8], feeds: u32) -> Result<Diagnosis, AllocError>
    requires bundle { length bundle.now ≤ 1048576 }
    requires text { length text.now ≤ 134217728 }
    requires feeds { feeds ≤ 134217728 }
    ensures { IfOk result (λ answer. Says (IsOfBundle bundle.now text.now feeds) answer.finding answer.bytes.items) }
{
    match read_input(alloc, bundle) {
        Ok(taken) => of_session(alloc, taken, text, feeds),
        Err(InputError::Refused(refused)) => refusal(alloc, &refused),
        Err(InputError::Memory) => Err(AllocError),
    }
}
