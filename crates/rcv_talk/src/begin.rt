// A session begins: its text is read, and the first line is written.

ghost use Rattle.std.specs.Prelude.{◌≡◌, ◌≤◌, length, IfOk, MatchResult};
ghost use Rattle.rcv_talk.specs.Openings.{Begins, IsNoSession, ready_line};
ghost use Rattle.rcv_talk.specs.declared.begin.BeginError.TheVariants as errors;

use rcv_guided::saving::Saving;
use rcv_guided::session::GuidedSession;
use rcv_input::{InputError, read_input, refusal_line};
use rcv_text::writer::Writer;
use std::alloc::{AllocError, Global};

/// Why no session begins.
#[derive(Drop)]
pub enum BeginError {
    /// The text is refused, and this line says so.
    Refused(Vec<u8>),
    /// No memory was left.
    Memory,
}

impl From<AllocError> for BeginError {
    ghost from_gives = { λ _ e. e ≡ errors.Memory };

    fn from(_e: AllocError) -> BeginError {
        BeginError::Memory
    }
}

/// The session of a text of at most 1,048,576 bytes, before its first line. The `every` and `host` lines of its plan
/// count, and its scripts don't.
pub fn begin(alloc: Global, text: &[u8], saving: Saving) -> Result<GuidedSession, BeginError>
    requires { length text.now ≤ 1048576 }
    ensures { MatchResult result (Begins text.now saving) (IsNoSession text.now) }
{
    match read_input(alloc, text) {
        Ok(input) => Ok(GuidedSession::new(alloc, input.accepted, input.plan, saving)?),
        Err(InputError::Refused(refused)) => {
            Err(BeginError::Refused(refusal_line(alloc, &refused)?))
        }
        Err(InputError::Memory) => Err(BeginError::Memory),
    }
}

/// The first line: `ready 1`, and the names of the roles in order of declaration. 1 is the number of this dialogue.
pub fn ready(alloc: Global, session: &GuidedSession) -> Result<Vec<u8>, AllocError>
    ensures { IfOk result (λ text. text.items ≡ ready_line session.now) }
{
    let mut text = Writer::new(alloc);
    text.word(b"ready 1")?;
    for name in session.accepted().protocol().roles.as_slice() {
        text.word(b" ")?;
        text.word(name.as_slice())?;
    }
    text.word(b"\n")?;
    Ok(text.finish())
}
