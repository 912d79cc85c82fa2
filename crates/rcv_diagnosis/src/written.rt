// How a journal is written.

ghost use Rattle.std.specs.Prelude.{◌≡◌};
ghost use Rattle.rcv_diagnosis.specs.Diagnosing.{is_json};

/// Whether a journal is text or JSON.
#[derive(Clone, Copy, Debug, PartialEq, Eq)]
pub enum Written {
    /// Each entry is a line, after so many line feeds of the input.
    Lines(u32),
    /// Each entry is one of a list.
    Json,
}

/// Whether the text of a journal is JSON: it begins with an opening brace.
pub fn is_json(text: &[u8]) -> bool
    ensures { result ≡ is_json text.now }
{
    match text {
        [first, ..] => *first == b'{',
        [] => false,
    }
}
