// What a grammar may have at a place: a word, a mark, a kind of token, or the end.

ghost use Rattle.std.specs.Prelude.{◌≡◌, ◌≤◌, length};
ghost use Rattle.rcv_found.specs.Things.{any_name, any_number, any_text, the_end, word, free_word, mark};

use rcv_lexer::token::Kind;
use std::marker::Model;

/// What may stand at a place of a text: any token of a kind, one word or mark, or the end.
#[derive(Drop)]
pub struct Thing {
    kind: Option<Kind>,
    bytes: &'static [u8],
    free: bool,
}

impl Model for Thing {
    ghost use Rattle.rcv_found.specs.Things.{ThingView};
    ghost use Rattle.std.specs.Prelude.{◌≤◌, length};

    ghost Value = { ThingView };

    ghost view = { λ a. record { kind = a.kind; bytes = a.bytes.now; free = a.free } };

    ghost invariant = { λ a. length a.bytes.now ≤ 8 };
}

impl Thing {
    /// Any name.
    pub fn name() -> Thing
        ensures { result ≡ any_name }
    {
        Thing {
            kind: Some(Kind::Word),
            bytes: b"",
            free: false,
        }
    }

    /// Any number.
    pub fn number() -> Thing
        ensures { result ≡ any_number }
    {
        Thing {
            kind: Some(Kind::Number),
            bytes: b"0",
            free: false,
        }
    }

    /// Any text in quotes.
    pub fn text() -> Thing
        ensures { result ≡ any_text }
    {
        Thing {
            kind: Some(Kind::Text),
            bytes: b"\"\"",
            free: false,
        }
    }

    /// The end of the text.
    pub fn end() -> Thing
        ensures { result ≡ the_end }
    {
        Thing {
            kind: None,
            bytes: b"",
            free: false,
        }
    }

    /// A reserved word, of at most 8 bytes.
    pub fn word(bytes: &'static [u8]) -> Thing
        requires { length bytes.now ≤ 8 }
        ensures { result ≡ word bytes.now }
    {
        Thing {
            kind: Some(Kind::Word),
            bytes,
            free: false,
        }
    }

    /// A word, of at most 8 bytes, that may be a name at other places.
    pub fn free_word(bytes: &'static [u8]) -> Thing
        requires { length bytes.now ≤ 8 }
        ensures { result ≡ free_word bytes.now }
    {
        Thing {
            kind: Some(Kind::Word),
            bytes,
            free: true,
        }
    }

    /// A mark, of at most 8 bytes.
    pub fn mark(bytes: &'static [u8]) -> Thing
        requires { length bytes.now ≤ 8 }
        ensures { result ≡ mark bytes.now }
    {
        Thing {
            kind: Some(Kind::Mark),
            bytes,
            free: false,
        }
    }

    /// A copy of it.
    pub fn copy(&self) -> Thing
        ensures { result ≡ self.now }
    {
        Thing {
            kind: self.kind,
            bytes: self.bytes,
            free: self.free,
        }
    }

    /// The kind of one token of it; none for the end.
    pub fn kind(&self) -> Option<Kind>
        ensures { result ≡ self.now.kind }
    {
        self.kind
    }

    /// What stands in one token of it.
    pub fn bytes(&self) -> &'static [u8]
        ensures bytes { result.now ≡ self.now.bytes }
        ensures short { length self.now.bytes ≤ 8 }
    {
        self.bytes
    }

    /// Whether it is a word that may be a name at other places.
    pub fn is_free(&self) -> bool
        ensures { result ≡ self.now.free }
    {
        self.free
    }
}
