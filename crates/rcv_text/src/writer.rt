// A text that grows word by word.

ghost use Rattle.std.specs.Prelude.{◌≡◌, [], ◌∷◌, ◌++◌, IfOk, OnErr, OnOk, decimal};
ghost use Rattle.std.specs.Fmt.{signed_decimal};

use itoa::Buffer;
use std::alloc::{AllocError, Global};
use std::marker::Model;

/// The text so far, as contracts see it.
#[derive(Drop)]
pub struct Writer {
    text: Vec<u8>,
}

impl Model for Writer {
    ghost use Rattle.std.specs.Prelude.{List, ℕ};

    ghost Value = { List ℕ };

    ghost view = { λ a. a.text.items };
}

impl Writer {
    /// The empty text. It takes no memory.
    pub fn new(alloc: Global) -> Writer
        ensures { result ≡ [] }
    {
        Writer {
            text: Vec::new(alloc),
        }
    }

    /// The empty text, with room for so many bytes at once; a longer text takes more as it grows. Fails if memory runs
    /// out.
    pub fn with_room(alloc: Global, room: usize) -> Result<Writer, AllocError>
        ensures { IfOk result (λ text. text ≡ []) }
    {
        Ok(Writer {
            text: Vec::with_capacity(alloc, room)?,
        })
    }

    /// The text goes on with these bytes. Fails if memory runs out; then the text is as before.
    #[inline(always)]
    pub fn word(&mut self, word: &[u8]) -> Result<(), AllocError>
        ensures ok { OnOk result (self.new ≡ self.old ++ word.now) }
        ensures err { OnErr result (self.new ≡ self.old) }
    {
        self.text.extend_from_slice(word)
    }

    /// The text goes on with this byte. Fails if memory runs out; then the text is as before.
    #[inline(always)]
    pub fn byte(&mut self, byte: u8) -> Result<(), AllocError>
        ensures ok { OnOk result (self.new ≡ self.old ++ byte ∷ []) }
        ensures err { OnErr result (self.new ≡ self.old) }
    {
        self.text.push(byte)?;
        Ok(())
    }

    /// The text goes on with a number in decimal. Fails if memory runs out; then the text is as before.
    #[inline(always)]
    pub fn number(&mut self, number: u16) -> Result<(), AllocError>
        ensures ok { OnOk result (self.new ≡ self.old ++ decimal number) }
        ensures err { OnErr result (self.new ≡ self.old) }
    {
        let mut digits = Buffer::new();
        self.word(digits.format(number).as_bytes())
    }

    /// The text goes on with a large number in decimal. Fails if memory runs out; then the text is as before.
    #[inline(always)]
    pub fn large_number(&mut self, number: u64) -> Result<(), AllocError>
        ensures ok { OnOk result (self.new ≡ self.old ++ decimal number) }
        ensures err { OnErr result (self.new ≡ self.old) }
    {
        // One or two digits, as many numbers have, need no buffer.
        if number < 10 {
            return self.byte(b'0' + number as u8);
        }
        if number < 100 {
            return self.word(&[b'0' + (number / 10) as u8, b'0' + (number % 10) as u8]);
        }
        let mut digits = Buffer::new();
        self.word(digits.format(number).as_bytes())
    }

    /// The text goes on with a number in decimal, with a minus in front if it is below 0. Fails if memory runs out;
    /// then the text is as before.
    #[inline(always)]
    pub fn signed_number(&mut self, number: i64) -> Result<(), AllocError>
        ensures ok { OnOk result (self.new ≡ self.old ++ signed_decimal number) }
        ensures err { OnErr result (self.new ≡ self.old) }
    {
        if number >= 0 {
            return self.large_number(number as u64);
        }
        let mut digits = Buffer::new();
        self.word(digits.format(number).as_bytes())
    }

    /// The whole text. It takes no memory.
    pub fn finish(self) -> Vec<u8>
        ensures { result.items ≡ self }
    {
        self.text
    }
}
