// A page of bytes that are still to be written.

ghost use Rattle.std.specs.Prelude.{◌≡◌, ◌≤◌, ℕ, [], ◌∷◌, true, false, decimal, IfOk, OnOk, OnErr};
ghost use Rattle.std.specs.Fmt.{signed_decimal};
ghost use Rattle.rcv_page.specs.Page.{Adds, at, state};

use itoa::Buffer;
use rcv_io::{Sink, WriteFault, write_all_of};
use std::alloc::{AllocError, Global};
use std::marker::Model;

/// How many bytes a page has room for.
const PAGE: usize = 65_536;

/// What is still to be written to a sink: at most 65,536 bytes.
///
/// Only `new` takes memory, and only `finish` says whether the sink failed. After a failed call of the sink nothing
/// more is written.
#[derive(Drop)]
pub struct Page {
    bytes: Vec<u8>,
    failed: bool,
}

impl Model for Page {
    ghost use Rattle.std.specs.Prelude.{◌≤◌, vec_len, vec_capacity};
    ghost use Rattle.rcv_page.specs.Page.{PageView};

    ghost Value = { PageView };

    ghost view = { λ p. record { held = p.bytes.items; failed = p.failed } };

    ghost invariant = { λ p. (vec_len p.bytes ≤ 65536) × (65536 ≤ vec_capacity p.bytes) };
}

impl Page {
    /// An empty page, with its whole room reserved.
    ///
    /// The error comes if no memory was left for it.
    pub fn new(alloc: Global) -> Result<Page, AllocError>
        ensures { IfOk result (λ page. page ≡ record { held = []; failed = false }) }
    {
        Ok(Page {
            bytes: Vec::with_capacity(alloc, PAGE)?,
            failed: false,
        })
    }

    /// The text goes on with these bytes. If they don't fit in, what the page holds is written first.
    #[inline(always)]
    pub fn word<K: Sink>(&mut self, sink: &mut K, word: &[u8])
        ensures { Adds (at K.written K.faults sink.old self.old) (at K.written K.faults sink.new self.new) word.now }
    {
        if word.len() > PAGE - self.bytes.len() {
            self.word_behind(sink, word);
        } else {
            self.bytes.extend_from_slice(word).unwrap();
        }
    }

    /// The text goes on with this byte. If the page is full, what it holds is written first.
    #[inline(always)]
    pub fn byte<K: Sink>(&mut self, sink: &mut K, byte: u8)
        ensures { Adds (at K.written K.faults sink.old self.old) (at K.written K.faults sink.new self.new) (byte ∷ []) }
    {
        if self.bytes.len() == PAGE {
            self.byte_behind(sink, byte);
        } else {
            self.bytes.push(byte).unwrap();
        }
    }

    /// The text goes on with a number in decimal.
    #[inline(always)]
    pub fn number<K: Sink>(&mut self, sink: &mut K, number: u64)
        ensures { Adds (at K.written K.faults sink.old self.old) (at K.written K.faults sink.new self.new)
            (decimal number) }
    {
        // Many numbers have one or two digits, and need no buffer.
        if number < 10 {
            self.byte(sink, b'0' + number as u8);
        } else if number < 100 {
            self.byte(sink, b'0' + (number / 10) as u8);
            self.byte(sink, b'0' + (number % 10) as u8);
        } else {
            let mut digits = Buffer::new();
            self.word(sink, digits.format(number).as_bytes());
        }
    }

    /// The text goes on with a number in decimal, with a minus in front if it is below 0.
    #[inline(always)]
    pub fn signed_number<K: Sink>(&mut self, sink: &mut K, number: i64)
        ensures { Adds (at K.written K.faults sink.old self.old) (at K.written K.faults sink.new self.new)
            (signed_decimal number) }
    {
        if number >= 0 {
            self.number(sink, number as u64);
        } else {
            let mut digits = Buffer::new();
            self.word(sink, digits.format(number).as_bytes());
        }
    }

    /// Writes what the page holds: then the whole text was written.
    ///
    /// `WriteFault` comes exactly if some call of the sink failed since the page was made.
    pub fn finish<K: Sink>(self, sink: &mut K) -> Result<(), WriteFault>
        ensures done { OnOk result
            (Adds (at K.written K.faults sink.old self) (state (K.written sink.new) (K.faults sink.new) [] false) []) }
        ensures failed { OnErr result
            (Adds (at K.written K.faults sink.old self) (state (K.written sink.new) (K.faults sink.new) [] true) []) }
    {
        if goes_wrong(self.failed, sink, self.bytes.as_slice()) {
            Err(WriteFault)
        } else {
            Ok(())
        }
    }

    // Writes what the page holds. Then it is empty.
    #[inline(never)]
    fn flush<K: Sink>(&mut self, sink: &mut K)
        ensures adds { Adds (at K.written K.faults sink.old self.old) (at K.written K.faults sink.new self.new) [] }
        ensures empty { self.new.held ≡ [] }
    {
        self.failed = goes_wrong(self.failed, sink, self.bytes.as_slice());
        self.bytes.clear();
    }

    // The text goes on with a byte after a page that is full.
    #[inline(never)]
    fn byte_behind<K: Sink>(&mut self, sink: &mut K, byte: u8)
        ensures { Adds (at K.written K.faults sink.old self.old) (at K.written K.faults sink.new self.new) (byte ∷ []) }
    {
        self.flush(sink);
        self.bytes.push(byte).unwrap();
    }

    // The text goes on with a word that doesn't fit after what the page holds.
    #[inline(never)]
    fn word_behind<K: Sink>(&mut self, sink: &mut K, word: &[u8])
        ensures { Adds (at K.written K.faults sink.old self.old) (at K.written K.faults sink.new self.new) word.now }
    {
        self.flush(sink);
        if word.len() > PAGE {
            self.failed = goes_wrong(self.failed, sink, word);
        } else {
            self.bytes.extend_from_slice(word).unwrap();
        }
    }
}

// Writes these bytes, unless a call has failed before. Answers whether one has failed by now.
fn goes_wrong<K: Sink>(failed: bool, sink: &mut K, bytes: &[u8]) -> bool
    ensures { Adds (state (K.written sink.old) (K.faults sink.old) bytes.now failed)
        (state (K.written sink.new) (K.faults sink.new) [] result) [] }
{
    failed || write_all_of(sink, bytes).is_err()
}
