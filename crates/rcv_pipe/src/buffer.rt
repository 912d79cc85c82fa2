// Bytes that were read, in a room of 64 KiB.

ghost use Rattle.std.specs.Prelude.{◌≡◌, ◌≤◌, [], true, false, nat_lt, if◌then◌else◌, length, drop, IfOk, OnOk, OnErr};
ghost use Rattle.rcv_io.specs.Causes.{HasCause};
ghost use Rattle.rcv_pipe.specs.Buffer.{IsBuffer, held_in, most_held};
ghost use Rattle.rcv_pipe.specs.Pipe.{Reads};

use rcv_io::{Failed, Source};
use std::alloc::{AllocError, Global};

// How many bytes there is room for, and how many a call of the source is asked for.
const ROOM: usize = 65_536;

const PIECE: usize = 4096;

// What is held stands from `start` on.
#[derive(Drop)]
pub struct Buffer {
    pub bytes: Vec<u8>,
    pub start: usize,
}

impl Buffer {
    /// An empty one, with its whole room.
    ///
    /// The error comes if memory runs out.
    pub fn new(alloc: Global) -> Result<Buffer, AllocError>
        ensures is { IfOk result IsBuffer }
        ensures held { IfOk result (λ buffer. held_in buffer ≡ []) }
    {
        Ok(Buffer {
            bytes: Vec::with_capacity(alloc, ROOM)?,
            start: 0,
        })
    }

    /// What is held.
    pub fn held(&self) -> &[u8]
        requires { IsBuffer self.now }
        ensures { result.now ≡ held_in self.now }
    {
        &self.bytes[self.start..]
    }

    /// Takes out so many bytes.
    pub fn pass(&mut self, count: usize)
        requires is { IsBuffer self.old }
        requires inside { count ≤ length (held_in self.old) }
        ensures is { IsBuffer self.new }
        ensures held { held_in self.new ≡ drop count (held_in self.old) }
    {
        self.start += count;
    }

    /// Takes out all of them.
    pub fn clear(&mut self)
        requires { IsBuffer self.old }
        ensures is { IsBuffer self.new }
        ensures held { held_in self.new ≡ [] }
    {
        self.bytes.clear();
        self.start = 0;
    }

    /// Whether what is held leaves too little room.
    pub fn is_full(&self) -> bool
        requires { IsBuffer self.now }
        ensures { result ≡ nat_lt most_held (length (held_in self.now)) }
    {
        self.bytes.len() - self.start > ROOM - PIECE
    }

    /// Moves what is held to the front.
    pub fn settle(&mut self)
        requires { IsBuffer self.old }
        ensures is { IsBuffer self.new }
        ensures front { self.new.start ≡ 0 }
        ensures held { held_in self.new ≡ held_in self.old }
    {
        if self.start == 0 {
            return;
        }
        let count = self.bytes.len() - self.start;
        let start = self.start;
        self.bytes.as_mut_slice().copy_within(start.., 0);
        self.bytes.truncate(count);
        self.start = 0;
    }

    /// Reads some bytes of a source, adds them to the end of those that are held, and answers how many: 0 only at the
    /// end of the source.
    ///
    /// `Failed` comes only if the source's count of faults rose; then nothing was read.
    pub fn fill<S: Source>(&mut self, source: &mut S) -> Result<usize, Failed>
        requires is { IsBuffer self.old }
        requires front { self.old.start ≡ 0 }
        requires few { length (held_in self.old) ≤ most_held }
        ensures is { IsBuffer self.new }
        ensures reads { IfOk result (Reads (held_in self.old) (held_in self.new) (S.rest source.old) (S.rest source.new)
            (S.given source.old) (S.given source.new)) }
        ensures none { OnErr result (held_in self.new ≡ held_in self.old) }
        ensures rest { OnErr result (S.rest source.new ≡ S.rest source.old) }
        ensures given { OnErr result (S.given source.new ≡ S.given source.old) }
        ensures fine { OnOk result (S.faults source.new ≡ S.faults source.old) }
        ensures cause { HasCause (S.faults source.old) (S.faults source.new) result }
    {
        let mut piece = [0; PIECE];
        match source.read(&mut piece) {
            Ok(count) => {
                self.bytes.extend_from_slice(&piece[..count]).unwrap();
                Ok(count)
            }
            Err(failed) => Err(failed),
        }
    }
}
