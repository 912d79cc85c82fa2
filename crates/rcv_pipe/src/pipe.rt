// What was read of a source and isn't a line yet.

ghost use Rattle.std.specs.Prelude.{◌≡◌, ◌==◌, ◌+◌, ◌<◌, ◌≤◌, [], false, length, drop, position, IfOk, IfSome, IfNone, OnOk, OnErr};
ghost use Rattle.rcv_io.specs.Causes.{HasCause};
ghost use Rattle.rcv_pipe.specs.Feeds.{HasNoFeed, IsFeed};
ghost use Rattle.rcv_pipe.specs.Pipe.{empty, roomy, Reads};

use crate::buffer::Buffer;
use rcv_io::{Failed, Source};
use std::alloc::{AllocError, Global};
use std::marker::Model;

/// Bytes that were read of a source, up to 65,536 of them.
///
/// If a line doesn't fit in, its front is dropped: then the pipe is long.
#[derive(Drop)]
pub struct Pipe {
    buffer: Buffer,
    long: bool,
}

impl Model for Pipe {
    ghost use Rattle.rcv_pipe.specs.Buffer.{IsBuffer, held_in};
    ghost use Rattle.rcv_pipe.specs.Pipe.{PipeView};

    ghost Value = { PipeView };

    ghost view = { λ p. record { held = held_in p.buffer; long = p.long } };

    ghost invariant = { λ p. IsBuffer p.buffer };
}

impl Pipe {
    /// An empty pipe, with its whole room.
    ///
    /// The error comes if memory runs out.
    pub fn new(alloc: Global) -> Result<Pipe, AllocError>
        ensures { IfOk result (λ pipe. pipe ≡ empty) }
    {
        Ok(Pipe {
            buffer: Buffer::new(alloc)?,
            long: false,
        })
    }

    /// What it holds.
    pub fn held(&self) -> &[u8]
        ensures value { result.now ≡ self.now.held }
        ensures few { length self.now.held ≤ 65536 }
    {
        self.buffer.held()
    }

    /// Whether the front of the first line was dropped.
    pub fn is_long(&self) -> bool
        ensures { result ≡ self.now.long }
    {
        self.long
    }

    /// Where the line feed of the first line stands, if the whole line is held.
    pub fn feed(&self) -> Option<usize>
        ensures some { IfSome result (IsFeed self.now.held) }
        ensures none { IfNone result (HasNoFeed self.now.held) }
    {
        first_feed(self.held())
    }

    /// Takes out a line whose line feed stands there.
    pub fn pass(&mut self, feed: usize)
        requires { feed < length self.old.held }
        ensures { self.new ≡ record { held = drop (feed + 1) self.old.held; long = false } }
    {
        self.buffer.pass(feed + 1);
        self.long = false;
    }

    /// Takes out all that it holds.
    pub fn clear(&mut self)
        ensures { self.new ≡ record { held = []; long = self.old.long } }
    {
        self.buffer.clear();
    }

    /// Reads some bytes more, and answers how many: 0 only at the end. If what is held takes all the room, it is the
    /// front of a line, and the pipe drops it first.
    ///
    /// `Failed` comes only if the source's count of faults rose; then nothing was read.
    pub fn fill<S: Source>(&mut self, source: &mut S) -> Result<usize, Failed>
        ensures reads { IfOk result (Reads (roomy self.old).held self.new.held (S.rest source.old) (S.rest source.new)
            (S.given source.old) (S.given source.new)) }
        ensures long { OnOk result (self.new.long ≡ (roomy self.old).long) }
        ensures few { length self.new.held ≤ 65536 }
        ensures none { OnErr result (self.new ≡ roomy self.old) }
        ensures rest { OnErr result (S.rest source.new ≡ S.rest source.old) }
        ensures given { OnErr result (S.given source.new ≡ S.given source.old) }
        ensures fine { OnOk result (S.faults source.new ≡ S.faults source.old) }
        ensures cause { HasCause (S.faults source.old) (S.faults source.new) result }
    {
        self.make_room();
        self.buffer.settle();
        self.buffer.fill(source)
    }

    // Drops what takes all the room.
    fn make_room(&mut self)
        ensures { self.new ≡ roomy self.old }
    {
        if self.buffer.is_full() {
            self.buffer.clear();
            self.long = true;
        }
    }
}

// Where the first line feed of some bytes stands.
fn first_feed(bytes: &[u8]) -> Option<usize>
    ensures { result ≡ position (λ b. b == 10) bytes.now }
{
    bytes.iter().position(|byte| *byte == b'\n')
}
