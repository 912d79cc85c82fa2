// Any reader of std as a source, and any writer of std as a sink. They tell nothing of content.
ghost use Rattle.std.specs.Prelude.{◌≡◌, ◌<◌, None, length, IfOk, OnOk, OnErr};

use crate::{Failed, Sink, Source};
use std::io::{Read, Write};

/// A source over a reader of std. It counts what was given and the reader's errors.
#[derive(Drop)]
pub struct StdSource<R> {
    reader: R,
    given: u64,
    faults: u64,
}

impl<R: Read> StdSource<R> {
    ghost use Rattle.rcv_io.specs.Streams.{inner_reader, source_given, source_faults};

    /// A source over this reader, with no fault yet.
    pub fn new(reader: R) -> StdSource<R>
        ensures reader { inner_reader result ≡ reader }
        ensures given { source_given result ≡ 0 }
        ensures faults { source_faults result ≡ 0 }
    {
        StdSource {
            reader,
            given: 0,
            faults: 0,
        }
    }
}

impl<R: Read> Source for StdSource<R> {
    ghost use Rattle.std.specs.Io.{ReadsAtMost};
    ghost use Rattle.rcv_io.specs.Causes.{counted, HasCause};
    ghost use Rattle.std.specs.Io.KnownBytes.{ReadConsumes};
    ghost use Rattle.rcv_io.specs.Streams.{inner_reader, source_given, source_faults};

    ghost rest = { λ _. None };

    ghost given = { source_given };

    ghost faults = { source_faults };

    fn read(&mut self, buf: &mut [u8]) -> Result<usize, Failed>
        // If the reader tells its bytes, these are they.
        ensures passes_on { ReadConsumes (R.remaining (inner_reader self.old))
            (R.remaining (inner_reader self.new)) result buf.new }

        ensures bound { ReadsAtMost result buf.new }
        ensures number { IfOk result
            (λ n. source_given self.new ≡ counted (source_given self.old) n) }
        ensures none_given { OnErr result (source_given self.new ≡ source_given self.old) }
        ensures fine { OnOk result (source_faults self.new ≡ source_faults self.old) }
        ensures failed { OnErr result
            (source_faults self.new ≡ counted (source_faults self.old) 1) }
        ensures cause { HasCause (source_faults self.old) (source_faults self.new) result }
    {
        match self.reader.read(buf) {
            Ok(count) => {
                self.given = self.given.saturating_add(count as u64);
                Ok(count)
            }
            Err(_) => {
                self.faults = self.faults.saturating_add(1);
                Err(Failed)
            }
        }
    }
}

/// A sink over a writer of std. It counts the writer's errors, and a write that takes nothing as one of them.
#[derive(Drop)]
pub struct StdSink<W> {
    writer: W,
    faults: u64,
}

impl<W: Write> StdSink<W> {
    ghost use Rattle.rcv_io.specs.Streams.{inner_writer, sink_faults};

    /// A sink over this writer, with no fault yet.
    pub fn new(writer: W) -> StdSink<W>
        ensures writer { inner_writer result ≡ writer }
        ensures faults { sink_faults result ≡ 0 }
    {
        StdSink { writer, faults: 0 }
    }
}

impl<W: Write> Sink for StdSink<W> {
    ghost use Rattle.std.specs.Io.{WritesAtMost};
    ghost use Rattle.rcv_io.specs.Causes.{counted, HasCause};
    ghost use Rattle.std.specs.Io.KnownBytes.{WriteAppends};
    ghost use Rattle.rcv_io.specs.Streams.{inner_writer, sink_faults};

    ghost written = { λ _. None };

    ghost faults = { sink_faults };

    fn write(&mut self, piece: &[u8]) -> Result<usize, Failed>
        // If the writer tells what it holds, the piece was appended to that.
        ensures passes_on { WriteAppends (W.contents (inner_writer self.old))
            (W.contents (inner_writer self.new)) result piece.now }

        ensures bound { WritesAtMost result piece.now }
        ensures some { IfOk result (λ n. 0 < length piece.now → 0 < n) }
        ensures fine { OnOk result (sink_faults self.new ≡ sink_faults self.old) }
        ensures failed { OnErr result (sink_faults self.new ≡ counted (sink_faults self.old) 1) }
        ensures cause { HasCause (sink_faults self.old) (sink_faults self.new) result }
    {
        match self.writer.write(piece) {
            Ok(count) if count > 0 || piece.is_empty() => Ok(count),
            _ => {
                self.faults = self.faults.saturating_add(1);
                Err(Failed)
            }
        }
    }
}
