//! A writer as a sink.

ghost use Rattle.std.specs.Prelude.{◌≡◌, ◌<◌, ◌≤◌, length, IfOk, None};
ghost use Rattle.std.specs.Io.KnownBytes.{WriteAppends};
ghost use Rattle.gr_out.specs.Faults.{Counts};

use crate::count::raised;
use gr_out::{Failed, Sink};
use std::io::Write;

/// A writer as a sink, such as standard output. To `Sink` it tells no bytes; each call says what the writer takes,
/// where the writer tells what it holds. Nothing is kept back here: what was taken is with the writer.
#[derive(Drop)]
pub struct StdSink<W: Write> {
    writer: W,
    faults: u64,
}

impl<W: Write> StdSink<W> {
    ghost use Rattle.gr_sock.specs.Streams.{writer_of, sink_faults};

    /// The writer, with no fault so far.
    pub fn new(writer: W) -> StdSink<W>
        ensures writer { writer_of result ≡ writer }
        ensures faults { sink_faults result ≡ 0 }
    {
        StdSink { writer, faults: 0 }
    }
}

impl<W: Write> Sink for StdSink<W> {
    ghost use Rattle.gr_sock.specs.Streams.{writer_of, sink_faults};
    ghost use Rattle.gr_sock.specs.Counts.{RaisesOnErr};

    ghost taken = { λ _. None };

    ghost faults = { λ s. sink_faults s };

    /// One write to the writer: as many bytes as it took. Its error is a failure, and so is that it took none of some.
    fn write(&mut self, bytes: &[u8]) -> Result<usize, Failed>
        ensures count { IfOk result (λ n. n ≤ length bytes.now) }
        ensures some { IfOk result (λ n. 0 < length bytes.now → 0 < n) }
        ensures bytes { WriteAppends (W.contents (writer_of self.old)) (W.contents (writer_of self.new))
            result bytes.now }
        ensures raises { RaisesOnErr (sink_faults self.old) (sink_faults self.new) result }
        ensures cause { Counts (sink_faults self.old) (sink_faults self.new) result }
    {
        match self.writer.write(bytes) {
            Ok(n) if n > 0 || bytes.is_empty() => Ok(n),
            _ => {
                self.faults = raised(self.faults);
                Err(Failed)
            }
        }
    }
}
