//! A reader as a source.

ghost use Rattle.std.specs.Prelude.{◌≡◌, ◌≤◌, length, IfOk, None};
ghost use Rattle.std.specs.Io.KnownBytes.{ReadConsumes};
ghost use Rattle.gr_out.specs.Faults.{Counts};

use crate::count::raised;
use gr_out::{Failed, Source};
use std::io::Read;

/// A reader as a source, such as standard input. To `Source` it tells no bytes; each call says what the reader loses,
/// where the reader tells what is left of it.
#[derive(Drop)]
pub struct StdSource<R: Read> {
    reader: R,
    faults: u64,
}

impl<R: Read> StdSource<R> {
    ghost use Rattle.gr_sock.specs.Streams.{reader_of, source_faults};

    /// The reader, with no fault so far.
    pub fn new(reader: R) -> StdSource<R>
        ensures reader { reader_of result ≡ reader }
        ensures faults { source_faults result ≡ 0 }
    {
        StdSource { reader, faults: 0 }
    }
}

impl<R: Read> Source for StdSource<R> {
    ghost use Rattle.gr_sock.specs.Streams.{reader_of, source_faults};
    ghost use Rattle.gr_sock.specs.Counts.{RaisesOnErr};

    ghost left = { λ _. None };

    ghost faults = { λ s. source_faults s };

    /// One read of the reader: the bytes that it gives, its end as the end, and its error as a failure.
    fn read(&mut self, into: &mut [u8]) -> Result<usize, Failed>
        ensures count { IfOk result (λ n. n ≤ length into.new) }
        ensures bytes { ReadConsumes (R.remaining (reader_of self.old)) (R.remaining (reader_of self.new))
            result into.new }
        ensures raises { RaisesOnErr (source_faults self.old) (source_faults self.new) result }
        ensures cause { Counts (source_faults self.old) (source_faults self.new) result }
    {
        match self.reader.read(into) {
            Ok(n) => Ok(n),
            Err(_) => {
                self.faults = raised(self.faults);
                Err(Failed)
            }
        }
    }
}
