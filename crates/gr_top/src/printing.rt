//! Bytes are printed.

ghost use Rattle.std.specs.Prelude.{◌≡◌, ◌≢◌, ◌⊎◌, ◌++◌, [], ◌∷◌};
ghost use Rattle.gr_out.specs.Bytes.{with_more};
ghost use Rattle.gr_out.specs.Page.{TakesFront};
ghost use Rattle.gr_top.specs.Top.{IsCut};
ghost use Rattle.gr_top.specs.Status.{SinkStatus};

use gr_event::Text;
use gr_out::{Sink, write_all};

/// Prints the line of a refusal with its end. Gives the status 2, or 7 or 4 where that failed.
pub(crate) fn print_line<K: Sink>(mut line: Text, sink: &mut K) -> u8
    ensures printed { result ≡ 2 → K.taken sink.new ≡ with_more (K.taken sink.old) (line ++ 10 ∷ []) }
    ensures front { IsCut result → TakesFront (K.taken sink.old) (K.taken sink.new) (line ++ 10 ∷ []) }
    ensures sink { SinkStatus result (K.faults sink.old) (K.faults sink.new) }
    ensures complete { (result ≡ 2) ⊎ IsCut result }
{
    if line.push(b'\n').is_err() {
        return 7;
    }
    print(sink, line.as_slice(), 2)
}

/// Prints bytes. Gives the status, or 4 where the sink failed.
pub(crate) fn print<K: Sink>(sink: &mut K, bytes: &[u8], status: u8) -> u8
    requires { status ≢ 4 }
    ensures printed { result ≡ status → K.taken sink.new ≡ with_more (K.taken sink.old) bytes.now }
    ensures front { result ≡ 4 → TakesFront (K.taken sink.old) (K.taken sink.new) bytes.now }
    ensures sink { SinkStatus result (K.faults sink.old) (K.faults sink.new) }
    ensures complete { (result ≡ status) ⊎ (result ≡ 4) }
{
    match write_all(sink, bytes) {
        Ok(()) => status,
        Err(_) => 4,
    }
}
