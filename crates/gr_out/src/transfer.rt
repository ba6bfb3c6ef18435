//! A whole source, and a whole text to a sink.

ghost use Rattle.std.specs.Prelude.{◌≡◌, ◌≢◌, ℕ, ◌<◌, ◌≤◌, List, length, take, IfOk, OnOk, OnErr, IsErrOf, vec_len};
ghost use Rattle.gr_out.specs.Faults.{Counts, Rose};
ghost use Rattle.gr_out.specs.Bytes.{before_rest, with_more, IsAtEnd};

use crate::fault::Failed;
use crate::sink::Sink;
use crate::source::Source;
use std::alloc::Global;

/// Why a source could not be read.
#[derive(Clone, Copy, Debug, PartialEq, Eq)]
pub enum ReadFault {
    /// Want of memory.
    Memory,
    /// The source failed.
    Failed,
}

/// Reads to the end of a source, or `most` bytes. Fewer than `most` are all that was left. `Failed` comes only where
/// the source's count of faults rose in this call. After a fault a front of what was left, of at most `most` bytes, is
/// lost.
pub fn read_all<S: Source>(alloc: Global, source: &mut S, most: usize) -> Result<Vec<u8>, ReadFault>
    ensures bytes { IfOk result (λ v. S.left source.old ≡ before_rest v.items (S.left source.new)) }
    ensures most { IfOk result (λ v. vec_len v ≤ most) }
    ensures end { IfOk result (λ v. vec_len v < most → IsAtEnd (S.left source.new)) }
    ensures lost { OnErr result
        ((front : List ℕ) × (length front ≤ most) × (S.left source.old ≡ before_rest front (S.left source.new))) }
    ensures never_falls { S.faults source.old ≤ S.faults source.new }
    ensures failed { IsErrOf result ReadFault.Failed → Rose (S.faults source.old) (S.faults source.new) }
    ensures same { result ≢ Err ReadFault.Failed → S.faults source.new ≡ S.faults source.old }
{
    let mut all = Vec::new(alloc);
    let mut piece = [0u8; 4096];
    'pieces: while all.len() < most {
        let room = (most - all.len()).min(4096);
        let n = match source.read(&mut piece[..room]) {
            Ok(n) => n,
            Err(_) => return Err(ReadFault::Failed),
        };
        if n == 0 {
            break;
        }
        if all.extend_from_slice(&piece[..n]).is_err() {
            return Err(ReadFault::Memory);
        }
    }
    Ok(all)
}

/// Writes all of the bytes. After `Failed` the sink's count of faults rose, and it took a front of the bytes, not all.
#[tactic(auto, using(crate::proofs::Pieces::one_more_piece))]
pub fn write_all<K: Sink>(sink: &mut K, bytes: &[u8]) -> Result<(), Failed>
    ensures ok { OnOk result (K.taken sink.new ≡ with_more (K.taken sink.old) bytes.now) }
    ensures err { OnErr result
        ((n : ℕ) × (n < length bytes.now) × (K.taken sink.new ≡ with_more (K.taken sink.old) (take n bytes.now))) }
    ensures cause { Counts (K.faults sink.old) (K.faults sink.new) result }
{
    let mut at = 0;
    'writes: while at < bytes.len() {
        at += sink.write(&bytes[at..])?;
    }
    Ok(())
}
