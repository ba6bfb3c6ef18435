//! A part of a run ends: what the page holds is written before its answer is given.

ghost use Rattle.std.specs.Prelude.{◌≡◌, ℕ, true, false};
ghost use Rattle.gr_node.specs.Went.{SinkMoves};
ghost use Rattle.gr_node.specs.Ending.{IsUnwritten, Wrote};

use gr_out::{Page, RunFault, Sink};

/// Whether the page is written before this is answered: not where memory is refused, or the sink or the post failed.
fn is_written(done: &Result<(), RunFault>) -> bool
    ensures yes { result ≡ true → IsUnwritten done.now → ⊥ }
    ensures no { result ≡ false → IsUnwritten done.now }
{
    match done {
        Ok(()) => true,
        Err(fault) => match fault {
            RunFault::Disk => true,
            RunFault::Damaged { .. } => true,
            RunFault::Memory => false,
            RunFault::Write => false,
            RunFault::Post => false,
        },
    }
}

/// The answer of a part that ends. Before it is given the page is written, but not after `Memory`, `Write` and `Post`;
/// where that fails, the answer is `Write`.
pub(crate) fn finish<K: Sink>(
    done: Result<(), RunFault>,
    page: &mut Page,
    sink: &mut K,
) -> Result<(), RunFault>
    ensures wrote { Wrote (K.taken sink.old) (K.taken sink.new) page.old.held page.new.held done result }
    ensures sink { (faults : ℕ) → SinkMoves faults (K.faults sink.old) done
        → SinkMoves faults (K.faults sink.new) result }
{
    if !is_written(&done) {
        return done;
    }
    match page.flush(sink) {
        Ok(()) => done,
        Err(fault) => Err(fault),
    }
}
