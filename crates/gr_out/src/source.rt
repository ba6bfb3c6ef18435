//! Where bytes come from.

ghost use Rattle.std.specs.Prelude.{◌≡◌, ℕ, ◌<◌, ◌≤◌, List, length, take, IfOk, OnErr, Option};
ghost use Rattle.gr_out.specs.Faults.{Counts};
ghost use Rattle.gr_out.specs.Bytes.{before_rest, IsAtEnd};

use crate::fault::Failed;

/// Where bytes come from.
pub trait Source {
    /// The bytes left, where they are told.
    ghost left: { Self → Option (List ℕ) };

    /// How many faults there were.
    ghost faults: { Self → ℕ };

    /// Reads some bytes, and answers how many, to the front of `into`. None into a piece that is not empty are the
    /// end of input. After `Failed` nothing was read.
    fn read(&mut self, into: &mut [u8]) -> Result<usize, Failed>
        ensures count { IfOk result (λ n. n ≤ length into.new) }
        ensures bytes { IfOk result (λ n. left self.old ≡ before_rest (take n into.new) (left self.new)) }
        ensures end { IfOk result (λ n. n ≡ 0 → 0 < length into.new → IsAtEnd (left self.new)) }
        ensures err { OnErr result (left self.new ≡ left self.old) }
        ensures cause { Counts (faults self.old) (faults self.new) result };
}
