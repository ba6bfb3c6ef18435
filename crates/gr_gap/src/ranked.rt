//! Values that are looked for by a number.

ghost use Rattle.std.specs.Prelude.{◌≡◌, ℕ, ◌<◌, ◌≤◌, length};
ghost use Rattle.std.specs.List.Sorted.{IsNonDecreasingBy, IsPartitionPoint};

use std::collections::VecDeque;

/// A value that has a rank, by which it is looked for in a list where ranks do not fall.
pub trait Ranked {
    /// Its rank.
    ghost rank_of: { Self → ℕ };

    /// Its rank.
    fn rank(&self) -> u64
        ensures { result ≡ rank_of self.now };
}

/// How many values of a block have a rank below another.
pub(crate) fn count_in<T: Ranked>(block: &VecDeque<T>, rank: u64) -> usize
    requires { IsNonDecreasingBy T.rank_of block.now.items }
    ensures within { result ≤ length block.now.items }
    ensures point { IsPartitionPoint (λ v. T.rank_of v < rank) (λ v. rank ≤ T.rank_of v) block.now.items result }
{
    block.partition_point(|value| value.rank() < rank)
}
