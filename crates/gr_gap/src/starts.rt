//! Where each block begins: how many values stand before it.

ghost use Rattle.std.specs.Prelude.{◌≡◌, ℕ, ◌+◌, ◌-◌, ◌^◌, ◌<◌, ◌≤◌, length, insert, slice_index};
ghost use Rattle.std.specs.Prelude.{vec_capacity};
ghost use Rattle.gr_gap.specs.Blocks.{changed_from, IsBlockOf, IsBlockFor};

use crate::blocks::BLOCK;

/// The block of the value at `i`. It is looked for in the last block, in the one `near`, where it would be if all were
/// full, and then by halves.
pub(crate) fn block_of(starts: &[usize], near: usize, i: usize) -> usize
    requires some { 0 < length starts.now }
    requires first { slice_index starts.now 0 ≤ i }
    ensures { IsBlockOf starts.now result i }
{
    let last = starts.len() - 1;
    if starts[last] <= i {
        return last;
    }
    if near < last && starts[near] <= i && i < starts[near + 1] {
        return near;
    }
    let full = i / BLOCK;
    if full < last && starts[full] <= i && i < starts[full + 1] {
        return full;
    }
    by_halves(starts, i, last)
}

// The same, where the value stands before the block `upto`.
fn by_halves(starts: &[usize], i: usize, upto: usize) -> usize
    requires within { upto < length starts.now }
    requires some { 0 < upto }
    requires first { slice_index starts.now 0 ≤ i }
    requires ends { i < slice_index starts.now upto }
    ensures { IsBlockOf starts.now result i }
{
    let mut low = 0;
    let mut high = upto;
    while 1 < high - low {
        let middle = low + (high - low) / 2;
        if starts[middle] <= i {
            low = middle;
        } else {
            high = middle;
        }
    }
    low
}

/// The block for a value that is to stand at `i`: that of the value before it, or the first.
pub(crate) fn block_for(starts: &[usize], near: usize, i: usize) -> usize
    requires some { 0 < length starts.now }
    requires first { slice_index starts.now 0 ≡ 0 }
    ensures { IsBlockFor starts.now result i }
{
    if i == 0 {
        return 0;
    }
    block_of(starts, near, i - 1)
}

/// Adds to each start from a block on.
pub(crate) fn raise(starts: &mut Vec<usize>, from: usize, by: usize)
    requires { (k : ℕ) → slice_index starts.old.items k + by < 2 ^ 64 }
    ensures items { starts.new.items ≡ changed_from (λ s. s + by) from starts.old.items }
    ensures len { length starts.new.items ≡ length starts.old.items }
    ensures capacity { vec_capacity starts.new ≡ vec_capacity starts.old }
{
    let mut block = from;
    while block < starts.len() {
        starts[block] += by;
        block += 1;
    }
}

/// Takes from each start from a block on.
pub(crate) fn lower(starts: &mut Vec<usize>, from: usize, by: usize)
    requires { (k : ℕ) → from ≤ k → k < length starts.old.items → by ≤ slice_index starts.old.items k }
    ensures items { starts.new.items ≡ changed_from (λ s. s - by) from starts.old.items }
    ensures len { length starts.new.items ≡ length starts.old.items }
    ensures capacity { vec_capacity starts.new ≡ vec_capacity starts.old }
{
    let mut block = from;
    while block < starts.len() {
        starts[block] -= by;
        block += 1;
    }
}

/// Puts a start before that at `block`. There is room.
pub(crate) fn put_start(starts: &mut Vec<usize>, block: usize, start: usize)
    requires within { block ≤ length starts.old.items }
    requires room { length starts.old.items < vec_capacity starts.old }
    ensures items { starts.new.items ≡ insert starts.old.items block start }
    ensures capacity { vec_capacity starts.new ≡ vec_capacity starts.old }
{
    match starts.insert(block, start) {
        Ok(()) => {}
        Err(_) => unreachable!(),
    }
}
