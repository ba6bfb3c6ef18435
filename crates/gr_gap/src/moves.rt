//! Blocks in a row: a value passed on to a neighbour, and a block put among those in use or taken from them. All values
//! stay as they are, in order.

ghost use Rattle.std.specs.Prelude.{◌≡◌, ℕ, [], ◌++◌, ◌+◌, ◌-◌, ◌*◌, ◌^◌, ◌<◌, ◌≤◌, length, insert, remove};
ghost use Rattle.std.specs.Prelude.{slice_index, vec_capacity};
ghost use Rattle.std_alloc.specs.VecDeque.{deque_len, deque_capacity};
ghost use Rattle.gr_gap.specs.Blocks.{values_of, held, before, IsRow, Rearranged};
ghost use Rattle.gr_gap.specs.declared.blocks.TheConstants.{BLOCK};

use crate::blocks::BLOCK;
use crate::starts::{lower, put_start, raise};
use std::collections::VecDeque;
use std::mem;

/// Puts a value into a list that has a free place.
#[inline(always)]
pub(crate) fn put<T>(list: &mut VecDeque<T>, i: usize, value: T)
    requires within { i ≤ deque_len list.old }
    requires room { deque_len list.old < deque_capacity list.old }
    ensures items { list.new.items ≡ insert list.old.items i value }
    ensures len { deque_len list.new ≡ deque_len list.old + 1 }
    ensures capacity { deque_capacity list.old ≤ deque_capacity list.new }
{
    if i == list.len() {
        list.push_back_reserved(value);
        return;
    }
    if i == 0 {
        list.push_front_reserved(value);
        return;
    }
    match list.insert(i, value) {
        Ok(()) => {}
        // There is room, so this is never met. The value has to go somewhere.
        Err(failed) => list.push_back_reserved(failed.value),
    }
}

/// The last value of the block becomes the first of the next.
pub(crate) fn pass_on<T>(blocks: &mut VecDeque<VecDeque<T>>, starts: &mut Vec<usize>, block: usize)
    requires row { IsRow BLOCK 0 starts.old.items blocks.old.items }
    requires next { block + 1 < length starts.old.items }
    requires some { 0 < held block blocks.old.items }
    requires room { held (block + 1) blocks.old.items < BLOCK }
    ensures row { Rearranged BLOCK blocks.old.items starts.new.items blocks.new.items }
    ensures less { held block blocks.new.items + 1 ≡ held block blocks.old.items }
    ensures more { held (block + 1) blocks.new.items ≡ held (block + 1) blocks.old.items + 1 }
    ensures others { (k : ℕ) → k < block → held k blocks.new.items ≡ held k blocks.old.items }
    ensures starts { length starts.new.items ≡ length starts.old.items }
    ensures begins { (k : ℕ) → k < block + 1 → slice_index starts.new.items k ≡ slice_index starts.old.items k }
    ensures capacity { vec_capacity starts.new ≡ vec_capacity starts.old }
{
    let Some(value) = blocks[block].pop_back() else {
        unreachable!()
    };
    blocks[block + 1].push_front_reserved(value);
    starts[block + 1] -= 1;
}

/// The first value of the next block becomes the last of the block.
pub(crate) fn pass_back<T>(
    blocks: &mut VecDeque<VecDeque<T>>,
    starts: &mut Vec<usize>,
    block: usize,
)
    requires row { IsRow BLOCK 0 starts.old.items blocks.old.items }
    requires next { block + 1 < length starts.old.items }
    requires some { 0 < held (block + 1) blocks.old.items }
    requires room { held block blocks.old.items < BLOCK }
    requires fits { length (values_of blocks.old.items) < 2 ^ 63 }
    ensures row { Rearranged BLOCK blocks.old.items starts.new.items blocks.new.items }
    ensures less { held (block + 1) blocks.new.items + 1 ≡ held (block + 1) blocks.old.items }
    ensures more { held block blocks.new.items ≡ held block blocks.old.items + 1 }
    ensures others { (k : ℕ) → block + 1 < k → held k blocks.new.items ≡ held k blocks.old.items }
    ensures starts { length starts.new.items ≡ length starts.old.items }
    ensures begins { slice_index starts.new.items (block + 1) ≡ slice_index starts.old.items (block + 1) + 1 }
    ensures behind { (k : ℕ) → block + 1 < k → slice_index starts.new.items k ≡ slice_index starts.old.items k }
    ensures capacity { vec_capacity starts.new ≡ vec_capacity starts.old }
{
    let Some(value) = blocks[block + 1].pop_front() else {
        unreachable!()
    };
    blocks[block].push_back_reserved(value);
    starts[block + 1] += 1;
}

/// A free block comes to stand before the one at `block`, or behind the last.
pub(crate) fn open<T>(
    blocks: &mut VecDeque<VecDeque<T>>,
    starts: &mut Vec<usize>,
    block: usize,
    start: usize,
)
    requires row { IsRow BLOCK 0 starts.old.items blocks.old.items }
    requires free { length starts.old.items < length blocks.old.items }
    requires within { block ≤ length starts.old.items }
    requires start { start ≡ before block blocks.old.items }
    requires capacity { length blocks.old.items ≤ vec_capacity starts.old }
    ensures row { Rearranged BLOCK blocks.old.items starts.new.items blocks.new.items }
    ensures starts { starts.new.items ≡ insert starts.old.items block start }
    ensures empty { held block blocks.new.items ≡ 0 }
    ensures others { (k : ℕ) → k < block → held k blocks.new.items ≡ held k blocks.old.items }
    ensures capacity { vec_capacity starts.new ≡ vec_capacity starts.old }
{
    let Some(free) = blocks.pop_back() else {
        unreachable!()
    };
    put(blocks, block, free);
    put_start(starts, block, start);
}

/// The block goes behind all others as a free one, where it has become empty.
pub(crate) fn close_empty<T>(
    blocks: &mut VecDeque<VecDeque<T>>,
    starts: &mut Vec<usize>,
    block: usize,
)
    requires row { IsRow BLOCK 0 starts.old.items blocks.old.items }
    requires within { block < length starts.old.items }
    ensures row { Rearranged BLOCK blocks.old.items starts.new.items blocks.new.items }
    ensures capacity { vec_capacity starts.new ≡ vec_capacity starts.old }
{
    if blocks[block].len() == 0 {
        close(blocks, starts, block);
    }
}

// An empty block goes behind all others as a free one.
fn close<T>(blocks: &mut VecDeque<VecDeque<T>>, starts: &mut Vec<usize>, block: usize)
    requires row { IsRow BLOCK 0 starts.old.items blocks.old.items }
    requires within { block < length starts.old.items }
    requires empty { held block blocks.old.items ≡ 0 }
    ensures row { Rearranged BLOCK blocks.old.items starts.new.items blocks.new.items }
    ensures capacity { vec_capacity starts.new ≡ vec_capacity starts.old }
{
    let Some(free) = blocks.remove(block) else {
        unreachable!()
    };
    blocks.push_back_reserved(free);
    starts.remove(block);
}

/// Exchanges the last block, which is free, for a full one, which is then the first.
pub(crate) fn put_first<T>(
    blocks: &mut VecDeque<VecDeque<T>>,
    starts: &mut Vec<usize>,
    head: &mut VecDeque<T>,
)
    requires row { IsRow BLOCK 0 starts.old.items blocks.old.items }
    requires free { length starts.old.items < length blocks.old.items }
    requires capacity { length blocks.old.items ≤ vec_capacity starts.old }
    requires full { (length head.old.items ≡ BLOCK) × (BLOCK ≤ deque_capacity head.old) }
    requires fits { length blocks.old.items * BLOCK < 2 ^ 63 }
    ensures row { IsRow BLOCK 0 starts.new.items blocks.new.items }
    ensures values { values_of blocks.new.items ≡ head.old.items ++ values_of blocks.old.items }
    ensures count { length blocks.new.items ≡ length blocks.old.items }
    ensures empty { (head.new.items ≡ []) × (BLOCK ≤ deque_capacity head.new) }
    ensures capacity { vec_capacity starts.new ≡ vec_capacity starts.old }
{
    let Some(free) = blocks.pop_back() else {
        unreachable!()
    };
    blocks.push_front_reserved(mem::replace(head, free));
    raise(starts, 0, BLOCK);
    put_start(starts, 0, 0);
}

/// Exchanges the first block in use for an empty one, which is then free.
pub(crate) fn take_first<T>(
    blocks: &mut VecDeque<VecDeque<T>>,
    starts: &mut Vec<usize>,
    head: &mut VecDeque<T>,
)
    requires row { IsRow BLOCK 0 starts.old.items blocks.old.items }
    requires some { 0 < length (values_of blocks.old.items) }
    requires empty { (head.old.items ≡ []) × (BLOCK ≤ deque_capacity head.old) }
    ensures row { IsRow BLOCK 0 starts.new.items blocks.new.items }
    ensures values { head.new.items ++ values_of blocks.new.items ≡ values_of blocks.old.items }
    ensures count { length blocks.new.items ≡ length blocks.old.items }
    ensures block { (length head.new.items ≤ BLOCK) × (BLOCK ≤ deque_capacity head.new) }
    ensures capacity { vec_capacity starts.new ≡ vec_capacity starts.old }
{
    let Some(first) = blocks.pop_front() else {
        unreachable!()
    };
    let count = first.len();
    blocks.push_back_reserved(mem::replace(head, first));
    starts.remove(0);
    lower(starts, 0, count);
}
