//! Where a value goes: a block that has a place for it. Where the one that it belongs to is full, a free block takes a
//! part of its values. Where none is free, the nearest place is brought there, by a value passed on through each block
//! between.

ghost use Rattle.std.specs.Prelude.{◌≡◌, ℕ, ◌+◌, ◌-◌, ◌*◌, ◌^◌, ◌<◌, ◌≤◌, length, slice_index, vec_capacity};
ghost use Rattle.gr_gap.specs.Blocks.{values_of, held, before, IsRow, Rearranged, IsBlockFor, Takes};
ghost use Rattle.gr_gap.specs.declared.blocks.TheConstants.{BLOCK};

use crate::blocks::BLOCK;
use crate::moves::{open, pass_back, pass_on};
use crate::starts::block_for;
use std::collections::VecDeque;

// A full block keeps at least so many values when it is parted.
const LEAST_KEPT: usize = BLOCK / 2;

// And at most so many.
const MOST_KEPT: usize = BLOCK / 8 * 7;

/// Finds or makes a place for a value that is to stand at `i`, and answers the block that has it. All values stay.
pub(crate) fn place_for<T>(
    blocks: &mut VecDeque<VecDeque<T>>,
    starts: &mut Vec<usize>,
    near: usize,
    i: usize,
) -> usize
    requires row { IsRow BLOCK 0 starts.old.items blocks.old.items }
    requires capacity { length blocks.old.items ≤ vec_capacity starts.old }
    requires within { i ≤ length (values_of blocks.old.items) }
    requires room { length (values_of blocks.old.items) < length blocks.old.items * BLOCK }
    requires fits { length (values_of blocks.old.items) < 2 ^ 63 }
    ensures row { Rearranged BLOCK blocks.old.items starts.new.items blocks.new.items }
    ensures place { Takes BLOCK starts.new.items blocks.new.items result i }
    ensures capacity { vec_capacity starts.new ≡ vec_capacity starts.old }
{
    if starts.len() == 0 {
        open(blocks, starts, 0, 0);
        return 0;
    }
    let block = block_for(starts.as_slice(), near, i);
    if blocks[block].len() < BLOCK {
        return block;
    }
    if starts.len() < blocks.len() {
        return part(blocks, starts, block, i);
    }
    bring(blocks, starts, block, i)
}

// A free block takes a part of the values of a full one, from the place on where the value is to stand: so values that
// come in order go behind one another, and none is moved for them. At the two ends it takes none. Else at most half of
// the values are moved, and neither block is left with few.
fn part<T>(
    blocks: &mut VecDeque<VecDeque<T>>,
    starts: &mut Vec<usize>,
    block: usize,
    i: usize,
) -> usize
    requires row { IsRow BLOCK 0 starts.old.items blocks.old.items }
    requires capacity { length blocks.old.items ≤ vec_capacity starts.old }
    requires within { i ≤ length (values_of blocks.old.items) }
    requires free { length starts.old.items < length blocks.old.items }
    requires block { IsBlockFor starts.old.items block i }
    requires full { BLOCK ≤ held block blocks.old.items }
    requires fits { length (values_of blocks.old.items) < 2 ^ 63 }
    ensures row { Rearranged BLOCK blocks.old.items starts.new.items blocks.new.items }
    ensures place { Takes BLOCK starts.new.items blocks.new.items result i }
    ensures capacity { vec_capacity starts.new ≡ vec_capacity starts.old }
{
    let place = i - starts[block];
    if place == 0 {
        open(blocks, starts, block, i);
        return block;
    }
    if place == BLOCK {
        open(blocks, starts, block + 1, i);
        return block + 1;
    }
    let kept = place.max(LEAST_KEPT).min(MOST_KEPT);
    split(blocks, starts, block, kept);
    if place <= kept { block } else { block + 1 }
}

// The full block keeps so many values, and a free one behind it takes the others.
fn split<T>(blocks: &mut VecDeque<VecDeque<T>>, starts: &mut Vec<usize>, block: usize, kept: usize)
    requires row { IsRow BLOCK 0 starts.old.items blocks.old.items }
    requires capacity { length blocks.old.items ≤ vec_capacity starts.old }
    requires free { length starts.old.items < length blocks.old.items }
    requires within { block < length starts.old.items }
    requires full { BLOCK ≤ held block blocks.old.items }
    requires kept { (0 < kept) × (kept < BLOCK) }
    requires fits { length (values_of blocks.old.items) < 2 ^ 63 }
    ensures row { Rearranged BLOCK blocks.old.items starts.new.items blocks.new.items }
    ensures starts { length starts.new.items ≡ length starts.old.items + 1 }
    ensures begins { slice_index starts.new.items block ≡ slice_index starts.old.items block }
    ensures kept { held block blocks.new.items ≡ kept }
    ensures rest { held (block + 1) blocks.new.items + kept ≡ BLOCK }
    ensures capacity { vec_capacity starts.new ≡ vec_capacity starts.old }
{
    let end = starts[block] + BLOCK;
    open(blocks, starts, block + 1, end);
    let mut left = BLOCK;
    while kept < left {
        pass_on(blocks, starts, block);
        left -= 1;
    }
}

// No block is free: the nearest place behind the block is brought there, else the nearest before it.
fn bring<T>(
    blocks: &mut VecDeque<VecDeque<T>>,
    starts: &mut Vec<usize>,
    block: usize,
    i: usize,
) -> usize
    requires row { IsRow BLOCK 0 starts.old.items blocks.old.items }
    requires within { i ≤ length (values_of blocks.old.items) }
    requires room { length (values_of blocks.old.items) < length blocks.old.items * BLOCK }
    requires all { length starts.old.items ≡ length blocks.old.items }
    requires block { IsBlockFor starts.old.items block i }
    requires full { BLOCK ≤ held block blocks.old.items }
    requires fits { length (values_of blocks.old.items) < 2 ^ 63 }
    ensures row { Rearranged BLOCK blocks.old.items starts.new.items blocks.new.items }
    ensures place { Takes BLOCK starts.new.items blocks.new.items result i }
    ensures capacity { vec_capacity starts.new ≡ vec_capacity starts.old }
{
    let behind = place_behind(blocks, block + 1);
    if behind == blocks.len() {
        let before = place_before(blocks, block);
        bring_on(blocks, starts, before, block);
        return block;
    }
    if i - starts[block] == BLOCK {
        bring_back(blocks, starts, behind, block + 1);
        return block + 1;
    }
    bring_back(blocks, starts, behind, block);
    block
}

// The first block from there on that has a place, or how many there are.
fn place_behind<T>(blocks: &VecDeque<VecDeque<T>>, from: usize) -> usize
    requires { from ≤ length blocks.now.items }
    ensures within { from ≤ result }
    ensures end { result ≤ length blocks.now.items }
    ensures full { (k : ℕ) → from ≤ k → k < result → BLOCK ≤ held k blocks.now.items }
    ensures place { result < length blocks.now.items → held result blocks.now.items < BLOCK }
{
    let mut block = from;
    while block < blocks.len() && BLOCK <= blocks[block].len() {
        block += 1;
    }
    block
}

// The last block before that has a place.
fn place_before<T>(blocks: &VecDeque<VecDeque<T>>, upto: usize) -> usize
    requires within { upto ≤ length blocks.now.items }
    requires full { (k : ℕ) → upto ≤ k → k < length blocks.now.items → BLOCK ≤ held k blocks.now.items }
    requires room { length (values_of blocks.now.items) < length blocks.now.items * BLOCK }
    ensures within { result < upto }
    ensures full { (k : ℕ) → result < k → k < upto → BLOCK ≤ held k blocks.now.items }
    ensures place { held result blocks.now.items < BLOCK }
{
    let mut block = upto;
    while 0 < block {
        block -= 1;
        if blocks[block].len() < BLOCK {
            return block;
        }
    }
    unreachable!()
}

// The place that a block has is brought back to another before it: each block between passes one value on.
fn bring_back<T>(
    blocks: &mut VecDeque<VecDeque<T>>,
    starts: &mut Vec<usize>,
    from: usize,
    to: usize,
)
    requires row { IsRow BLOCK 0 starts.old.items blocks.old.items }
    requires within { from < length starts.old.items }
    requires order { to ≤ from }
    requires full { (k : ℕ) → to ≤ k → k < from → BLOCK ≤ held k blocks.old.items }
    requires place { held from blocks.old.items < BLOCK }
    ensures row { Rearranged BLOCK blocks.old.items starts.new.items blocks.new.items }
    ensures starts { length starts.new.items ≡ length starts.old.items }
    ensures begins { slice_index starts.new.items to ≡ slice_index starts.old.items to }
    ensures place { held to blocks.new.items < BLOCK }
    ensures one { to < from → BLOCK ≤ held to blocks.new.items + 1 }
    ensures capacity { vec_capacity starts.new ≡ vec_capacity starts.old }
{
    let mut place = from;
    while to < place {
        place -= 1;
        pass_on(blocks, starts, place);
    }
}

// The same, on to another behind it: each block between passes one value back.
fn bring_on<T>(blocks: &mut VecDeque<VecDeque<T>>, starts: &mut Vec<usize>, from: usize, to: usize)
    requires row { IsRow BLOCK 0 starts.old.items blocks.old.items }
    requires within { to < length starts.old.items }
    requires order { from < to }
    requires full { (k : ℕ) → from < k → k < to + 1 → BLOCK ≤ held k blocks.old.items }
    requires place { held from blocks.old.items < BLOCK }
    requires fits { length (values_of blocks.old.items) < 2 ^ 63 }
    ensures row { Rearranged BLOCK blocks.old.items starts.new.items blocks.new.items }
    ensures starts { length starts.new.items ≡ length starts.old.items }
    ensures begins { slice_index starts.new.items to ≡ slice_index starts.old.items to + 1 }
    ensures one { BLOCK ≡ held to blocks.new.items + 1 }
    ensures capacity { vec_capacity starts.new ≡ vec_capacity starts.old }
{
    let mut place = from;
    while place < to {
        pass_back(blocks, starts, place);
        place += 1;
    }
}
