//! Values in order, in blocks of so many places each, which need not be full. An edit moves values within one block, and
//! changes the starts of those behind it.

ghost use Rattle.std.specs.Prelude.{◌≡◌, ◌+◌, ◌*◌, ◌^◌, ◌<◌, ◌≤◌, [], ◌++◌, length, insert, remove, slice_index_or};
ghost use Rattle.std.specs.Prelude.{slice_set, OnOk, OnErr, min};
ghost use Rattle.std.specs.List.Sorted.{IsNonDecreasingBy, IsPartitionPoint};
ghost use Rattle.std_alloc.specs.VecDeque.{deque_capacity};
ghost use Rattle.gr_gap.specs.declared.blocks.TheConstants.{BLOCK};

use crate::moves::{close_empty, put, put_first, take_first};
use crate::places::place_for;
use crate::ranked::{Ranked, count_in};
use crate::starts::{block_of, lower, raise};
use std::alloc::{AllocError, Global};
use std::cell::Cell;
use std::collections::VecDeque;
use std::marker::Model;
use std::mem;

/// How many places a block has.
pub(crate) const BLOCK: usize = 512;

/// Values in order, in blocks of `BLOCK` places each.
#[derive(Drop)]
pub struct Blocks<T> {
    // The blocks in use, in order, and behind them the free ones, which are empty.
    blocks: VecDeque<VecDeque<T>>,
    // How many values stand before each block in use.
    starts: Vec<usize>,
    // How many values there are.
    len: usize,
    // The block of the last look or edit: the next one looks there first.
    near: Cell<usize>,
}

impl<T> Model for Blocks<T> {
    ghost use Rattle.std.specs.Prelude.{◌≡◌, ◌*◌, ◌^◌, ◌<◌, ◌≤◌, length, vec_capacity};
    ghost use Rattle.gr_gap.specs.Row.{Row};
    ghost use Rattle.gr_gap.specs.Blocks.{values_of, IsRow};
    ghost use Rattle.gr_gap.specs.declared.blocks.TheConstants.{BLOCK};

    ghost Value = { Row T };

    ghost view = { λ b. record { items = values_of b.blocks.items; blocks = length b.blocks.items } };

    ghost invariant = { λ b.
        IsRow BLOCK 0 b.starts.items b.blocks.items
        × (b.len ≡ length (values_of b.blocks.items))
        × (length b.blocks.items ≤ vec_capacity b.starts)
        × (length b.blocks.items * BLOCK < 2 ^ 63) };
}

impl<T> Blocks<T> {
    /// No block. It takes no memory.
    pub(crate) fn new(alloc: Global) -> Blocks<T>
        ensures { (result.items ≡ []) × (result.blocks ≡ 0) }
    {
        Blocks {
            blocks: VecDeque::new(alloc),
            starts: Vec::new(alloc),
            len: 0,
            near: Cell::new(0),
        }
    }

    /// How many values there are.
    pub(crate) fn len(&self) -> usize
        ensures { result ≡ length self.now.items }
    {
        self.len
    }

    /// How many values fit in all.
    pub(crate) fn room(&self) -> usize
        ensures room { result ≡ self.now.blocks * BLOCK }
        ensures within { length self.now.items ≤ result }
    {
        self.blocks.len() * BLOCK
    }

    /// The value at a place, counted from 0.
    pub(crate) fn get(&self, i: usize) -> &T
        requires { i < length self.now.items }
        ensures { result.now ≡ slice_index_or self.now.items i result.now }
    {
        let block = block_of(self.starts.as_slice(), self.near.get(), i);
        self.near.set(block);
        &self.blocks[block][i - self.starts[block]]
    }

    /// Puts a value in the place of another, which it answers.
    pub(crate) fn replace(&mut self, i: usize, value: T) -> T
        requires { i < length self.old.items }
        ensures value { result ≡ slice_index_or self.old.items i result }
        ensures items { self.new.items ≡ slice_set self.old.items i value }
        ensures blocks { self.new.blocks ≡ self.old.blocks }
    {
        let block = block_of(self.starts.as_slice(), self.near.get(), i);
        self.near.set(block);
        let place = i - self.starts[block];
        mem::replace(&mut self.blocks[block][place], value)
    }

    /// Puts a value before the one at a place, or behind all. There must be room for it.
    pub(crate) fn insert(&mut self, i: usize, value: T)
        requires within { i ≤ length self.old.items }
        requires room { length self.old.items < self.old.blocks * BLOCK }
        ensures items { self.new.items ≡ insert self.old.items i value }
        ensures blocks { self.new.blocks ≡ self.old.blocks }
    {
        let block = place_for(&mut self.blocks, &mut self.starts, self.near.get(), i);
        let place = i - self.starts[block];
        put(&mut self.blocks[block], place, value);
        raise(&mut self.starts, block + 1, 1);
        self.near.set(block);
        self.len += 1;
    }

    /// Takes the value at a place out; those behind it come one place nearer.
    pub(crate) fn remove(&mut self, i: usize) -> T
        requires { i < length self.old.items }
        ensures value { result ≡ slice_index_or self.old.items i result }
        ensures items { self.new.items ≡ remove self.old.items i }
        ensures blocks { self.new.blocks ≡ self.old.blocks }
    {
        let block = block_of(self.starts.as_slice(), self.near.get(), i);
        let place = i - self.starts[block];
        let Some(value) = self.blocks[block].remove(place) else {
            unreachable!()
        };
        lower(&mut self.starts, block + 1, 1);
        self.near.set(block);
        self.len -= 1;
        close_empty(&mut self.blocks, &mut self.starts, block);
        value
    }

    /// One more block, behind all. Where memory is refused, all stays as it was.
    pub(crate) fn widen(&mut self, alloc: Global) -> Result<(), AllocError>
        requires { (self.old.blocks + 1) * BLOCK < 2 ^ 63 }
        ensures items { self.new.items ≡ self.old.items }
        ensures ok { OnOk result (self.new.blocks ≡ self.old.blocks + 1) }
        ensures err { OnErr result (self.new ≡ self.old) }
    {
        let used = self.starts.len();
        self.starts.reserve(self.blocks.len() + 1 - used)?;
        self.blocks.reserve(1)?;
        let block = VecDeque::with_capacity(alloc, BLOCK)?;
        self.blocks.push_back_reserved(block);
        Ok(())
    }

    /// Exchanges an empty block that stands before all for the first in use, where there is one. The empty one is free
    /// then.
    pub(crate) fn refill(&mut self, head: &mut VecDeque<T>)
        requires empty { head.old.items ≡ [] }
        requires capacity { 0 < length self.old.items → BLOCK ≤ deque_capacity head.old }
        ensures items { head.new.items ++ self.new.items ≡ self.old.items }
        ensures count { length head.new.items ≤ BLOCK }
        ensures capacity { min BLOCK (deque_capacity head.old) ≤ deque_capacity head.new }
        ensures blocks { self.new.blocks ≡ self.old.blocks }
    {
        if self.len == 0 {
            return;
        }
        take_first(&mut self.blocks, &mut self.starts, head);
        self.near.set(0);
        self.len -= head.len();
    }

    /// Makes a place in a full block that stands before all. Where a block is free, it is exchanged for the full one,
    /// which is the first in use then; else the last value of the full one goes before the others.
    pub(crate) fn relieve(&mut self, head: &mut VecDeque<T>)
        requires room { length self.old.items < self.old.blocks * BLOCK }
        requires full { (length head.old.items ≡ BLOCK) × (BLOCK ≤ deque_capacity head.old) }
        ensures items { head.new.items ++ self.new.items ≡ head.old.items ++ self.old.items }
        ensures place { (length head.new.items < BLOCK) × (BLOCK ≤ deque_capacity head.new) }
        ensures blocks { self.new.blocks ≡ self.old.blocks }
    {
        if self.starts.len() < self.blocks.len() {
            put_first(&mut self.blocks, &mut self.starts, head);
            self.near.set(0);
            self.len += BLOCK;
            return;
        }
        let Some(last) = head.pop_back() else {
            unreachable!()
        };
        self.insert(0, last);
    }
}

impl<T: Ranked> Blocks<T> {
    /// How many values have a rank below another, where ranks do not fall. Looked for by halves: first the block, then
    /// the place in it.
    pub(crate) fn count_below(&self, rank: u64) -> usize
        requires { IsNonDecreasingBy T.rank_of self.now.items }
        ensures within { result ≤ length self.now.items }
        ensures point { IsPartitionPoint (λ v. T.rank_of v < rank) (λ v. rank ≤ T.rank_of v) self.now.items result }
    {
        // How many blocks begin below the rank. Each turn halves what is left.
        let mut low = 0;
        let mut high = self.starts.len();
        while low < high {
            let middle = low + (high - low) / 2;
            let start = self.starts[middle];
            let is_below = match self.blocks[middle].front() {
                Some(first) => first.rank() < rank,
                None => start < self.len && self.get(start).rank() < rank,
            };
            if is_below {
                low = middle + 1;
            } else {
                high = middle;
            }
        }
        if low == 0 {
            return 0;
        }
        self.near.set(low - 1);
        self.starts[low - 1] + count_in(&self.blocks[low - 1], rank)
    }
}
