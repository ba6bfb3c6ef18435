//! What comes behind the first block: nothing at all where one block holds all values, so that a short list is small.

ghost use Rattle.std.specs.Prelude.{◌≡◌, ◌+◌, ◌*◌, ◌^◌, ◌<◌, ◌≤◌, [], ◌++◌, length, insert, remove, slice_index_or};
ghost use Rattle.std.specs.Prelude.{slice_set, OnOk, OnErr, min};
ghost use Rattle.std.specs.List.Sorted.{IsNonDecreasingBy, IsPartitionPoint};
ghost use Rattle.std_alloc.specs.VecDeque.{deque_capacity};
ghost use Rattle.gr_gap.specs.declared.blocks.TheConstants.{BLOCK};

use crate::blocks::{BLOCK, Blocks};
use crate::ranked::Ranked;
use std::alloc::{AllocError, Global};
use std::collections::VecDeque;
use std::marker::Model;

/// Values in order, in blocks of `BLOCK` places each, or none.
#[derive(Drop)]
pub struct Rest<T> {
    // One at most.
    blocks: Vec<Blocks<T>>,
}

impl<T> Model for Rest<T> {
    ghost use Rattle.gr_gap.specs.Row.{Row, row_in};

    ghost Value = { Row T };

    ghost view = { λ r. row_in r.blocks.items };
}

impl<T> Rest<T> {
    /// No block. It takes no memory.
    pub(crate) fn new(alloc: Global) -> Rest<T>
        ensures { (result.items ≡ []) × (result.blocks ≡ 0) }
    {
        Rest {
            blocks: Vec::new(alloc),
        }
    }

    /// How many values there are.
    pub(crate) fn len(&self) -> usize
        ensures { result ≡ length self.now.items }
    {
        match self.blocks.first() {
            None => 0,
            Some(blocks) => blocks.len(),
        }
    }

    /// How many values fit in all.
    pub(crate) fn room(&self) -> usize
        ensures room { result ≡ self.now.blocks * BLOCK }
        ensures within { length self.now.items ≤ result }
    {
        match self.blocks.first() {
            None => 0,
            Some(blocks) => blocks.room(),
        }
    }

    /// The value at a place, counted from 0.
    #[inline(always)]
    pub(crate) fn get(&self, i: usize) -> &T
        requires { i < length self.now.items }
        ensures { result.now ≡ slice_index_or self.now.items i result.now }
    {
        match self.blocks.first() {
            None => unreachable!(),
            Some(blocks) => blocks.get(i),
        }
    }

    /// Puts a value in the place of another, which it answers.
    pub(crate) fn replace(&mut self, i: usize, value: T) -> T
        requires { i < length self.old.items }
        ensures value { result ≡ slice_index_or self.old.items i result }
        ensures items { self.new.items ≡ slice_set self.old.items i value }
        ensures blocks { self.new.blocks ≡ self.old.blocks }
    {
        match self.blocks.first_mut() {
            None => unreachable!(),
            Some(blocks) => blocks.replace(i, value),
        }
    }

    /// Puts a value before the one at a place, or behind all. There must be room for it.
    pub(crate) fn insert(&mut self, i: usize, value: T)
        requires within { i ≤ length self.old.items }
        requires room { length self.old.items < self.old.blocks * BLOCK }
        ensures items { self.new.items ≡ insert self.old.items i value }
        ensures blocks { self.new.blocks ≡ self.old.blocks }
    {
        match self.blocks.first_mut() {
            None => unreachable!(),
            Some(blocks) => blocks.insert(i, value),
        }
    }

    /// Takes the value at a place out; those behind it come one place nearer.
    pub(crate) fn remove(&mut self, i: usize) -> T
        requires { i < length self.old.items }
        ensures value { result ≡ slice_index_or self.old.items i result }
        ensures items { self.new.items ≡ remove self.old.items i }
        ensures blocks { self.new.blocks ≡ self.old.blocks }
    {
        match self.blocks.first_mut() {
            None => unreachable!(),
            Some(blocks) => blocks.remove(i),
        }
    }

    /// One more block, behind all. Where memory is refused, all stays as it was.
    pub(crate) fn widen(&mut self, alloc: Global) -> Result<(), AllocError>
        requires { (self.old.blocks + 1) * BLOCK < 2 ^ 63 }
        ensures items { self.new.items ≡ self.old.items }
        ensures ok { OnOk result (self.new.blocks ≡ self.old.blocks + 1) }
        ensures err { OnErr result (self.new ≡ self.old) }
    {
        if self.blocks.is_empty() {
            self.blocks.reserve_exact(1)?;
            let mut blocks = Blocks::new(alloc);
            let widened = blocks.widen(alloc);
            self.blocks.push_reserved(blocks);
            return widened;
        }
        self.blocks[0].widen(alloc)
    }

    /// Exchanges an empty block that stands before all for the first in use, where there is one. The empty one is free
    /// then.
    pub(crate) fn refill(&mut self, head: &mut VecDeque<T>)
        requires empty { head.old.items ≡ [] }
        requires capacity { 0 < length self.old.items → BLOCK ≤ deque_capacity head.old }
        ensures items { head.new.items ++ self.new.items ≡ self.old.items }
        ensures count { length head.new.items ≤ BLOCK }
        ensures capacity { min BLOCK (deque_capacity head.old) ≤ deque_capacity head.new }
        ensures blocks { self.new.blocks ≡ self.old.blocks }
    {
        match self.blocks.first_mut() {
            None => {}
            Some(blocks) => blocks.refill(head),
        }
    }

    /// Makes a place in a full block that stands before all. Where a block is free, it is exchanged for the full one,
    /// which is the first in use then; else the last value of the full one goes before the others.
    pub(crate) fn relieve(&mut self, head: &mut VecDeque<T>)
        requires room { length self.old.items < self.old.blocks * BLOCK }
        requires full { (length head.old.items ≡ BLOCK) × (BLOCK ≤ deque_capacity head.old) }
        ensures items { head.new.items ++ self.new.items ≡ head.old.items ++ self.old.items }
        ensures place { (length head.new.items < BLOCK) × (BLOCK ≤ deque_capacity head.new) }
        ensures blocks { self.new.blocks ≡ self.old.blocks }
    {
        match self.blocks.first_mut() {
            None => unreachable!(),
            Some(blocks) => blocks.relieve(head),
        }
    }
}

impl<T: Ranked> Rest<T> {
    /// How many values have a rank below another, where ranks do not fall.
    pub(crate) fn count_below(&self, rank: u64) -> usize
        requires { IsNonDecreasingBy T.rank_of self.now.items }
        ensures within { result ≤ length self.now.items }
        ensures point { IsPartitionPoint (λ v. T.rank_of v < rank) (λ v. rank ≤ T.rank_of v) self.now.items result }
    {
        match self.blocks.first() {
            None => 0,
            Some(blocks) => blocks.count_below(rank),
        }
    }
}
