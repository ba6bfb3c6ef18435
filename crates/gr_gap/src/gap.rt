//! A list in blocks: an edit moves values within one block.

ghost use Rattle.std.specs.Prelude.{◌≡◌, ◌+◌, ◌*◌, ◌^◌, ◌<◌, ◌≤◌, [], length, insert, remove, slice_index_or};
ghost use Rattle.std.specs.Prelude.{slice_set, OnOk, OnErr, IsOk, max};
ghost use Rattle.std.specs.List.Sorted.{IsNonDecreasingBy, IsPartitionPoint};
ghost use Rattle.gr_gap.specs.declared.blocks.TheConstants.{BLOCK};

use crate::Memory;
use crate::blocks::BLOCK;
use crate::moves::put;
use crate::ranked::{Ranked, count_in};
use crate::rest::Rest;
use std::alloc::{AllocError, Global};
use std::cell::Cell;
use std::collections::VecDeque;
use std::marker::Model;
use std::mem;

// The least room that is asked for.
const LEAST_ROOM: usize = 4;

// More room than this is never asked of an allocator.
const MOST_ROOM: usize = 1 << 61;

/// A list with room for more values: its contracts see the values in order, and `spare`, how many more fit.
/// An edit at one of the two ends moves no other value. One elsewhere moves at most half a block's values.
pub struct Gap<T> {
    // The first values, in a block of their own: so an edit before all leaves the starts of the other blocks as they
    // are. Where all fit in one block, they stand here.
    head: VecDeque<T>,
    // The values that come after them.
    rest: Rest<T>,
    // How many values fit in all.
    room: usize,
    // Where a search may well begin. What it holds is no part of the list.
    near: Cell<usize>,
}

impl<T> Model for Gap<T> {
    ghost use Rattle.std.specs.Prelude.{◌≡◌, ◌+◌, ◌-◌, ◌*◌, ◌^◌, ◌<◌, ◌≤◌, ◌++◌, length, min, max};
    ghost use Rattle.std_alloc.specs.VecDeque.{deque_capacity};
    ghost use Rattle.gr_gap.specs.Contents.{Contents};
    ghost use Rattle.gr_gap.specs.declared.blocks.TheConstants.{BLOCK};

    ghost Value = { Contents T };

    ghost view = { λ g. record
        { items = g.head.items ++ g.rest.items; spare = g.room - (length g.head.items + length g.rest.items) } };

    ghost invariant = { λ g.
        (length g.head.items ≤ BLOCK)
        × (length g.head.items + length g.rest.items ≤ g.room)
        × (BLOCK < max g.room (BLOCK + 1 - length g.rest.items))
        × (min g.room BLOCK ≤ deque_capacity g.head) × (g.room ≤ max BLOCK (g.rest.blocks * BLOCK))
        × (g.room < 2 ^ 62) };
}

// Written out, so that a caller's proof sees one drop and not those of the parts.
impl<T: Drop> Drop for Gap<T> {
    fn drop(self) {
        let Gap {
            head,
            rest,
            room: _,
            near: _,
        } = self;
        drop(head);
        drop(rest);
    }
}

impl<T> Gap<T> {
    /// The empty list with no room. It takes no memory.
    pub fn new(alloc: Global) -> Gap<T>
        ensures items { result.items ≡ [] }
        ensures spare { result.spare ≡ 0 }
    {
        Gap {
            head: VecDeque::new(alloc),
            rest: Rest::new(alloc),
            room: 0,
            near: Cell::new(0),
        }
    }

    /// Makes room for at least `n` more values. Where it has to grow, it has at least twice the room then. Where
    /// memory is refused, all stays as it was.
    #[inline(always)]
    pub fn reserve(&mut self, n: usize) -> Result<(), Memory>
        ensures ok { OnOk result (n ≤ self.new.spare) }
        ensures kept { self.new.items ≡ self.old.items }
        ensures never_less { self.old.spare ≤ self.new.spare }
        ensures twice { OnOk result
            (self.old.spare < n →
            2 * (length self.old.items + self.old.spare) ≤ length self.new.items + self.new.spare) }
        ensures succeeds { n ≤ self.old.spare → IsOk result }
        ensures err { OnErr result (self.new ≡ self.old) }
    {
        let len = self.len();
        if n <= self.room - len {
            return Ok(());
        }
        let Some(needed) = len.checked_add(n) else {
            return Err(AllocError);
        };
        self.widen(wider(self.room, needed))
    }

    /// Puts a value before the one at `i`, or at the end. It takes no memory.
    #[inline(always)]
    pub fn insert(&mut self, i: usize, value: T)
        requires within { i ≤ length self.old.items }
        requires room { 0 < self.old.spare }
        ensures items { self.new.items ≡ insert self.old.items i value }
        ensures spare { self.new.spare + 1 ≡ self.old.spare }
        ensures counted { length self.new.items < 2 ^ 64 }
    {
        self.near.set(i);
        if self.head.len() < i || i == BLOCK {
            self.rest.insert(i - self.head.len(), value);
            return;
        }
        if self.head.len() < BLOCK {
            put(&mut self.head, i, value);
            return;
        }
        self.rest.relieve(&mut self.head);
        if i <= self.head.len() {
            put(&mut self.head, i, value);
            return;
        }
        self.rest.insert(i - self.head.len(), value);
    }

    /// Takes out the value at `i`.
    #[inline(always)]
    pub fn remove(&mut self, i: usize) -> T
        requires { i < length self.old.items }
        ensures value { result ≡ slice_index_or self.old.items i result }
        ensures items { self.new.items ≡ remove self.old.items i }
        ensures spare { self.new.spare ≡ self.old.spare + 1 }
    {
        self.near.set(i);
        if self.head.len() <= i {
            return self.rest.remove(i - self.head.len());
        }
        // What stands first is most often what goes, and goes without a look at what is behind it.
        let first = i == 0;
        let removed = if first {
            self.head.pop_front()
        } else {
            self.head.remove(i)
        };
        let Some(value) = removed else { unreachable!() };
        if self.head.len() == 0 {
            self.rest.refill(&mut self.head);
        }
        value
    }

    /// The value at `i`. Inlined always: most lists have no more than their first block.
    #[inline(always)]
    pub fn get(&self, i: usize) -> &T
        requires { i < length self.now.items }
        ensures { result.now ≡ slice_index_or self.now.items i result.now }
    {
        if i < self.head.len() {
            &self.head[i]
        } else {
            self.rest.get(i - self.head.len())
        }
    }

    /// Puts a value in place of the one at `i`, which it answers.
    pub fn replace(&mut self, i: usize, value: T) -> T
        requires { i < length self.old.items }
        ensures value { result ≡ slice_index_or self.old.items i result }
        ensures items { self.new.items ≡ slice_set self.old.items i value }
        ensures spare { self.new.spare ≡ self.old.spare }
    {
        self.near.set(i);
        if i < self.head.len() {
            mem::replace(&mut self.head[i], value)
        } else {
            self.rest.replace(i - self.head.len(), value)
        }
    }

    /// Where its memory comes from. There is one such allocator: a list made with it has its memory from the same
    /// place.
    pub fn allocator(&self) -> Global
        ensures { (other : Global) → result ≡ other }
    {
        *self.head.allocator()
    }

    /// Where a search may well begin, since what is looked for and edited lies near what was before: the place of the
    /// last edit, or the last one that was noted. It is a hint alone: there may be no value at that place.
    pub fn near(&self) -> usize {
        self.near.get()
    }

    /// Notes a place at which something was found, for the next search.
    pub fn note(&self, i: usize) {
        self.near.set(i);
    }

    /// How many values there are.
    pub fn len(&self) -> usize
        ensures { result ≡ length self.now.items }
    {
        self.head.len() + self.rest.len()
    }

    // Makes so much room. Where memory is refused, the room stays what it was.
    fn widen(&mut self, room: usize) -> Result<(), Memory>
        requires { length self.old.items + self.old.spare < room }
        ensures items { self.new.items ≡ self.old.items }
        ensures ok { OnOk result (length self.new.items + self.new.spare ≡ room) }
        ensures err { OnErr result (self.new ≡ self.old) }
    {
        if MOST_ROOM < room {
            return Err(AllocError);
        }
        let alloc = self.allocator();
        let len = self.head.len();
        self.head.reserve_exact(room.min(BLOCK).max(len) - len)?;
        add_blocks(&mut self.rest, room, alloc)?;
        self.room = room;
        Ok(())
    }
}

impl<T: Ranked> Gap<T> {
    /// How many values have a rank below another, where ranks do not fall: so the first of that rank or a higher one
    /// stands at this place, if there is one. It looks at some value of as many blocks as it takes to halve their
    /// number down to one, and then at as many values of one block.
    pub fn count_below(&self, rank: u64) -> usize
        requires { IsNonDecreasingBy T.rank_of self.now.items }
        ensures within { result ≤ length self.now.items }
        ensures point { IsPartitionPoint (λ v. T.rank_of v < rank) (λ v. rank ≤ T.rank_of v) self.now.items result }
    {
        if let Some(last) = self.head.back() {
            if rank <= last.rank() {
                return count_in(&self.head, rank);
            }
        }
        self.head.len() + self.rest.count_below(rank)
    }
}

// Adds blocks, where one alone has not so much room, until they have it.
fn add_blocks<T>(rest: &mut Rest<T>, room: usize, alloc: Global) -> Result<(), Memory>
    requires { room ≤ 2 ^ 61 }
    ensures items { rest.new.items ≡ rest.old.items }
    ensures more { rest.old.blocks ≤ rest.new.blocks }
    ensures ok { OnOk result (room ≤ max BLOCK (rest.new.blocks * BLOCK)) }
{
    while BLOCK < room && rest.room() < room {
        rest.widen(alloc)?;
    }
    Ok(())
}

// The next room: twice what there was, or what is needed if that is more.
fn wider(room: usize, needed: usize) -> usize
    requires { room < 2 ^ 63 }
    ensures enough { needed ≤ result }
    ensures some { 0 < result }
    ensures twice { 2 * room ≤ result }
{
    needed.max(2 * room).max(LEAST_ROOM)
}
