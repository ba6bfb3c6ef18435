//! A counted owner, as the pointer to the block of the count and the value. Where the count is full it stands still.

ghost use Rattle.std.specs.Prelude.{◌≡◌, IfSome};
ghost use Rattle.gr_gap.specs.Ownership.{shared_owns, shared_shares};

use crate::loose::Loose;
use std::alloc::Global;
use std::marker::Model;

/// What the block holds: the count of owners, and the value.
#[derive(Drop)]
pub(crate) struct Counted<T> {
    /// How many owners there are, at least 1; at `u64::MAX` it stands still.
    pub(crate) count: u64,
    /// The value that the owners share.
    pub(crate) value: T,
}

/// One of the owners of a value.
pub(crate) struct Owner<T> {
    block: *mut Counted<T>,
    /// The value that it shares.
    pub(crate) ghost value: { T },
}

impl<T> Model for Owner<T> {
    ghost also_owns = { λ s. shared_owns T.row s.block s.value };

    ghost also_shares = { λ s _ κ. shared_shares T.row s.block s.value κ };
}

impl<T> Owner<T> {
    /// The first owner of a value.
    pub(crate) fn of(first: Loose<Counted<T>, Global>) -> Owner<T>
        requires { first.value.count ≡ 1 }
        ensures { result.value ≡ first.value.value }
    {
        let Loose {
            at: block,
            alloc: _,
        } = first;
        Owner { block }
    }

    /// Gives this owner up. It is the last where the count is 1, and gets the block with that count in it. At a full
    /// count nobody is the last. `None` tells no count: how many other owners there are is no value that an owner has.
    pub(crate) fn step_down(self, alloc: Global) -> Option<Loose<Counted<T>, Global>>
        ensures { IfSome result (λ last. (last.value.count ≡ 1) × (last.value.value ≡ self.value)) }
    {
        let Owner { block } = self;
        let n = unsafe { (*block).count };
        if n == 1 {
            return Some(Loose { at: block, alloc });
        }
        if n != u64::MAX {
            unsafe { (*block).count = n - 1 };
        }
        None
    }

    /// One more owner of the same value. Takes no memory.
    pub(crate) fn share(&self) -> Owner<T>
        ensures { result.value ≡ self.now.value }
    {
        let block = self.block;
        unsafe {
            let n = (*block).count;
            if n != u64::MAX {
                (*block).count = n + 1;
            }
        }
        Owner { block }
    }

    /// The value.
    pub(crate) fn get(&self) -> &T
        ensures { result.now ≡ self.now.value }
    {
        unsafe { &(*self.block).value }
    }
}
