//! An owner of an immutable value, which can always be shared.

ghost use Rattle.std.specs.Prelude.{◌≡◌, IfOk};

use crate::Memory;
use crate::loose::Loose;
use crate::owner::{Counted, Owner};
use std::alloc::{AllocError, Global};
use std::marker::Model;

/// One of the owners of a value on the heap, which is dropped with the last of them. An owner can always be shared:
/// that takes no memory. Where 2^64 - 1 owners are alive at once, the value stays for good. Contracts see the value.
pub struct Shared<T> {
    owner: Owner<T>,
    alloc: Global,
}

impl<T> Model for Shared<T> {
    ghost Value = { T };

    ghost view = { λ s. s.owner.value };
}

impl<T: Drop> Drop for Shared<T> {
    fn drop(self) {
        let Shared { owner, alloc } = self;
        if let Some(last) = owner.step_down(alloc) {
            drop(last.into_box());
        }
    }
}

impl<T: Drop> Shared<T> {
    /// The first owner of a value. It fails only where memory is refused.
    pub fn new(alloc: Global, value: T) -> Result<Shared<T>, Memory>
        ensures { IfOk result (λ s. s ≡ value) }
    {
        match Box::new(alloc, Counted { count: 1, value }) {
            Ok(first) => Ok(Shared {
                owner: Owner::of(Loose::of(first)),
                alloc,
            }),
            Err(_) => Err(AllocError),
        }
    }
}

impl<T> Shared<T> {
    /// One more owner of the value.
    pub fn share(&self) -> Shared<T>
        ensures { result ≡ self.now }
    {
        Shared {
            owner: self.owner.share(),
            alloc: self.alloc,
        }
    }

    /// The value.
    pub fn get(&self) -> &T
        ensures { result.now ≡ self.now }
    {
        self.owner.get()
    }
}
