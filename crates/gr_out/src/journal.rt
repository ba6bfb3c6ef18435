//! The journal of a post in memory. It exists only in proofs, and takes no memory and no time.

ghost use Rattle.std.specs.Prelude.{◌≡◌, List, []};
ghost use base.Fml.{ftrue};
ghost use Rattle.gr_out.specs.Entry.{Entry, journal_code};

use crate::post::{Arrival, PostFault};
use std::marker::Model;

/// What came and went, the earliest first.
#[derive(Drop)]
pub(crate) struct Journal {
    ghost entries: { List Entry } by { journal_code },
}

impl Model for Journal {
    ghost also_owns = { λ _. ftrue };
}

/// A call of the post and its answer.
#[derive(Clone, Copy, Drop)]
pub(crate) enum Note<'a> {
    /// A binding: a broker's address, and whether the broker is hosted here.
    Bound {
        broker: u16,
        address: &'a [u8],
        here: bool,
        answer: Result<(), PostFault>,
    },
    /// An arrival: the buffer after the call, and what came.
    Came {
        piece: &'a [u8],
        answer: Result<Arrival, PostFault>,
    },
    /// An offer of bytes of one broker to another.
    Offered {
        from: u16,
        to: u16,
        bytes: &'a [u8],
        answer: Result<(), PostFault>,
    },
}

impl Journal {
    ghost use Rattle.gr_out.specs.JournalNote.{with_note};

    /// That of a post that was never called.
    pub(crate) fn new() -> Journal
        ensures { result.entries ≡ [] }
    {
        Journal {}
    }

    /// The journal after one more call.
    #[inline(always)]
    pub(crate) fn then(&self, _note: &Note<'_>) -> Journal
        ensures { result.entries ≡ with_note self.now.entries _note.now }
    {
        Journal {}
    }
}
