//! The calls on a lane. They exist only in proofs, and take no memory and no time.

ghost use Rattle.std.specs.Prelude.{◌≡◌};
ghost use base.Fml.{ftrue};
ghost use Rattle.gr_out.specs.Past.{Past, past_code, no_past};

use std::marker::Model;

/// What a lane read at first, and every call on it since then.
#[derive(Drop)]
pub(crate) struct History {
    ghost past: { Past } by { past_code },
}

impl Model for History {
    ghost also_owns = { λ _. ftrue };
}

/// What comes into a history.
#[derive(Clone, Copy, Drop)]
pub(crate) enum Note<'a> {
    /// The lane reads these bytes, synced, and its history begins anew.
    Holds(&'a [u8]),
    /// These bytes were written from the place `at` on, counted from 0.
    Wrote { at: usize, bytes: &'a [u8] },
    /// The lane was cut to `len` bytes.
    Cut { len: usize },
    /// The lane was synced.
    Synced,
    /// A write of `len` bytes from the place `at` on failed.
    FailedWrite { at: usize, len: usize },
    /// A cut to `len` bytes failed.
    FailedCut { len: usize },
}

impl History {
    ghost use Rattle.gr_out.specs.History.{noted};

    /// That of a lane that was never touched.
    pub(crate) fn new() -> History
        ensures { result.past ≡ no_past }
    {
        History {}
    }

    /// The history with one more note.
    #[inline(always)]
    pub(crate) fn then(&self, _note: &Note<'_>) -> History
        ensures { result.past ≡ noted self.now.past _note.now }
    {
        History {}
    }
}
