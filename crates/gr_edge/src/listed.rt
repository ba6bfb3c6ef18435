//! The list of what the subscribers behind an edge want. It exists only in proofs, and takes no memory and no time.

ghost use Rattle.std.specs.Prelude.{◌≡◌, List, []};
ghost use base.Fml.{ftrue};
ghost use Rattle.gr_edge.specs.Pass.{Wanting, wantings_code};

use gr_filter::Filter;
use std::marker::Model;

/// What the subscribers behind an edge want, in order.
#[derive(Drop)]
pub(crate) struct Listed {
    ghost wantings: { List Wanting } by { wantings_code },
}

impl Model for Listed {
    ghost also_owns = { λ _. ftrue };
}

/// What a subscriber wants that is put behind an edge.
#[derive(Clone, Copy, Drop)]
pub(crate) struct Wish<'a> {
    /// Its filter; one without a filter wants every event.
    pub(crate) filter: Option<&'a Filter>,
    /// Its number, where it is late.
    pub(crate) late: Option<u16>,
}

impl Listed {
    ghost use Rattle.gr_edge.specs.Listing.{with_wish};

    /// Nobody.
    pub(crate) fn new() -> Listed
        ensures { result.wantings ≡ [] }
    {
        Listed {}
    }

    /// The list with one subscriber more at its end.
    #[inline(always)]
    pub(crate) fn then(&self, _wish: &Wish<'_>) -> Listed
        ensures { result.wantings ≡ with_wish self.now.wantings _wish.now }
    {
        Listed {}
    }
}
