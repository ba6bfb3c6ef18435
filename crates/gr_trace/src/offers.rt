//! Offers that are kept until the lines before them are written.

ghost use Rattle.std.specs.Prelude.{◌≡◌, ◌++◌, ◌∷◌, [], OnOk, OnErr};

use gr_event::Bytes;
use gr_out::{Arrival, Post, PostFault};
use std::alloc::{AllocError, Global};
use std::marker::Model;

/// Bytes that one broker offers to another.
#[derive(Drop)]
pub struct Offer {
    pub from: u16,
    pub to: u16,
    pub bytes: Bytes,
}

/// Offers in their order, seen as a list. It is a post to which nothing comes.
#[derive(Drop)]
pub struct OfferList {
    alloc: Global,
    offers: Vec<Offer>,
}

impl Model for OfferList {
    ghost use Rattle.std.specs.Prelude.{List};
    ghost use Rattle.gr_trace.specs.declared.offers.Offer.{Offer};

    ghost Value = { List Offer };

    ghost view = { λ l. l.offers.items };
}

impl OfferList {
    /// No offers. Takes no memory.
    pub fn new(alloc: Global) -> OfferList
        ensures { result ≡ [] }
    {
        OfferList {
            alloc,
            offers: Vec::new(alloc),
        }
    }

    /// One more offer at the end. At want of memory the list stays as it was.
    fn push(&mut self, from: u16, to: u16, bytes: &[u8]) -> Result<(), AllocError>
        ensures ok { OnOk result
            (self.new ≡ self.old ++ record { from = from; to = to; bytes = bytes.now } ∷ []) }
        ensures err { OnErr result (self.new ≡ self.old) }
    {
        let bytes = Bytes::from_slice(self.alloc, bytes)?;
        self.offers.push(Offer { from, to, bytes })?;
        Ok(())
    }

    /// The offers.
    pub fn as_slice(&self) -> &[Offer]
        ensures { result.now ≡ self.now }
    {
        self.offers.as_slice()
    }

    /// Drops all offers, and keeps their room. Takes no memory.
    pub fn clear(&mut self)
        ensures { self.new ≡ [] }
    {
        self.offers.clear();
    }
}

impl Post for OfferList {
    ghost use Rattle.std.specs.Prelude.{ℕ, List};
    ghost use Rattle.gr_out.specs.Entry.{Entry};
    ghost use Rattle.gr_trace.specs.Offered.{entries_of};

    ghost tells = { Unit {0} };

    ghost journal = { λ l. entries_of l };

    ghost faults = { λ l. 0 };

    ghost lost = { λ l. 0 };

    /// No node is bound here.
    fn bind(&mut self, _broker: u16, _address: &[u8], _here: bool) -> Result<(), PostFault>
        ensures same { self.new ≡ self.old }
        ensures refused { result ≡ Err PostFault.Memory }
    {
        Err(PostFault::Memory)
    }

    /// Nothing comes here.
    fn next(&mut self, _into: &mut [u8]) -> Result<Arrival, PostFault> {
        Err(PostFault::Memory)
    }

    fn offer(&mut self, from: u16, to: u16, bytes: &[u8]) -> Result<(), PostFault> {
        match self.push(from, to, bytes) {
            Ok(()) => Ok(()),
            Err(_) => Err(PostFault::Memory),
        }
    }
}
