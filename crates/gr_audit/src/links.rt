//! The groups of journals, as they are noted for the joint order.

ghost use Rattle.std.specs.Prelude.{◌≡◌, [], Some, None, IfOk, OnOk};
ghost use Rattle.gr_audit.specs.Joint.{stays};
ghost use Rattle.gr_audit.specs.Noted.{with_journal, with_arrival, with_offer};

use crate::joint::line_that_stays;
use crate::keys::Keys;
use crate::mark::MarkList;
use std::alloc::{AllocError, Global};
use std::marker::Model;
use std::mem;

/// The groups of journals, noted one after another: those of the journals that have ended, and of the one that goes on.
#[derive(Drop)]
pub struct Links {
    keys: Keys,
    before: Vec<MarkList>,
    now: MarkList,
}

impl Model for Links {
    ghost use Rattle.std.specs.Prelude.{length};
    ghost use Rattle.std.specs.List.{AllByRecursion};
    ghost use Rattle.gr_audit.specs.Links.{IsBelow};
    ghost use Rattle.gr_audit.specs.Noted.{Noted, noted_in};

    ghost Value = { Noted };

    ghost view = { λ l. noted_in l.keys l.before.items l.now };

    ghost invariant = { λ l. AllByRecursion (AllByRecursion (IsBelow (length l.keys))) l.before.items
        × AllByRecursion (IsBelow (length l.keys)) l.now };
}

impl Links {
    /// No groups. Takes no memory.
    pub fn new(alloc: Global) -> Links
        ensures { result ≡ record { before = []; now = [] } }
    {
        Links {
            keys: Keys::new(alloc),
            before: Vec::new(alloc),
            now: MarkList::new(alloc),
        }
    }

    /// The journal that went on has ended, and the next one begins.
    pub fn end_journal(&mut self, alloc: Global) -> Result<(), AllocError>
        ensures { OnOk result (self.new ≡ with_journal self.old) }
    {
        self.before.reserve(1)?;
        let ended = mem::replace(&mut self.now, MarkList::new(alloc));
        self.before.push_reserved(ended);
        Ok(())
    }

    /// A group more, that begins with an arrival of this line, which needs no offer.
    pub fn arrives(&mut self, line: u32) -> Result<(), AllocError>
        ensures { OnOk result (self.new ≡ with_arrival line None self.old) }
    {
        self.now.arrives(line, None)
    }

    /// A group more, that begins with the arrival of a datagram, which has to be offered before.
    pub fn arrives_offered(
        &mut self,
        alloc: Global,
        line: u32,
        to: u16,
        bytes: &[u8],
    ) -> Result<(), AllocError>
        ensures { OnOk result (self.new ≡ with_arrival line (Some (to, bytes.now)) self.old) }
    {
        let key = self.keys.number(alloc, to, bytes)?;
        self.now.arrives(line, Some(key))
    }

    /// A datagram more that the last group offers.
    pub fn offers(&mut self, alloc: Global, to: u16, bytes: &[u8]) -> Result<(), AllocError>
        ensures { OnOk result (self.new ≡ with_offer (to, bytes.now) self.old) }
    {
        let key = self.keys.number(alloc, to, bytes)?;
        self.now.offers(key)
    }

    /// The least line of an arrival that stays where every group that can go has gone, of the journals that have ended;
    /// None where all have gone.
    pub fn line_that_stays(&self, alloc: Global) -> Result<Option<u32>, AllocError>
        ensures { IfOk result (λ line. line ≡ stays self.entry.now.before) }
    {
        line_that_stays(alloc, &self.keys, &self.before)
    }
}
