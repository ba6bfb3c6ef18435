//! What came to a process, as its journal has it, and what the process offered then.

ghost use Rattle.std.specs.Prelude.{◌≡◌, option_map, IfOk, OnOk};
ghost use Rattle.gr_audit.specs.Audited.{is_frame};
ghost use Rattle.gr_audit.specs.Taken.{with_came, first_of, behind_next, with_offered};

use crate::links::Links;
use gr_frame::{FrameKind, decode};
use gr_journal::{Arrival, Came};
use std::alloc::{AllocError, Global};
use std::marker::Model;

/// What is still to come to a process, and the groups of what came.
#[derive(Drop)]
pub struct Given<'a> {
    came: &'a [Came],
    at: usize,
    links: Links,
}

impl<'a> Model for Given<'a> {
    ghost use Rattle.std.specs.Prelude.{drop, length, ◌≤◌};
    ghost use Rattle.gr_audit.specs.Taken.{GivenView};

    ghost Value = { GivenView };

    ghost view = { λ g. record { left = drop g.at g.came.now; noted = g.links } };

    ghost invariant = { λ g. g.at ≤ length g.came.now };
}

/// Whether bytes are a frame.
fn is_frame(alloc: Global, bytes: &[u8]) -> Result<bool, AllocError>
    ensures { IfOk result (λ is. is ≡ is_frame bytes.now) }
{
    match decode(alloc, bytes) {
        Ok(_) => Ok(true),
        Err(fault) => match fault.kind {
            FrameKind::Memory => Err(AllocError),
            _ => Ok(false),
        },
    }
}

/// Notes that this came.
fn note(alloc: Global, came: &Came, links: &mut Links) -> Result<(), AllocError>
    ensures { OnOk result (links.new ≡ with_came came.now links.old) }
{
    match &came.arrival {
        Arrival::Quiet { .. } => links.arrives(came.line),
        Arrival::Datagram { broker, bytes, .. } => {
            if is_frame(alloc, bytes.as_slice())? {
                return links.arrives_offered(alloc, came.line, *broker, bytes.as_slice());
            }
            links.arrives(came.line)
        }
    }
}

impl<'a> Given<'a> {
    /// All of this is still to come, behind the groups that are noted. Takes no memory.
    pub fn new(came: &'a [Came], links: Links) -> Given<'a>
        ensures { result ≡ record { left = came.now; noted = links } }
    {
        Given { came, at: 0, links }
    }

    /// What comes next, if there is more. It is noted.
    pub fn next(&mut self, alloc: Global) -> Result<Option<&'a Came>, AllocError>
        ensures next { IfOk result (λ came. option_map (λ c. c.now) came ≡ first_of self.old.left) }
        ensures noted { OnOk result (self.new ≡ behind_next self.old) }
    {
        if self.at >= self.came.len() {
            return Ok(None);
        }
        let came = &self.came[self.at];
        note(alloc, came, &mut self.links)?;
        self.at += 1;
        Ok(Some(came))
    }

    /// Notes that the process offers a datagram.
    pub fn offers(&mut self, alloc: Global, to: u16, bytes: &[u8]) -> Result<(), AllocError>
        ensures { OnOk result (self.new ≡ with_offered (to, bytes.now) self.old) }
    {
        self.links.offers(alloc, to, bytes)
    }

    /// The groups that are noted.
    pub fn links(self) -> Links
        ensures { result ≡ self.entry.noted }
    {
        self.links
    }
}
