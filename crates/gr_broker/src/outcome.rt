//! What the calls of a broker answer.

ghost use Rattle.std.specs.Prelude.{◌≡◌, []};

use gr_broker_relay::Outcome;
use gr_event::Join;
use gr_frame::{FrameFault, Frames, Head};
use gr_know::Clash;
use gr_model::Reports;
use gr_outbox::Outbox;
use std::alloc::Global;
use std::mem;

/// Why a call is refused.
#[derive(Clone, Copy, Debug, PartialEq, Eq)]
pub enum BrokerFault {
    /// Memory was refused.
    Memory,
    /// The disk failed in this call. The log concerned has to be opened again.
    Disk,
    /// The call would append to a log that the disk has failed before.
    Reopen,
    /// The lane of a publisher holds no log.
    Damaged {
        /// Which publisher.
        publisher: u16,
        /// The place of the first fault, counted from 0 in bytes.
        at: u64,
    },
}

/// Lists that were given back, for the next answer to be made in their room.
#[derive(Drop)]
pub(crate) struct Spare {
    pub reports: Reports,
    pub frames: Frames,
}

impl Spare {
    /// No lists. Takes no memory.
    pub(crate) fn new(alloc: Global) -> Spare {
        Spare {
            reports: Reports::new(alloc),
            frames: Frames::new(alloc),
        }
    }

    /// Nothing is told and sent, in the room of the lists. Takes no memory.
    pub(crate) fn outcome(&mut self, alloc: Global) -> Outcome
        ensures reports { result.reports ≡ [] }
        ensures frames { result.frames.frames ≡ [] }
    {
        let mut reports = mem::replace(&mut self.reports, Reports::new(alloc));
        reports.clear();
        let frames = mem::replace(&mut self.frames, Frames::new(alloc));
        Outcome {
            reports,
            frames: Outbox::within(alloc, frames),
        }
    }
}

/// Why a datagram is dropped. Nothing has changed then.
#[derive(Drop)]
pub enum Dropped {
    /// The bytes are no frame.
    NotFrame {
        /// The first fault, with its place.
        fault: FrameFault,
    },
    /// It is a frame, and it does not fit: it is for another broker, it does not come from where it should, or it
    /// brings a join of a subscriber that is not late.
    Stray {
        /// Where it says it comes from and goes to, and of which publisher it speaks.
        head: Head,
    },
    /// It fits, and of its joins and those that are held neither list begins with the other.
    Split {
        /// The least place, counted from 0, at which the two lists differ.
        at: u16,
        /// The join that is held there.
        kept: Join,
        /// The join that came there.
        came: Join,
    },
    /// It fits, its joins do not split from those that are held, and it clashes with what is known.
    Clash {
        /// The least tick at which it does, what is kept there and what came.
        clash: Clash,
    },
}

/// What becomes of a datagram.
#[derive(Drop)]
pub enum Received {
    /// The broker accepted it. This is what it reports and sends.
    Taken(Outcome),
    /// It was dropped.
    Dropped(Dropped),
}
