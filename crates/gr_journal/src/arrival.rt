//! What comes to a process.

ghost use Rattle.std.specs.Prelude.{◌≡◌, ◌∷◌, ◌++◌, [], OnOk, OnErr};

use gr_event::Bytes;
use std::alloc::{AllocError, Global};
use std::marker::Model;

/// How many bytes of a datagram a process takes.
pub const MAX_DATAGRAM: usize = 65_535;

/// What comes to a process.
#[derive(Drop)]
pub enum Arrival {
    /// A quiet moment.
    Quiet {
        moment: u64,
    },
    /// A datagram to a broker, at a moment.
    Datagram {
        broker: u16,
        moment: u64,
        bytes: Bytes,
    },
}

/// An arrival with its line.
#[derive(Drop)]
pub struct Came {
    /// The number of its line.
    pub line: u32,
    /// What came.
    pub arrival: Arrival,
}

/// The arrivals of a journal in order, seen as a list.
#[derive(Drop)]
pub struct CameList {
    came: Vec<Came>,
}

impl Model for CameList {
    ghost use Rattle.std.specs.Prelude.{List};
    ghost use Rattle.gr_journal.specs.declared.arrival.Came.{Came};

    ghost Value = { List Came };

    ghost view = { λ l. l.came.items };
}

impl CameList {
    /// No arrivals. Takes no memory.
    pub(crate) fn new(alloc: Global) -> CameList
        ensures { result ≡ [] }
    {
        CameList {
            came: Vec::new(alloc),
        }
    }

    /// One more arrival at the end. At want of memory the list stays as it was.
    pub(crate) fn push(&mut self, came: Came) -> Result<(), AllocError>
        ensures ok { OnOk result (self.new ≡ self.old ++ came ∷ []) }
        ensures err { OnErr result (self.new ≡ self.old) }
    {
        self.came.push(came)?;
        Ok(())
    }

    /// The arrivals.
    pub fn as_slice(&self) -> &[Came]
        ensures { result.now ≡ self.now }
    {
        self.came.as_slice()
    }
}
