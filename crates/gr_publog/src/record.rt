//! Records, what they stand for, what a lane begins with, and the faults of a log.

ghost use Rattle.std.specs.Prelude.{◌≡◌, []};
ghost use Rattle.gr_publog.specs.State.{no_numbers, noted, may_settle, may_cut};
ghost use Rattle.gr_publog.specs.State.{numbers};
ghost use Rattle.gr_publog.specs.Text.{begun};
ghost use Rattle.gr_publog.specs.declared.record.LogFault.TheVariants.{Memory as WantOfMemory};

use gr_event::{Event, Joins};
use std::alloc::{AllocError, AllocFailed};

/// Want of memory.
pub type Memory = AllocError;

/// The last tick, 2^62.
pub const MAX_TICK: u64 = 1 << 62;

/// A record of a log. Ticks are milliseconds, from 1 to 2^62.
#[derive(Drop)]
pub enum Record {
    /// An event was published at a tick. Numbers rise by one from 1.
    Event {
        /// The tick, past every Event, Mark and Join before.
        tick: u64,
        /// Its number among the events of the publisher.
        number: u64,
        /// What was published.
        event: Event,
    },
    /// Nothing more is published up to a tick.
    Mark {
        /// The tick, past every Event, Mark and Join before.
        tick: u64,
    },
    /// Nothing up to a tick is asked for again.
    Cut {
        /// The tick, past every Cut before and not past the last Event, Mark or Join.
        tick: u64,
    },
    /// A late subscriber joins, and nothing more is published up to a tick.
    Join {
        /// The tick, past every Event, Mark and Join before.
        tick: u64,
        /// The number of the subscriber in its topology. It has not joined before.
        subscriber: u16,
    },
}

/// A logged event.
#[derive(Drop)]
pub struct Entry {
    /// The tick at which it was published.
    pub tick: u64,
    /// Its number among the events of the publisher, from 1.
    pub number: u64,
    /// What was published.
    pub event: Event,
}

/// With what a lane of the second version begins.
#[derive(Drop)]
pub struct Base {
    /// The generation, from 1 to 2^62. Of two lanes the one with the greater generation is present.
    pub generation: u64,
    /// The number of the last event before the first record, or 0. At most the cut.
    pub last: u64,
    /// What is settled and cut before the first record, from 0 to 2^62.
    pub cut: u64,
    /// The joins up to the cut.
    pub joins: Joins,
}

impl Base {
    /// The numbers that it stands for.
    pub fn numbers(&self) -> State
        ensures { result ≡ numbers (begun [] self.now) }
    {
        State {
            last: self.last,
            settled: self.cut,
            cut: self.cut,
        }
    }
}

/// Why a log could not be opened or written.
#[derive(Clone, Copy, Debug, PartialEq, Eq)]
pub enum LogFault {
    /// Want of memory.
    Memory,
    /// The disk failed.
    Disk,
    /// The lanes hold no log.
    Damaged {
        /// The first byte, from 0 and in its lane, of the first field that breaks it.
        at: u64,
    },
    /// The disk failed before. The log has to be opened again.
    Reopen,
}

impl From<AllocError> for LogFault {
    ghost from_gives = { λ _ e. e ≡ WantOfMemory };

    fn from(_refused: AllocError) -> LogFault {
        LogFault::Memory
    }
}

impl<T: Drop> From<AllocFailed<T>> for LogFault {
    ghost from_gives = { λ _ e. e ≡ WantOfMemory };

    fn from(_refused: AllocFailed<T>) -> LogFault {
        LogFault::Memory
    }
}

/// The numbers that records stand for.
#[derive(Clone, Copy, Debug, PartialEq, Eq)]
pub struct State {
    /// The number of the last event, or 0.
    pub last: u64,
    /// The greatest tick of an Event, a Mark or a Join, or 0.
    pub settled: u64,
    /// The tick of the last Cut, or 0.
    pub cut: u64,
}

impl State {
    /// Before the first record.
    pub fn new() -> State
        ensures { result ≡ no_numbers }
    {
        State {
            last: 0,
            settled: 0,
            cut: 0,
        }
    }

    /// Notes one more record.
    pub fn note(&mut self, entry: &Record)
        ensures { self.new ≡ noted self.old entry.now }
    {
        match entry {
            Record::Event { tick, number, .. } => {
                self.last = *number;
                self.settled = *tick;
            }
            Record::Mark { tick } => self.settled = *tick,
            Record::Cut { tick } => self.cut = *tick,
            Record::Join { tick, .. } => self.settled = *tick,
        }
    }

    /// Whether an Event, a Mark or a Join may have this tick.
    pub fn may_settle(&self, tick: u64) -> bool
        ensures { result ≡ may_settle self.now tick }
    {
        self.settled < tick && tick <= MAX_TICK
    }

    /// Whether a Cut may have this tick.
    pub fn may_cut(&self, tick: u64) -> bool
        ensures { result ≡ may_cut self.now tick }
    {
        self.cut < tick && tick <= self.settled
    }
}
