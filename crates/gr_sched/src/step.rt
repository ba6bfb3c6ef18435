//! The steps of a schedule.

ghost use Rattle.std.specs.Prelude.{◌≡◌, ◌∷◌, ◌++◌, [], length, OnOk, OnErr};

use gr_event::Event;
use std::alloc::{AllocError, Global};
use std::marker::Model;

/// The greatest moment, publish number and frame number that a step may name.
pub const MAX_NUMBER: u64 = 1 << 62;

/// How many counted lines a schedule may have.
pub const MAX_STEPS: u64 = 100_000;

/// How many bytes a schedule may have.
pub const MAX_INPUT_BYTES: usize = 4_194_304;

/// Where a publish is stopped inside: at the disk call `call`, counted from 1 to 4, and which image the crash leaves.
#[derive(Clone, Copy, Debug, PartialEq, Eq)]
pub struct Stop {
    /// Which disk call of the publish breaks, from 1 to 4.
    pub call: u8,
    /// Which of the images that the crash may leave is the one it leaves.
    pub pick: u8,
}

/// One step of a schedule. Brokers, publishers and subscribers are numbers; moments are milliseconds.
#[derive(Drop)]
pub enum Step {
    /// The clock is set to a moment.
    Clock {
        /// The moment, from 0 to `MAX_NUMBER`.
        now: u64,
    },
    /// An event is published at the broker that hosts its publisher.
    Publish {
        /// Which publisher.
        publisher: u16,
        /// Which of its events this is, from 1 to `MAX_NUMBER`.
        number: u64,
        /// Where the publish is stopped inside, if it is.
        stop: Option<Stop>,
        /// What is published.
        event: Event,
    },
    /// A broker wakes, and does what is due at this moment.
    Wake {
        /// Which broker.
        broker: u16,
    },
    /// A frame that was sent arrives. Frames may arrive in any order, more than once, or never.
    Deliver {
        /// The frame's number, at most `MAX_NUMBER`.
        frame: u64,
    },
    /// A broker loses its memory, and starts again from its disk.
    Crash {
        /// Which broker.
        broker: u16,
    },
    /// All brokers are woken and all frames delivered until everything is settled.
    Sweep,
    /// Prints how far each broker is.
    Show,
    /// Prints the bytes of a frame that was sent.
    Bytes {
        /// The frame's number, at most `MAX_NUMBER`.
        frame: u64,
    },
    /// A late subscriber joins a publisher: from then on it wants the publisher's events.
    Join {
        /// Which subscriber.
        subscriber: u16,
        /// Which publisher.
        publisher: u16,
    },
}

/// A step with the number of its line, from 1 at the first line after the separator.
#[derive(Drop)]
pub struct Line {
    /// The number of the line.
    pub number: u32,
    /// What the line says.
    pub step: Step,
}

/// A list of lines, seen as it is.
#[derive(Drop)]
pub struct Steps {
    lines: Vec<Line>,
}

impl Model for Steps {
    ghost use Rattle.std.specs.Prelude.{List};
    ghost use Rattle.gr_sched.specs.declared.step.Line.{Line};

    ghost Value = { List Line };

    ghost view = { λ s. s.lines.items };
}

impl Steps {
    /// No lines.
    pub fn new(alloc: Global) -> Steps
        ensures { result ≡ [] }
    {
        Steps {
            lines: Vec::new(alloc),
        }
    }

    /// One more line at the end. At want of memory the lines are as they were.
    #[inline(always)]
    pub fn push(&mut self, line: Line) -> Result<(), AllocError>
        ensures pushed { OnOk result (self.new ≡ self.old ++ line ∷ []) }
        ensures unchanged { OnErr result (self.new ≡ self.old) }
    {
        self.lines.push(line)?;
        Ok(())
    }

    /// How many lines there are.
    pub fn len(&self) -> usize
        ensures { result ≡ length self.now }
    {
        self.lines.len()
    }

    /// The lines.
    pub fn as_slice(&self) -> &[Line]
        ensures { result.now ≡ self.now }
    {
        self.lines.as_slice()
    }
}

/// The names that a schedule may use.
pub trait Names {
    ghost use Rattle.std.specs.Prelude.{◌≡◌};
    ghost use Rattle.gr_sched.specs.Naming.{Naming};

    /// The numbers of brokers, of publishers and of late subscribers by their names.
    ghost naming: { Self → Naming };

    /// The broker of this name, or None where there is none.
    fn broker(&self, name: &[u8]) -> Option<u16>
        ensures { result ≡ (naming self.now).broker name.now };

    /// The publisher of this name, or None where there is none.
    fn publisher(&self, name: &[u8]) -> Option<u16>
        ensures { result ≡ (naming self.now).publisher name.now };

    /// The late subscriber of this name, or None where there is none: no other subscriber can join.
    fn subscriber(&self, name: &[u8]) -> Option<u16>
        ensures { result ≡ (naming self.now).joiner name.now };
}
