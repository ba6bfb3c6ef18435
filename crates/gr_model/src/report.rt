//! The lines of a report.

ghost use Rattle.std.specs.Prelude.{◌≡◌, ◌++◌, ◌∷◌, [], length, OnOk, OnErr};

use gr_curio::Q3;
use gr_event::{Bytes, Event, Join, Joins};
use gr_know::K;
use gr_tick::Piece;
use std::alloc::{AllocError, Global};
use std::marker::Model;

/// One line of a report. Brokers, publishers and subscribers are numbers from 0 in the order of the topology, and ticks
/// are milliseconds, at most 2^62.
#[derive(Drop)]
pub enum Report {
    /// A log that is not empty was opened.
    Opened {
        /// Which publisher.
        publisher: u16,
        /// The number of the last event, or 0.
        last: u64,
        /// The tick up to which nothing more is published, or 0.
        settled: u64,
        /// The tick up to which all was acknowledged, or 0.
        cut: u64,
    },
    /// A publish was logged at a tick.
    Logged {
        /// Which publisher.
        publisher: u16,
        /// The event's number among those of its publisher, from 1.
        number: u64,
        /// The event's tick.
        tick: u64,
    },
    /// A publish was there already.
    Already {
        /// Which publisher.
        publisher: u16,
        /// The event's number among those of its publisher, from 1.
        number: u64,
    },
    /// A publish skips the number `next`.
    Gap {
        /// Which publisher.
        publisher: u16,
        /// The number of the publish.
        number: u64,
        /// The number that is next.
        next: u64,
    },
    /// A publish's tick would pass the last tick.
    Exhausted {
        /// Which publisher.
        publisher: u16,
        /// The event's number among those of its publisher, from 1.
        number: u64,
    },
    /// A late subscriber joined a publisher.
    Joined {
        /// Which subscriber.
        subscriber: u16,
        /// Which publisher.
        publisher: u16,
        /// The publisher's tick past which the subscriber gets its events.
        tick: u64,
    },
    /// A late subscriber had joined already.
    AlreadyJoined {
        /// Which subscriber.
        subscriber: u16,
        /// Which publisher.
        publisher: u16,
    },
    /// A join's tick would pass the last tick.
    ExhaustedJoin {
        /// Which subscriber.
        subscriber: u16,
        /// Which publisher.
        publisher: u16,
    },
    /// After a stopped publish the log has it.
    Kept {
        /// Which publisher.
        publisher: u16,
        /// The event's number among those of its publisher, from 1.
        number: u64,
        /// The event's tick.
        tick: u64,
    },
    /// After a stopped publish the log does not have it.
    Lost {
        /// Which publisher.
        publisher: u16,
        /// The event's number among those of its publisher, from 1.
        number: u64,
        /// The tick that the event was to have.
        tick: u64,
    },
    /// A log was marked: there is silence up to the tick.
    Mark {
        /// Which publisher.
        publisher: u16,
        /// The tick up to which there is silence.
        tick: u64,
    },
    /// A log was cut: all up to the tick was acknowledged.
    Cut {
        /// Which publisher.
        publisher: u16,
        /// The tick up to which all was acknowledged.
        tick: u64,
    },
    /// A log was written anew, into its other lane.
    Reclaimed {
        /// Which publisher.
        publisher: u16,
        /// The generation of that lane, from 2.
        generation: u64,
    },
    /// A subscriber got an event.
    Got {
        /// Which subscriber.
        subscriber: u16,
        /// Which publisher.
        publisher: u16,
        /// The event's tick.
        tick: u64,
        /// The event.
        event: Event,
    },
    /// A subscriber's horizon moved.
    Horizon {
        /// Which subscriber.
        subscriber: u16,
        /// Which publisher.
        publisher: u16,
        /// Where it stands now.
        tick: u64,
    },
    /// An event is next in the one list of a subscriber over all publishers.
    Ordered {
        /// Which subscriber.
        subscriber: u16,
        /// Which publisher.
        publisher: u16,
        /// The event's tick.
        tick: u64,
        /// The event.
        event: Event,
    },
    /// A frame of knowledge was sent.
    SentKnow {
        /// The frame's number among all that were sent, from 1.
        number: u64,
        /// The broker that sent it.
        from: u16,
        /// The broker that is to get it.
        to: u16,
        /// The publisher of which it speaks.
        publisher: u16,
        /// What it says, tick by tick.
        runs: Piece<K>,
        /// The joins of late subscribers that its sender holds.
        joins: Joins,
    },
    /// A frame of curiosity was sent.
    SentWant {
        /// The frame's number among all that were sent, from 1.
        number: u64,
        /// The broker that sent it.
        from: u16,
        /// The broker that is to get it.
        to: u16,
        /// The publisher of which it speaks.
        publisher: u16,
        /// What it says, tick by tick.
        runs: Piece<Q3>,
    },
    /// A frame that tells what to expect was sent.
    SentExpect {
        /// The frame's number among all that were sent, from 1.
        number: u64,
        /// The broker that sent it.
        from: u16,
        /// The broker that is to get it.
        to: u16,
        /// The publisher of which it speaks.
        publisher: u16,
        /// The tick up to which all is to be asked for.
        tick: u64,
    },
    /// A broker was crashed and started again.
    Crashed {
        /// Which broker.
        broker: u16,
    },
    /// A sweep ended.
    Swept {
        /// Its last moment, in milliseconds.
        moment: u64,
    },
    /// The broker to be crashed hosts a subscriber.
    RefusedHosts {
        /// The number of the step's line.
        line: u32,
        /// Which broker.
        broker: u16,
    },
    /// There is no frame of this number.
    RefusedFrame {
        /// The number of the step's line.
        line: u32,
        /// The number that the step names.
        frame: u64,
        /// How many frames were sent so far.
        sent: u64,
    },
    /// A sweep's moment would pass the last tick.
    RefusedClock {
        /// The number of the step's line.
        line: u32,
        /// That moment, in milliseconds.
        moment: u64,
    },
    /// A datagram is no frame.
    DroppedNotFrame {
        /// The broker that dropped it.
        broker: u16,
        /// The fault's number, from 1 to 10.
        fault: u8,
        /// The place of the fault, counted from 0 in bytes.
        at: u64,
    },
    /// A datagram is a frame that does not fit.
    DroppedStray {
        /// The broker that dropped it.
        broker: u16,
        /// The broker that it says it is from.
        from: u16,
        /// The broker that it says it is for.
        to: u16,
        /// The publisher of which it speaks.
        publisher: u16,
    },
    /// A datagram's joins split from those that are held.
    DroppedSplit {
        /// The broker that dropped it.
        broker: u16,
        /// The first place, counted from 0, at which the two lists have different joins.
        at: u16,
        /// The join that is held there.
        kept: Join,
        /// The join that came.
        came: Join,
    },
    /// A datagram clashes with what is known.
    DroppedClash {
        /// The broker that dropped it.
        broker: u16,
        /// The least tick at which it clashes.
        tick: u64,
        /// What is known there.
        kept: K,
        /// What came.
        came: K,
    },
    /// A datagram begins as a note, and is none.
    DroppedBadNote {
        /// The broker that dropped it.
        broker: u16,
        /// The fault's number, from 1 to 7.
        fault: u8,
        /// The place of the fault, counted from 0 in bytes.
        at: u64,
    },
    /// A note is no Submit, or none of a client of the broker.
    DroppedStrayNote {
        /// The broker that dropped it.
        broker: u16,
        /// The publisher of which it speaks.
        publisher: u16,
    },
    /// A lane holds no log.
    Damaged {
        /// Which publisher.
        publisher: u16,
        /// The place of the first byte that breaks it, counted from 0.
        at: u64,
    },
    /// How many frames were sent so far.
    Frames {
        /// How many.
        count: u64,
    },
    /// A publisher's log.
    LogOf {
        /// Which publisher.
        publisher: u16,
        /// The number of the last event, or 0.
        last: u64,
        /// The tick up to which nothing more is published, or 0.
        settled: u64,
        /// The tick up to which all was acknowledged, or 0.
        cut: u64,
        /// How many events are kept past the cut.
        kept: u64,
    },
    /// A broker's horizon for a publisher.
    Doubt {
        /// Which broker.
        broker: u16,
        /// Which publisher.
        publisher: u16,
        /// The horizon.
        tick: u64,
    },
    /// The bytes of a frame.
    BytesOf {
        /// The frame's number, from 1.
        frame: u64,
        /// Its bytes.
        bytes: Bytes,
    },
}

/// A list of report lines, seen as it is.
#[derive(Drop)]
pub struct Reports {
    lines: Vec<Report>,
}

impl Model for Reports {
    ghost use Rattle.std.specs.Prelude.{List};
    ghost use Rattle.gr_model.specs.declared.report.Report.{Report};

    ghost Value = { List Report };

    ghost view = { λ r. r.lines.items };
}

impl Reports {
    /// No lines. Takes no memory.
    pub fn new(alloc: Global) -> Reports
        ensures { result ≡ [] }
    {
        Reports {
            lines: Vec::new(alloc),
        }
    }

    /// Puts a line at the end. At want of memory the list stays as it was, and the line is dropped.
    pub fn push(&mut self, line: Report) -> Result<(), AllocError>
        ensures ok { OnOk result (self.new ≡ self.old ++ line ∷ []) }
        ensures err { OnErr result (self.new ≡ self.old) }
    {
        self.lines.push(line)?;
        Ok(())
    }

    /// Moves the lines of another list to the end. At want of memory both are as they were.
    pub fn append(&mut self, others: &mut Reports) -> Result<(), AllocError>
        ensures ok { OnOk result (self.new ≡ self.old ++ others.old) }
        ensures emptied { OnOk result (others.new ≡ []) }
        ensures err { OnErr result (self.new ≡ self.old) }
        ensures kept { OnErr result (others.new ≡ others.old) }
    {
        self.lines.append(&mut others.lines)
    }

    /// Drops all lines, and keeps the room that the list has. Takes no memory.
    pub fn clear(&mut self)
        ensures { self.new ≡ [] }
    {
        self.lines.clear();
    }

    /// How many lines there are.
    pub fn len(&self) -> usize
        ensures { result ≡ length self.now }
    {
        self.lines.len()
    }

    /// Its lines, in order.
    pub fn as_slice(&self) -> &[Report]
        ensures { result.now ≡ self.now }
    {
        &self.lines
    }
}
