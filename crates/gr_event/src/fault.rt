//! Why bytes or a JSON value are no event: the number and the word of each fault.

ghost use Rattle.std.specs.Prelude.{◌≡◌, ◌≤◌, ◌<◌, ◌≢◌};
ghost use Rattle.gr_event.specs.Fault.{fault_number, fault_word};
ghost use Rattle.gr_event.specs.declared.event.EventFault.TheVariants.{Memory};

use crate::event::EventFault;
use std::error::Error;
use std::fmt;

impl EventFault {
    /// Its number: 0 for `Memory`, and from 1 to 12 for the others.
    pub fn number(&self) -> u8
        ensures number { result ≡ fault_number self.now }
        ensures most { result ≤ 12 }
        ensures least { self.now ≢ Memory → 0 < result }
    {
        match self {
            EventFault::Memory => 0,
            EventFault::NotObject => 1,
            EventFault::BadName => 2,
            EventFault::BadValue => 3,
            EventFault::TooMany => 4,
            EventFault::TooLong => 5,
            EventFault::Short { .. } => 6,
            EventFault::BadKind { .. } => 7,
            EventFault::NotSorted { .. } => 8,
            EventFault::Trailing { .. } => 9,
            EventFault::NotJson => 10,
            EventFault::BadText { .. } => 11,
            EventFault::BadLength { .. } => 12,
        }
    }

    /// Its word in a report, without the place.
    pub fn word(&self) -> &'static str
        ensures { result.now ≡ fault_word self.now }
    {
        match self {
            EventFault::Memory => "memory",
            EventFault::NotObject => "not-object",
            EventFault::BadName => "bad-name",
            EventFault::BadValue => "bad-value",
            EventFault::TooMany => "too-many",
            EventFault::TooLong => "too-long",
            EventFault::Short { .. } => "short",
            EventFault::BadKind { .. } => "bad-kind",
            EventFault::NotSorted { .. } => "not-sorted",
            EventFault::Trailing { .. } => "trailing",
            EventFault::NotJson => "not-json",
            EventFault::BadText { .. } => "bad-text",
            EventFault::BadLength { .. } => "bad-length",
        }
    }
}

impl fmt::Display for EventFault {
    fn fmt<W: fmt::Write>(&self, f: &mut fmt::Formatter<W>) -> fmt::Result {
        f.write_str(self.word())
    }
}

impl Error for EventFault {}
