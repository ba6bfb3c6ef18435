//! Why bytes are no frame.

ghost use Rattle.std.specs.Prelude.{◌≡◌, ◌≤◌, IfSome, slice_get};
ghost use Rattle.gr_frame.specs.Fault.{fault_number, fault_word, fault_kinds};

use std::alloc::{AllocError, AllocFailed};
use std::error::Error;
use std::fmt;

/// The first fault of bytes that are no frame.
#[derive(Clone, Copy, Debug, PartialEq, Eq)]
pub struct FrameFault {
    /// What is wrong.
    pub kind: FrameKind,
    /// The place, counted from 0 in bytes; 0 for `Memory`.
    pub at: usize,
}

/// What is wrong, and at which place.
#[derive(Clone, Copy, Debug, PartialEq, Eq)]
pub enum FrameKind {
    /// No memory was given.
    Memory,
    /// The bytes end within a field; the place is their number.
    Short,
    /// The first two bytes are not `GK`.
    BadMagic,
    /// The version is neither 1 nor 2.
    BadVersion,
    /// The kind of the frame, or of a run's value, is none that there is; in version 2 the only kind of frame is
    /// knowledge.
    BadKind,
    /// A count or a tick is outside its limits.
    BadRange,
    /// A run does not lie above the one before, or only goes on with it; the place is the run's.
    BadOrder,
    /// The bytes from the place on are no event.
    BadEvent,
    /// Bytes are left from the place on.
    Trailing,
    /// There are more than 16,384 bytes; the place is 16,384.
    TooLong,
    /// The number of joins, or one of them, breaks the rules of their list; the place is the field's.
    BadJoins,
}

impl FrameKind {
    /// Its number: 0 for `Memory`, and from 1 to 10 for the others.
    pub fn number(self) -> u8
        ensures number { result ≡ fault_number self }
        ensures most { result ≤ 10 }
    {
        match self {
            FrameKind::Memory => 0,
            FrameKind::Short => 1,
            FrameKind::BadMagic => 2,
            FrameKind::BadVersion => 3,
            FrameKind::BadKind => 4,
            FrameKind::BadRange => 5,
            FrameKind::BadOrder => 6,
            FrameKind::BadEvent => 7,
            FrameKind::Trailing => 8,
            FrameKind::TooLong => 9,
            FrameKind::BadJoins => 10,
        }
    }

    /// The fault with a number, or None above 10.
    pub fn from_number(number: u8) -> Option<FrameKind>
        ensures kind { result ≡ slice_get fault_kinds number }
        ensures number { IfSome result (λ k. fault_number k ≡ number) }
    {
        match number {
            0 => Some(FrameKind::Memory),
            1 => Some(FrameKind::Short),
            2 => Some(FrameKind::BadMagic),
            3 => Some(FrameKind::BadVersion),
            4 => Some(FrameKind::BadKind),
            5 => Some(FrameKind::BadRange),
            6 => Some(FrameKind::BadOrder),
            7 => Some(FrameKind::BadEvent),
            8 => Some(FrameKind::Trailing),
            9 => Some(FrameKind::TooLong),
            10 => Some(FrameKind::BadJoins),
            _ => None,
        }
    }

    /// Its word in a report, without the place.
    pub fn word(self) -> &'static str
        ensures { result.now ≡ fault_word self }
    {
        match self {
            FrameKind::Memory => "memory",
            FrameKind::Short => "short",
            FrameKind::BadMagic => "bad-magic",
            FrameKind::BadVersion => "bad-version",
            FrameKind::BadKind => "bad-kind",
            FrameKind::BadRange => "bad-range",
            FrameKind::BadOrder => "bad-order",
            FrameKind::BadEvent => "bad-event",
            FrameKind::Trailing => "trailing",
            FrameKind::TooLong => "too-long",
            FrameKind::BadJoins => "bad-joins",
        }
    }
}

impl fmt::Display for FrameFault {
    fn fmt<W: fmt::Write>(&self, f: &mut fmt::Formatter<W>) -> fmt::Result {
        let word = self.kind.word();
        let at = self.at;
        write!(f, "{word} {at}")
    }
}

impl Error for FrameFault {}

impl From<AllocError> for FrameFault {
    ghost use Rattle.std.specs.Prelude.{◌≡◌};
    ghost use Rattle.gr_frame.specs.Gives.{out_of_memory};

    ghost from_gives = { λ _ e. e ≡ out_of_memory };

    fn from(_refused: AllocError) -> FrameFault {
        FrameFault {
            kind: FrameKind::Memory,
            at: 0,
        }
    }
}

impl<T: Drop> From<AllocFailed<T>> for FrameFault {
    ghost use Rattle.std.specs.Prelude.{◌≡◌};
    ghost use Rattle.gr_frame.specs.Gives.{out_of_memory};

    ghost from_gives = { λ _ e. e ≡ out_of_memory };

    fn from(_refused: AllocFailed<T>) -> FrameFault {
        FrameFault {
            kind: FrameKind::Memory,
            at: 0,
        }
    }
}
