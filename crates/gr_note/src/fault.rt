//! Why bytes are no note.

ghost use Rattle.std.specs.Prelude.{◌≡◌, ◌≤◌, IfSome, slice_get};
ghost use Rattle.gr_note.specs.Fault.{fault_number, fault_word, fault_kinds};

use std::alloc::{AllocError, AllocFailed};
use std::error::Error;
use std::fmt;

/// The first fault of bytes that are no note.
#[derive(Clone, Copy, Debug, PartialEq, Eq)]
pub struct NoteFault {
    /// What is wrong.
    pub kind: NoteKind,
    /// The place, counted from 0 in bytes; 0 for `Memory`.
    pub at: usize,
}

/// What is wrong, and at which place.
#[derive(Clone, Copy, Debug, PartialEq, Eq)]
pub enum NoteKind {
    /// No memory was given.
    Memory,
    /// The bytes end within a field; the place is their number.
    Short,
    /// The first two bytes are not `GP`.
    BadMagic,
    /// The version is not 1.
    BadVersion,
    /// The kind of the note is none of the table.
    BadKind,
    /// A number is outside its limits.
    BadRange,
    /// The bytes from the place on are no event.
    BadEvent,
    /// Bytes are left from the place on.
    Trailing,
}

impl NoteKind {
    /// Its number: 0 for `Memory`, and from 1 to 7 for the others.
    pub fn number(self) -> u8
        ensures number { result ≡ fault_number self }
        ensures most { result ≤ 7 }
    {
        match self {
            NoteKind::Memory => 0,
            NoteKind::Short => 1,
            NoteKind::BadMagic => 2,
            NoteKind::BadVersion => 3,
            NoteKind::BadKind => 4,
            NoteKind::BadRange => 5,
            NoteKind::BadEvent => 6,
            NoteKind::Trailing => 7,
        }
    }

    /// The fault with a number, or None above 7.
    pub fn from_number(number: u8) -> Option<NoteKind>
        ensures kind { result ≡ slice_get fault_kinds number }
        ensures number { IfSome result (λ k. fault_number k ≡ number) }
    {
        match number {
            0 => Some(NoteKind::Memory),
            1 => Some(NoteKind::Short),
            2 => Some(NoteKind::BadMagic),
            3 => Some(NoteKind::BadVersion),
            4 => Some(NoteKind::BadKind),
            5 => Some(NoteKind::BadRange),
            6 => Some(NoteKind::BadEvent),
            7 => Some(NoteKind::Trailing),
            _ => None,
        }
    }

    /// Its word in a report, without the place.
    pub fn word(self) -> &'static str
        ensures { result.now ≡ fault_word self }
    {
        match self {
            NoteKind::Memory => "memory",
            NoteKind::Short => "short",
            NoteKind::BadMagic => "bad-magic",
            NoteKind::BadVersion => "bad-version",
            NoteKind::BadKind => "bad-kind",
            NoteKind::BadRange => "bad-range",
            NoteKind::BadEvent => "bad-event",
            NoteKind::Trailing => "trailing",
        }
    }
}

impl fmt::Display for NoteFault {
    fn fmt<W: fmt::Write>(&self, f: &mut fmt::Formatter<W>) -> fmt::Result {
        let word = self.kind.word();
        let at = self.at;
        write!(f, "{word} {at}")
    }
}

impl Error for NoteFault {}

impl From<AllocError> for NoteFault {
    ghost use Rattle.std.specs.Prelude.{◌≡◌};
    ghost use Rattle.gr_note.specs.Gives.{out_of_memory};

    ghost from_gives = { λ _ e. e ≡ out_of_memory };

    fn from(_refused: AllocError) -> NoteFault {
        NoteFault {
            kind: NoteKind::Memory,
            at: 0,
        }
    }
}

impl<T: Drop> From<AllocFailed<T>> for NoteFault {
    ghost use Rattle.std.specs.Prelude.{◌≡◌};
    ghost use Rattle.gr_note.specs.Gives.{out_of_memory};

    ghost from_gives = { λ _ e. e ≡ out_of_memory };

    fn from(_refused: AllocFailed<T>) -> NoteFault {
        NoteFault {
            kind: NoteKind::Memory,
            at: 0,
        }
    }
}
