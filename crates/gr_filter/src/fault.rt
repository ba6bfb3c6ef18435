//! Why a text is no filter.

ghost use Rattle.std.specs.Prelude.{◌≡◌, ◌≤◌};
ghost use Rattle.gr_filter.specs.Fault.{fault_number, fault_word, fault_place};

use crate::parser::MAX_FILTER_BYTES;
use std::alloc::{AllocError, AllocFailed};
use std::error::Error;
use std::fmt;

/// No memory was given.
pub type Memory = AllocError;

/// Why a text is no filter; `at` is the place of the fault in bytes.
#[derive(Clone, Copy, Debug, PartialEq, Eq)]
pub enum FilterFault {
    /// No memory was given.
    Memory,
    /// No token begins at `at`, or a text has no end or is not UTF-8.
    BadToken { at: usize },
    /// The token at `at` does not fit; at the end `at` is the text's length.
    Expected { at: usize },
    /// The parenthesis or NOT at `at` nests more than 64 deep.
    TooDeep { at: usize },
    /// The text has more than 4,096 bytes.
    TooLong,
    /// The integer at `at` has more than 64 bits.
    NumberRange { at: usize },
}

impl FilterFault {
    /// Its number: 0 for `Memory`, and from 1 to 5 for the others.
    pub fn number(&self) -> u8
        ensures number { result ≡ fault_number self.now }
        ensures most { result ≤ 5 }
    {
        match self {
            FilterFault::Memory => 0,
            FilterFault::BadToken { .. } => 1,
            FilterFault::Expected { .. } => 2,
            FilterFault::TooDeep { .. } => 3,
            FilterFault::TooLong => 4,
            FilterFault::NumberRange { .. } => 5,
        }
    }

    /// Its word in a report, without the place.
    pub fn word(&self) -> &'static str
        ensures { result.now ≡ fault_word self.now }
    {
        match self {
            FilterFault::Memory => "memory",
            FilterFault::BadToken { .. } => "bad-token",
            FilterFault::Expected { .. } => "expected",
            FilterFault::TooDeep { .. } => "too-deep",
            FilterFault::TooLong => "too-long",
            FilterFault::NumberRange { .. } => "number-range",
        }
    }

    /// Its place in a report, in bytes of the filter's text: for `TooLong` the greatest length, and 0 for `Memory`.
    pub fn place(&self) -> usize
        ensures { result ≡ fault_place self.now }
    {
        match self {
            FilterFault::Memory => 0,
            FilterFault::TooLong => MAX_FILTER_BYTES,
            FilterFault::BadToken { at }
            | FilterFault::Expected { at }
            | FilterFault::TooDeep { at }
            | FilterFault::NumberRange { at } => *at,
        }
    }
}

impl fmt::Display for FilterFault {
    fn fmt<W: fmt::Write>(&self, f: &mut fmt::Formatter<W>) -> fmt::Result {
        f.write_str(self.word())
    }
}

impl Error for FilterFault {}

impl From<AllocError> for FilterFault {
    ghost use Rattle.std.specs.Prelude.{◌≡◌};
    ghost use Rattle.gr_filter.specs.declared.fault.FilterFault.TheVariants.{Memory as OutOfMemory};

    ghost from_gives = { λ _ e. e ≡ OutOfMemory };

    fn from(_refused: AllocError) -> FilterFault {
        FilterFault::Memory
    }
}

impl<T: Drop> From<AllocFailed<T>> for FilterFault {
    ghost use Rattle.std.specs.Prelude.{◌≡◌};
    ghost use Rattle.gr_filter.specs.declared.fault.FilterFault.TheVariants.{Memory as OutOfMemory};

    ghost from_gives = { λ _ e. e ≡ OutOfMemory };

    fn from(_refused: AllocFailed<T>) -> FilterFault {
        FilterFault::Memory
    }
}
