//! Why lines are no schedule.

ghost use Rattle.std.specs.Prelude.{◌≡◌, ◌≤◌};
ghost use Rattle.gr_sched.specs.Fault.{fault_number, fault_word};

use gr_event::EventFault;
use std::alloc::{AllocError, AllocFailed};
use std::error::Error;
use std::fmt;

/// Why there are no steps. Lines count from 1 at the first line after the separator.
#[derive(Clone, Copy, Debug, PartialEq, Eq)]
pub enum StepFault {
    /// Memory was refused.
    Memory,
    /// No step word, an unknown name, a missing word, a word too many, or `pick` not in its place.
    BadWord { line: u32 },
    /// A word in a number's place that is no number in its range.
    BadNumber { line: u32 },
    /// The event of a publish is no event; the fault is never `Memory`.
    BadEvent { line: u32, fault: EventFault },
    /// There are more than `MAX_STEPS` counted lines; this is the first past them.
    TooMany { line: u32 },
}

impl StepFault {
    /// Its number: 0 for `Memory`, and from 1 to 4 for the others.
    pub fn number(&self) -> u8
        ensures number { result ≡ fault_number self.now }
        ensures most { result ≤ 4 }
    {
        match self {
            StepFault::Memory => 0,
            StepFault::BadWord { .. } => 1,
            StepFault::BadNumber { .. } => 2,
            StepFault::BadEvent { .. } => 3,
            StepFault::TooMany { .. } => 4,
        }
    }

    /// Its word in a report, without the line.
    pub fn word(&self) -> &'static str
        ensures { result.now ≡ fault_word self.now }
    {
        match self {
            StepFault::Memory => "memory",
            StepFault::BadWord { .. } => "bad-word",
            StepFault::BadNumber { .. } => "bad-number",
            StepFault::BadEvent { .. } => "bad-event",
            StepFault::TooMany { .. } => "too-many",
        }
    }
}

impl fmt::Display for StepFault {
    /// Its word, its line, and the word of an event's fault.
    fn fmt<W: fmt::Write>(&self, f: &mut fmt::Formatter<W>) -> fmt::Result {
        let word = self.word();
        match self {
            StepFault::Memory => f.write_str(word),
            StepFault::BadWord { line }
            | StepFault::BadNumber { line }
            | StepFault::TooMany { line } => write!(f, "{word} line {line}"),
            StepFault::BadEvent { line, fault } => write!(f, "{word} line {line} {fault}"),
        }
    }
}

impl Error for StepFault {}

impl From<AllocError> for StepFault {
    ghost use Rattle.std.specs.Prelude.{◌≡◌};
    ghost use Rattle.gr_sched.specs.declared.fault.StepFault.TheVariants.{Memory};

    ghost from_gives = { λ _ e. e ≡ Memory };

    fn from(_refused: AllocError) -> StepFault {
        StepFault::Memory
    }
}

impl<T: Drop> From<AllocFailed<T>> for StepFault {
    ghost use Rattle.std.specs.Prelude.{◌≡◌};
    ghost use Rattle.gr_sched.specs.declared.fault.StepFault.TheVariants.{Memory};

    ghost from_gives = { λ _ e. e ≡ Memory };

    fn from(_refused: AllocFailed<T>) -> StepFault {
        StepFault::Memory
    }
}
