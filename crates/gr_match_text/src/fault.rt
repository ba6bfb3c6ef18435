//! Why lines are no match text.

use gr_event::EventFault;
use gr_filter::FilterFault;
use std::alloc::AllocError;

/// Why lines are no match text. Lines count from 1 at the first line of the whole text.
pub(crate) enum MatchFault {
    /// Memory was refused.
    Memory,
    /// The text behind the name is no filter.
    BadFilter {
        /// The line.
        line: u64,
        /// Why it is none; never `Memory`.
        fault: FilterFault,
    },
    /// The line is no event.
    BadEvent {
        /// The line.
        line: u64,
        /// Why it is none; never `Memory`.
        fault: EventFault,
    },
    /// This filter is one more than `MAX_FILTERS`.
    TooMany {
        /// The line.
        line: u64,
    },
    /// The first word is no name.
    BadName {
        /// The line.
        line: u64,
    },
    /// A filter before it has the same name.
    Twice {
        /// The line.
        line: u64,
    },
}

impl From<AllocError> for MatchFault {
    ghost use Rattle.std.specs.Prelude.{◌≡◌};
    ghost use Rattle.gr_match_text.specs.declared.fault.MatchFault.TheVariants.{Memory};

    ghost from_gives = { λ _ e. e ≡ Memory };

    fn from(_refused: AllocError) -> MatchFault {
        MatchFault::Memory
    }
}
