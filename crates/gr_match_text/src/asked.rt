//! What the bytes of a source ask.

use crate::event_list::EventList;
use crate::filter_list::FilterList;
use gr_event::Text;

/// What the bytes of a source ask.
#[derive(Drop)]
pub enum Asked {
    /// They are more than a source may have.
    TooManyBytes,
    /// They have more counted lines behind the separator than a source may have.
    TooManyLines,
    /// They are no match text; with the line that says why, without its LF.
    Refused(Text),
    /// They are a match text: for each event the names of the filters that match it are to be printed.
    Matching {
        filters: FilterList,
        events: EventList,
    },
}
