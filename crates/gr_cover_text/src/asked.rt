//! What the bytes of a source ask.

use gr_event::Text;
use gr_match_text::FilterList;

/// What the bytes of a source ask.
#[derive(Drop)]
pub enum Asked {
    /// They are more than a source may have.
    TooManyBytes,
    /// They have more counted lines behind the separator than a source may have.
    TooManyLines,
    /// They are no match text, have too many filters or have an event; with the line that says why, without its LF.
    Refused(Text),
    /// They are filters: for each two of them it is to be printed whether the one covers the other.
    Covering { filters: FilterList },
}
