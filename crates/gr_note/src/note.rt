//! What a publisher's process and the host of its log tell each other.

use gr_event::Event;

/// A note about one publisher, by its number.
#[derive(Drop)]
pub enum Note {
    /// The process submits its event with this number, from 1 to 2^62.
    Submit {
        publisher: u16,
        number: u64,
        event: Event,
    },
    /// The host waits for the event with this number, from 1 to 2^62 + 1; all before it are logged.
    Next {
        publisher: u16,
        next: u64,
    },
    /// The host has no tick left for the publisher's events.
    Spent {
        publisher: u16,
    },
}
