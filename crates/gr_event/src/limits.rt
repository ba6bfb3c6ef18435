//! The limits of events, and of lists of joins.

/// How many names an event has at most.
pub const MAX_PAIRS: usize = 32;

/// How many bytes a name has at most.
pub const MAX_NAME: usize = 64;

/// How many bytes a text value has at most.
pub const MAX_TEXT: usize = 1_024;

/// How many bytes the form in bytes has at most.
pub const MAX_EVENT_BYTES: usize = 8_192;

/// How many joins a list has at most.
pub const MAX_JOINS: usize = 64;

/// The last tick that a join can have: the last of all ticks.
pub const MAX_JOIN_TICK: u64 = 1 << 62;
