//! A join, and where two lists of joins differ.

/// That a late subscriber has joined a publisher: it wants the publisher's events past this tick.
#[derive(Clone, Copy, Debug, Default, PartialEq, Eq)]
pub struct Join {
    /// The number of the subscriber in its topology.
    pub subscriber: u16,
    /// The tick of the publisher at which it joined, from 1 to `MAX_JOIN_TICK`.
    pub tick: u64,
}

/// The first place at which two lists of joins have different ones.
#[derive(Clone, Copy, Debug, PartialEq, Eq)]
pub struct Split {
    /// The place, from 0 on, below `MAX_JOINS`.
    pub at: u16,
    /// What stands there in the list that was kept.
    pub kept: Join,
    /// What stands there in the list that came.
    pub came: Join,
}
