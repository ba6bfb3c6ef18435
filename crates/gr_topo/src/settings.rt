//! The settings of a topology.

/// The greatest value of the four settings in milliseconds.
pub const MOST_TIME: u64 = 1_000_000_000;

/// The greatest value of `cache`.
pub const MOST_CACHE: u64 = 1_000_000;

/// The least value of `reclaim`.
pub const LEAST_RECLAIM: u64 = 64;

/// The greatest value of `reclaim`.
pub const MOST_RECLAIM: u64 = 1_000_000_000;

/// The settings of a run. The first four are milliseconds, from 1 to 1,000,000,000; `cache` is a count of ticks,
/// from 1 to 1,000,000; `reclaim` is a count of bytes, from 64 to 1,000,000,000.
#[derive(Clone, Copy, Debug, PartialEq, Eq)]
pub struct Settings {
    /// The age at which a tick is asked for where something later is known. Default 200.
    pub gap: u64,
    /// The age at which any tick is asked for. Default 1,000.
    pub idle: u64,
    /// How long an ask is outstanding. Default 500.
    pub retry: u64,
    /// How long a log is silent before it is marked. Default 1,000.
    pub quiet: u64,
    /// How many event ticks a broker below the host keeps for a publisher. Default 1,024.
    pub cache: u32,
    /// The length of a log's text from which a cut writes the log anew. Default 65,536. No call reads it yet.
    pub reclaim: u32,
}

/// The settings as they are written, before their ranges are tested.
#[derive(Clone, Copy, Debug, PartialEq, Eq)]
pub struct WrittenSettings {
    /// The age at which a tick is asked for below something known, in milliseconds.
    pub gap: i64,
    /// The age at which any tick is asked for, in milliseconds.
    pub idle: i64,
    /// How long an ask is outstanding, in milliseconds.
    pub retry: i64,
    /// How long a log is silent before it is marked, in milliseconds.
    pub quiet: i64,
    /// How many event ticks a broker below the host keeps for a publisher.
    pub cache: i64,
    /// The length of a log's text, in bytes, from which a cut writes the log anew.
    pub reclaim: i64,
}
