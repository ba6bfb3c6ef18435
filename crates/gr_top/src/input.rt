//! What the bytes of a source are read as.

/// What the bytes of a source are read as.
#[derive(Clone, Copy)]
pub enum Input {
    /// A scenario, which is carried out.
    Scenario,
    /// A match text, of which the events are matched.
    MatchText,
    /// A match text of filters alone, which are compared.
    CoverText,
    /// A scenario, and journals, which are audited.
    Journals,
}
