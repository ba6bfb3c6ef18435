//! What brokers that serve write.

/// What brokers that serve write.
#[derive(Clone, Copy)]
pub enum Voice {
    /// The report: what they tell, and at the end what is shown.
    Report,
    /// The journal: what came, and what they told and offered then.
    Journal,
}
