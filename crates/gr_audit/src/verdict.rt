//! What is said of the journals of several processes.

/// Why journals are not one honest run.
#[derive(Clone, Copy, Debug, PartialEq, Eq)]
pub enum Why {
    /// A broker is named twice, or by none.
    NotHosted,
    /// A journal is not what its brokers give.
    Differs,
    /// No order of the groups offers each datagram before it comes.
    Unoffered,
}

/// Whether journals are one honest run.
#[derive(Clone, Copy, Debug, PartialEq, Eq)]
pub enum Verdict {
    /// They are.
    Yes,
    /// They are not.
    No {
        /// The line that shows it. Lines count from 1; 0 stands for a broker that no line names.
        line: u32,
        /// Why they are not.
        why: Why,
    },
}
