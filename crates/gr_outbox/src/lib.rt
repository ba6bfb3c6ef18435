//! Frames that are sent, and the lines that tell them.
#![tactic(auto)]

mod outbox;
mod queue;

pub use outbox::{Memory, Outbox, sent_report};
