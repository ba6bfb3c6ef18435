//! A run of brokers as a journal: what came to the process, and what it told and offered at each arrival.
//!
//! `trace` is `serve` of `gr_node` with other output. What it makes is the same run (`IsRunOf`), and what it writes is
//! `journal_of` in `specs/Traced.antt`. At each arrival the brokers tell and offer into memory (`Gathered`): then the
//! journal's lines are written, and the offers are made. Over new logs the journal is the one that audits expect
//! (`expected` of `Traces`).
#![tactic(auto)]

mod gathering;
mod offers;
mod running;
mod tracing;
mod writing;

pub use gathering::{Gathered, open, take_datagram, take_quiet};
pub use offers::{Offer, OfferList};
pub use tracing::trace;
pub use writing::push_outs;
