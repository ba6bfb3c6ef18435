//! What a broker keeps of one publisher.

use gr_curio::{Asks, Wants};
use gr_event::Joins;
use gr_know::Know;
use gr_publog::Log;
use gr_subend::Subend;

/// What is kept of one publisher: what is known, what each child asks and has acknowledged, what was asked upstream and
/// when, how far the subscribers here have heard, the log where the publisher is here, and which late subscribers have
/// joined, as far as that has come here.
#[derive(Drop)]
pub struct Held {
    /// What is known at each tick.
    pub know: Know,
    /// What each child asks and has acknowledged, the children in order.
    pub wants: Wants,
    /// What was asked upstream, and at which moment.
    pub asks: Asks,
    /// How far the subscribers here have heard.
    pub horizon: Subend,
    /// The log, where the publisher is here.
    pub log: Option<Log>,
    /// The joins of late subscribers, in their order.
    pub joins: Joins,
}
