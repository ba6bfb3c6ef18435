//! The parts of a topology, each tested.

use crate::settings::Settings;
use gr_event::Text;
use gr_filter::Filter;
use gr_tree::Link;

/// Brokers, publishers and subscribers, column by column.
#[derive(Drop)]
pub(crate) struct Parts {
    /// The names of the brokers.
    pub brokers: Vec<Text>,
    /// The names of the publishers.
    pub publishers: Vec<Text>,
    /// The names of the subscribers.
    pub subscribers: Vec<Text>,
    /// The links between brokers, a tree.
    pub links: Vec<Link>,
    /// The brokers of the publishers.
    pub hosts: Vec<u16>,
    /// The brokers of the subscribers.
    pub homes: Vec<u16>,
    /// The filters of the subscribers; one without a filter wants every event.
    pub filters: Vec<Option<Filter>>,
    /// The late subscribers, in order.
    pub late: Vec<usize>,
    /// The subscribers that get one list over all publishers, in order.
    pub totals: Vec<usize>,
    /// The addresses of the brokers.
    pub addresses: Vec<Option<Text>>,
    /// The addresses of the publishers' clients.
    pub clients: Vec<Option<Text>>,
    /// The settings, each within its range.
    pub settings: Settings,
}

/// The links between brokers, and the brokers of publishers and of subscribers.
#[derive(Drop)]
pub(crate) struct Resolved {
    /// The links, each between two brokers.
    pub links: Vec<Link>,
    /// The brokers of the publishers.
    pub hosts: Vec<u16>,
    /// The brokers of the subscribers.
    pub homes: Vec<u16>,
}
