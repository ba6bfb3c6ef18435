//! What a topology part says, before its names are looked up.

use crate::settings::WrittenSettings;
use gr_event::Text;
use std::alloc::Global;

/// What is read so far of a publisher or subscriber.
#[derive(Drop)]
pub(crate) struct FoundEntry {
    /// Its name, once that is read.
    pub name: Option<Text>,
    /// The name of its broker, once that is read.
    pub at: Option<Text>,
    /// The text of its filter, once that is read.
    pub filter: Option<Text>,
    /// Whether it is late; false until that is read.
    pub late: bool,
    /// Whether it gets one list over all publishers; false until that is read.
    pub total: bool,
}

/// A publisher or subscriber: its name, the name of its broker, the text of its filter, if any, whether it is late, and
/// whether it gets one list over all publishers.
#[derive(Drop)]
pub(crate) struct Entry {
    /// Its name.
    pub name: Text,
    /// The name of its broker.
    pub at: Text,
    /// The text of its filter. A publisher has none.
    pub filter: Option<Text>,
    /// Whether it is late. No publisher is.
    pub late: bool,
    /// Whether it gets one list over all publishers. No publisher does.
    pub total: bool,
}

/// Publishers or subscribers in order, column by column.
#[derive(Drop)]
pub(crate) struct Entries {
    /// The names.
    pub names: Vec<Text>,
    /// The names of their brokers.
    pub brokers: Vec<Text>,
    /// The texts of their filters, if any.
    pub filters: Vec<Option<Text>>,
    /// The places of the late ones.
    pub late: Vec<usize>,
    /// The places of those that get one list over all publishers.
    pub totals: Vec<usize>,
}

/// Addresses in the byte order of the names: of brokers, or of publishers with clients.
#[derive(Drop)]
pub(crate) struct Addresses {
    /// The names, in byte order.
    pub names: Vec<Text>,
    /// The address of each name.
    pub texts: Vec<Text>,
}

/// All that a topology part says.
#[derive(Drop)]
pub(crate) struct Draft {
    /// The names of the brokers, once they are read.
    pub brokers: Option<Vec<Text>>,
    /// The names of the two brokers of each link.
    pub links: Vec<(Text, Text)>,
    /// The publishers.
    pub publishers: Entries,
    /// The subscribers.
    pub subscribers: Entries,
    /// The addresses of the brokers.
    pub addresses: Addresses,
    /// The addresses of the publishers' clients.
    pub clients: Addresses,
    /// The settings, their ranges not yet tested.
    pub settings: WrittenSettings,
}
