//! A node: the brokers that are hosted here.

ghost use Rattle.std.specs.Prelude.{◌≡◌, ◌<◌, ◌≤◌, true, length, replicate, None, is_some, IfOk};
ghost use Rattle.gr_note.specs.declared.TheConstants.{MAX_NUMBER};
ghost use Rattle.gr_broker.specs.Seen.{machine_log, IsHosted};
ghost use Rattle.gr_node.specs.Seen.{seen, broker_in, log_here, none_started};
ghost use Rattle.gr_node.specs.Of.{NodeFits};

use gr_broker::Broker;
use gr_order_lists::Orders;
use gr_out::Memory;
use gr_topo::Topology;
use std::alloc::Global;

/// Where a run takes place: the topology, and the brokers that are hosted here in rising order.
#[derive(Drop)]
pub struct Site<'a> {
    pub alloc: Global,
    pub topo: &'a Topology,
    pub hosted: &'a [u16],
}

/// The hosted brokers by number, with None where a broker is elsewhere; how many frames they have offered; the moment
/// of the last arrival, in milliseconds; and the lists of the subscribers that get one over all publishers.
#[derive(Drop)]
pub struct Node {
    pub brokers: Vec<Option<Broker>>,
    pub offers: u64,
    pub now: u64,
    pub orders: Orders,
}

/// The number of the last event in the log of a publisher, at its host.
fn last_in(host: &Broker, p: u16) -> u64
    requires { IsHosted host.now p }
    ensures last { result ≡ (machine_log host.now p).last }
    ensures most { result ≤ MAX_NUMBER }
{
    let log = host.log(p);
    // Proof only: what the log holds is a state.
    let _ = log.is_broken();
    log.last()
}

/// Places for so many brokers, before any has started.
fn no_brokers(alloc: Global, brokers: u16) -> Result<Vec<Option<Broker>>, Memory>
    ensures { IfOk result (λ places. places.items ≡ replicate brokers None) }
{
    let mut places = Vec::with_capacity(alloc, brokers as usize)?;
    'places: for _broker in 0..brokers {
        places.push(None)?;
    }
    Ok(places)
}

impl Node {
    /// A node for the brokers of a topology, before any has started.
    pub fn new(alloc: Global, topo: &Topology) -> Result<Node, Memory>
        ensures { IfOk result (λ n. seen n ≡ none_started topo.now) }
    {
        let orders = Orders::new(alloc, topo)?;
        let brokers = no_brokers(alloc, topo.brokers())?;
        Ok(Node {
            brokers,
            offers: 0,
            now: 0,
            orders,
        })
    }

    /// Whether a broker is hosted here.
    pub(crate) fn hosts(&self, b: u16) -> bool
        ensures { result ≡ is_some (broker_in (seen self.entry.now) b) }
    {
        let b = b as usize;
        if b >= self.brokers.len() {
            return false;
        }
        match &self.brokers[b] {
            Some(_) => true,
            None => false,
        }
    }

    /// The number of the last event in the log of a publisher at its host, 0 where that is not hosted here.
    pub(crate) fn last_at(&self, topo: &Topology, p: u16) -> u64
        requires fits { NodeFits topo.now (seen self.now) }
        requires publisher { p < length topo.now.publishers }
        ensures last { result ≡ (log_here topo.now (seen self.entry.now) p).last }
        ensures most { result ≤ MAX_NUMBER }
    {
        let host = topo.host(p);
        match &self.brokers[host as usize] {
            Some(broker) => last_in(broker, p),
            None => 0,
        }
    }
}
