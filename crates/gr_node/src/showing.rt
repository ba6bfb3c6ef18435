//! What is shown at the end, of the hosted brokers and the publishers at them.

ghost use Rattle.std.specs.Prelude.{◌≡◌, ◌<◌, ◌++◌, length, flat_map, Some, IfOk, OnOk};
ghost use Rattle.gr_broker.specs.Of.{IsBrokerOf};
ghost use Rattle.gr_broker.specs.Seen.{machine_log, IsHosted};
ghost use Rattle.gr_report.specs.Named.{AllNamed};
ghost use Rattle.gr_node.specs.Seen.{seen};
ghost use Rattle.gr_node.specs.Of.{AreHosted, IsSet, NodeFits};
ghost use Rattle.gr_node.specs.Done.{log_shown, log_shown_in, logs_shown, doubt_shown, doubts_by, doubts_shown, shown};

use crate::node::{Node, Site};
use gr_broker::Broker;
use gr_model::{Report, Reports};
use gr_out::Memory;
use gr_topo::Topology;

/// The line of the log of a publisher at its host.
fn log_line(host: &Broker, p: u16) -> Report
    requires { IsHosted host.now p }
    ensures { result ≡ log_shown p (machine_log host.now p) }
{
    let log = host.log(p);
    // Proof only: what it holds is in order.
    let _ = log.is_broken();
    Report::LogOf {
        publisher: p,
        last: log.last(),
        settled: log.settled(),
        cut: log.cut(),
        kept: log.events().len() as u64,
    }
}

/// Tells the log of a publisher, where that is at a hosted broker.
fn tell_log(site: &Site<'_>, node: &Node, p: u16, into: &mut Reports) -> Result<(), Memory>
    requires publisher { p < length site.now.topo.now.publishers }
    requires set { IsSet site.now.topo.now site.now.hosted.now (seen node.now) }
    ensures { OnOk result (into.new
        ≡ into.old ++ log_shown_in site.now.topo.now site.now.hosted.now (seen node.entry.now) p) }
{
    let host = site.topo.host(p);
    match &node.brokers[host as usize] {
        Some(broker) => into.push(log_line(broker, p)),
        None => Ok(()),
    }
}

/// Tells the logs that are here, publisher by publisher.
fn tell_logs(site: &Site<'_>, node: &Node, into: &mut Reports) -> Result<(), Memory>
    requires set { IsSet site.now.topo.now site.now.hosted.now (seen node.now) }
    ensures { OnOk result (into.new
        ≡ into.old ++ logs_shown site.now.topo.now site.now.hosted.now (seen node.entry.now)) }
{
    'publishers: for p in 0..site.topo.publishers() {
        tell_log(site, node, p, into)?;
    }
    Ok(())
}

/// Tells a broker's horizon for a publisher, where it keeps one.
fn tell_horizon(
    topo: &Topology,
    b: u16,
    broker: &Broker,
    p: u16,
    into: &mut Reports,
) -> Result<(), Memory>
    requires fits { IsBrokerOf topo.now broker.now }
    requires number { b < length topo.now.brokers }
    requires publisher { p < length topo.now.publishers }
    ensures { OnOk result (into.new ≡ into.old ++ doubt_shown topo.now b broker.now p) }
{
    if !topo.keeps_horizon(p, b) {
        return Ok(());
    }
    into.push(Report::Doubt {
        broker: b,
        publisher: p,
        tick: broker.horizon(p),
    })
}

/// Tells all horizons that a broker keeps.
fn tell_horizons(topo: &Topology, b: u16, broker: &Broker, into: &mut Reports) -> Result<(), Memory>
    requires fits { IsBrokerOf topo.now broker.now }
    requires number { b < length topo.now.brokers }
    ensures { OnOk result (into.new ≡ into.old ++ doubts_by topo.now b (Some broker.now)) }
{
    'publishers: for p in 0..topo.publishers() {
        tell_horizon(topo, b, broker, p, into)?;
    }
    Ok(())
}

/// Tells all horizons that a hosted broker keeps.
fn tell_broker(site: &Site<'_>, node: &Node, b: u16, into: &mut Reports) -> Result<(), Memory>
    requires number { b < length site.now.topo.now.brokers }
    requires fits { NodeFits site.now.topo.now (seen node.now) }
    ensures { OnOk result (into.new ≡ into.old ++ doubts_shown site.now.topo.now (seen node.entry.now) b) }
{
    match &node.brokers[b as usize] {
        Some(broker) => tell_horizons(site.topo, b, broker, into),
        None => Ok(()),
    }
}

/// Tells the horizons of the hosted brokers, broker by broker.
fn tell_brokers(site: &Site<'_>, node: &Node, into: &mut Reports) -> Result<(), Memory>
    requires hosted { AreHosted site.now.topo.now site.now.hosted.now }
    requires fits { NodeFits site.now.topo.now (seen node.now) }
    ensures { OnOk result (into.new
        ≡ into.old ++ flat_map (doubts_shown site.now.topo.now (seen node.entry.now)) site.now.hosted.now) }
{
    'hosted: for b in site.hosted {
        tell_broker(site, node, *b, into)?;
    }
    Ok(())
}

/// How many frames were offered, then the logs that are here, and then the horizons of the hosted brokers.
pub(crate) fn show(site: &Site<'_>, node: &Node) -> Result<Reports, Memory>
    requires hosted { AreHosted site.now.topo.now site.now.hosted.now }
    requires set { IsSet site.now.topo.now site.now.hosted.now (seen node.now) }
    ensures shows { IfOk result (λ lines. lines ≡ shown site.now.topo.now site.now.hosted.now (seen node.entry.now)) }
    ensures named { IfOk result (AllNamed site.now.topo.now) }
{
    let mut lines = Reports::new(site.alloc);
    lines.push(Report::Frames { count: node.offers })?;
    tell_logs(site, node, &mut lines)?;
    tell_brokers(site, node, &mut lines)?;
    Ok(lines)
}
