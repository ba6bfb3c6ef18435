//! One broker starts over the logs that its lanes hold.

ghost use Rattle.std.specs.Prelude.{◌≡◌, ◌≢◌, ℕ, ◌<◌, true, length, Some, Err, IfOk, IfErr};
ghost use Rattle.gr_topo.specs.Topology.{host_of};
ghost use Rattle.gr_model.specs.Net.{is_host};
ghost use Rattle.gr_model.specs.NetOf.{net_of};
ghost use Rattle.gr_publog.specs.Views.{AwayFrom};
ghost use Rattle.gr_broker.specs.Lanes.{log_lane};
ghost use Rattle.gr_broker.specs.Of.{IsBrokerOf, LogsStand};
ghost use Rattle.gr_broker.specs.Opened.{OpensLanes, IsDamagedAt};
ghost use Rattle.gr_report.specs.Named.{AllNamed};
ghost use Rattle.gr_node.specs.Went.{DiskMoves};
ghost use Rattle.gr_node.specs.Lasting.{StartsKeep};
ghost use Rattle.gr_node.specs.Starting.{lines_of_start};
ghost use Rattle.gr_node.specs.Begun.{HasBegun, IsStartFault, HoldStates, start_fault};

use crate::node::Site;
use gr_broker::{Broker, BrokerFault, Started};
use gr_model::topologies::every_topology_is_a_tree;
use gr_out::{Disk, RunFault};
use gr_topo::Topology;

/// What each log of a broker holds is a state. The function changes nothing: its contract is the fact.
fn hold_states(topo: &Topology, broker: &Broker, b: u16)
    requires fits { IsBrokerOf topo.now broker.now }
    requires number { broker.now.number ≡ b }
    ensures { HoldStates broker.now }
{
    'publishers: for p in 0..topo.publishers() {
        if topo.host(p) == b {
            let _ = broker.log(p).is_broken();
        }
    }
}

/// Why a broker could not start, as a fault of the run.
fn run_fault(fault: BrokerFault) -> RunFault
    requires { fault ≢ BrokerFault.Reopen }
    ensures { result ≡ start_fault fault }
{
    match fault {
        BrokerFault::Memory => RunFault::Memory,
        BrokerFault::Disk => RunFault::Disk,
        BrokerFault::Damaged { publisher, at } => RunFault::Damaged { publisher, at },
        BrokerFault::Reopen => unreachable!(),
    }
}

/// Starts a broker over the logs that its lanes hold, and answers it with what that tells.
///
/// `Damaged` names the first publisher at it whose lanes hold no log, and `Disk` comes only where the disk failed in
/// this call; `Memory` where memory is refused.
pub(crate) fn start_one<D: Disk>(site: &Site<'_>, b: u16, disk: &mut D) -> Result<Started, RunFault>
    requires { b < length site.now.topo.now.brokers }
    ensures begun { IfOk result (λ s. HasBegun site.now.topo.now b s.broker) }
    ensures lines { IfOk result (λ s. s.outcome.reports ≡ lines_of_start site.now.topo.now b (Some s.broker)) }
    ensures named { IfOk result (λ s. AllNamed site.now.topo.now s.outcome.reports) }
    ensures opens { let t = site.now.topo.now in
        D.tells → IfOk result (λ s. OpensLanes t s.broker (D.lane_of disk.old) (D.lane_of disk.new)) }
    ensures stands { D.tells → IfOk result (λ s. LogsStand (D.lane_of disk.new) s.broker) }
    // The lanes of publishers that are elsewhere stay as they are
    ensures others { D.tells → (n : ℕ) → ((p : ℕ) → p < length site.now.topo.now.publishers
        → is_host (net_of site.now.topo.now) p b ≡ true → AwayFrom (log_lane p) n)
        → D.lane_of disk.new n ≡ D.lane_of disk.old n }
    // At every moment they hold what they held before
    ensures kept { D.tells → StartsKeep site.now.topo.now.late (D.lane_of disk.old) (D.lane_of disk.new) }
    ensures damaged { D.tells → (p at : ℕ) → result ≡ Err (RunFault.Damaged p at)
        → IsDamagedAt site.now.topo.now b p at (D.lane_of disk.old) }
    ensures damaged_here { (p at : ℕ) → result ≡ Err (RunFault.Damaged p at)
        → (p < length site.now.topo.now.publishers) × (host_of site.now.topo.now p ≡ b) }
    ensures cause { IfErr result IsStartFault }
    ensures disk { DiskMoves (D.faults disk.old) (D.stops disk.old) (D.faults disk.new) (D.stops disk.new) result }
{
    match Broker::start(site.alloc, site.topo, b, disk) {
        Ok(started) => {
            every_topology_is_a_tree(site.topo);
            hold_states(site.topo, &started.broker, b);
            Ok(started)
        }
        Err(fault) => Err(run_fault(fault)),
    }
}
