//! Brokers start over the logs that their lanes hold: all of them, or one again after its lanes have crashed.

ghost use Rattle.std.specs.Prelude.{◌≡◌, ◌≢◌, ℕ, ◌<◌, length, Err, IfOk, OnOk, OnErr};
ghost use Rattle.gr_out.specs.Stops.{StaysFaultless};
ghost use Rattle.gr_publog.specs.Calls.{Tally};
ghost use Rattle.gr_publog.specs.Views.{lanes_at, AwayFrom};
ghost use Rattle.gr_topo.specs.Topology.{IsTopology, host_of};
ghost use Rattle.gr_broker.specs.Lanes.{log_lane};
ghost use Rattle.gr_broker.specs.Told.{log_answer};
ghost use Rattle.gr_broker.specs.Opened.{LosesNothing};
ghost use Rattle.gr_world.specs.Disk.{KeepsCounts, LeavesOthers};
ghost use Rattle.gr_world.specs.Opened.{NoStops, IsFirstDamaged};
ghost use Rattle.gr_world.specs.Lanes.{crashed_lanes};
ghost use Rattle.gr_world.specs.Starting.{HaveStarted, HaveOpened, CrashesLanes, IsExchanged, OpensAgain, TouchesLanes};
ghost use Rattle.gr_world.specs.Starting.{LeavesNoLog};

use crate::pair::crash_both;
use gr_broker::{Broker, BrokerFault};
use gr_model::Reports;
use gr_out::SimDisk;
use gr_topo::Topology;
use std::alloc::Global;

/// Brokers that have started, in order, and what that told.
#[derive(Drop)]
pub(crate) struct Opening {
    /// The brokers, in order of number.
    pub brokers: Vec<Broker>,
    /// What their starts told, the earliest first.
    pub told: Reports,
}

/// Starts all brokers, in order. `Damaged` names the first publisher, broker by broker, whose lanes hold no log.
pub(crate) fn start_brokers<D: SimDisk>(
    alloc: Global,
    topology: &Topology,
    disk: &mut D,
) -> Result<Opening, BrokerFault>
    ensures started { IfOk result (λ o. HaveStarted topology.now (length topology.now.brokers) o.brokers.items o.told) }
    ensures opened { IfOk result (λ o. HaveOpened topology.now (length topology.now.brokers) o.brokers.items
        (D.lane_of disk.old) (D.lane_of disk.new)) }
    ensures topology { IsTopology topology.now }
    ensures damaged { (p at : ℕ) → result ≡ Err (BrokerFault.Damaged p at)
        → IsFirstDamaged topology.now p at (D.lane_of disk.old) }
    ensures others { LeavesOthers topology.now (D.lane_of disk.old) (D.lane_of disk.new) }
    ensures any_moment { (p : ℕ) → p < length topology.now.publishers
        → LosesNothing topology.now.late (lanes_at (D.lane_of disk.old) (log_lane p))
        (lanes_at (D.lane_of disk.new) (log_lane p)) }
    ensures never_reopen { result ≢ Err BrokerFault.Reopen }
    ensures tally { let f = D.faults disk.old in let s = D.stops disk.old in
        Tally f s (D.faults disk.new) (D.stops disk.new) (log_answer result) }
    ensures faultless { StaysFaultless (D.faultless disk.old) (D.faultless disk.new)
        (D.faults disk.old) (D.faults disk.new) }
    ensures never_fails { NoStops (D.lane_of disk.old) → D.faultless disk.old
        → result ≢ Err BrokerFault.Disk }
{
    let mut brokers = Vec::new(alloc);
    let mut told = Reports::new(alloc);
    'brokers: for b in 0..topology.brokers() {
        let mut started = match Broker::start(alloc, topology, b, disk) {
            Ok(started) => started,
            Err(fault) => return Err(fault),
        };
        match told.append(&mut started.outcome.reports) {
            Ok(()) => {}
            Err(_) => return Err(BrokerFault::Memory),
        }
        match brokers.push(started.broker) {
            Ok(()) => {}
            Err(_) => return Err(BrokerFault::Memory),
        }
    }
    Ok(Opening { brokers, told })
}

/// Crashes the lanes of a publisher, where it is at a broker.
fn crash_log<D: SimDisk>(topology: &Topology, disk: &mut D, b: u16, p: u16)
    requires { p < length topology.now.publishers }
    ensures here { host_of topology.now p ≡ b
        → lanes_at (D.lane_of disk.new) (log_lane p) ≡ crashed_lanes (lanes_at (D.lane_of disk.old) (log_lane p)) }
    ensures elsewhere { host_of topology.now p ≢ b → disk.new ≡ disk.old }
    ensures others { (n : ℕ) → AwayFrom (log_lane p) n → D.lane_of disk.new n ≡ D.lane_of disk.old n }
    ensures counts { KeepsCounts D.faultless D.faults D.stops disk.old disk.new }
{
    let _ = topology.publishers();
    if topology.host(p) == b {
        crash_both(disk, p);
    }
}

/// Crashes the lanes of a broker's publishers.
fn crash_lanes<D: SimDisk>(topology: &Topology, disk: &mut D, b: u16)
    ensures crashes { CrashesLanes topology.now b (length topology.now.publishers)
        (D.lane_of disk.old) (D.lane_of disk.new) }
    ensures counts { KeepsCounts D.faultless D.faults D.stops disk.old disk.new }
{
    'publishers: for p in 0..topology.publishers() {
        crash_log(topology, disk, b, p);
    }
}

/// Crashes the lanes of a broker's publishers and starts it again in its place. Gives the lines of the opening. After a
/// fault the broker from before is in its place.
pub(crate) fn start_again<D: SimDisk>(
    alloc: Global,
    topology: &Topology,
    brokers: &mut Vec<Broker>,
    disk: &mut D,
    b: u16,
) -> Result<Reports, BrokerFault>
    requires broker { b < length topology.now.brokers }
    requires count { length brokers.old.items ≡ length topology.now.brokers }
    ensures exchanged { IfOk result (λ lines. IsExchanged topology.now b brokers.old.items brokers.new.items lines) }
    ensures kept { OnErr result (brokers.new.items ≡ brokers.old.items) }
    ensures opened { OnOk result
        (OpensAgain topology.now b brokers.new.items (D.lane_of disk.old) (D.lane_of disk.new)) }
    ensures touches { TouchesLanes topology.now b (D.lane_of disk.old) (D.lane_of disk.new) }
    ensures damaged { (p at : ℕ) → result ≡ Err (BrokerFault.Damaged p at)
        → LeavesNoLog topology.now b p at (lanes_at (D.lane_of disk.old) (log_lane p)) }
    ensures never_reopen { result ≢ Err BrokerFault.Reopen }
    ensures tally { let f = D.faults disk.old in let s = D.stops disk.old in
        Tally f s (D.faults disk.new) (D.stops disk.new) (log_answer result) }
    ensures faultless { StaysFaultless (D.faultless disk.old) (D.faultless disk.new)
        (D.faults disk.old) (D.faults disk.new) }
    ensures never_fails { D.faultless disk.old → result ≢ Err BrokerFault.Disk }
{
    crash_lanes(topology, disk, b);
    let started = match Broker::start(alloc, topology, b, disk) {
        Ok(started) => started,
        Err(fault) => return Err(fault),
    };
    brokers[b as usize] = started.broker;
    Ok(started.outcome.reports)
}
