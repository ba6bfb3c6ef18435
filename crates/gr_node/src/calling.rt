//! One call of a hosted broker. It is taken out of its place, called, and put back.

ghost use Rattle.std.specs.Prelude.{◌≡◌, ◌≢◌, ℕ, ◌<◌, true, [], ◌∷◌, get_or, set, length, Some, None, Err, IsSome};
ghost use Rattle.std.specs.Prelude.{IfOk, IfErr, OnOk};
ghost use Rattle.gr_frame.specs.Decode.{frame_decoded};
ghost use Rattle.gr_out.specs.Lane.{Lane};
ghost use Rattle.gr_publog.specs.declared.record.LogFault.TheVariants as log_fault;
ghost use Rattle.gr_topo.specs.Topology.{host_of, late_of};
ghost use Rattle.gr_broker.specs.Told.{log_answer};
ghost use Rattle.gr_node.specs.Seen.{seen, broker_in};
ghost use Rattle.gr_node.specs.Of.{NodeFits, AllStand, OthersStay};
ghost use Rattle.gr_node.specs.Lasting.{CallKeeps};
ghost use Rattle.gr_node.specs.Plan.{gets, publishes, joins, wakes};
ghost use Rattle.gr_node.specs.Went.{Makes, DiskMoves, IsCallFault};
ghost use Rattle.gr_node.specs.Calling.{Follows, FollowsReceipt, line_of_drop};

use crate::node::Node;
use gr_broker::{Broker, BrokerFault, Dropped, Outcome, Received};
use gr_event::Event;
use gr_model::topologies::every_topology_is_a_tree;
use gr_model::{Report, Reports};
use gr_out::{Disk, Memory, RunFault};
use gr_outbox::Outbox;
use gr_topo::Topology;
use std::alloc::Global;

/// Takes a broker out of its place.
fn take_out(brokers: &mut Vec<Option<Broker>>, b: u16) -> Broker
    requires { IsSome (get_or brokers.old.items b None) }
    ensures was { get_or brokers.old.items b None ≡ Some result }
    ensures left { brokers.new.items ≡ set brokers.old.items b None }
    ensures place { b < length brokers.new.items }
{
    match brokers[b as usize].take() {
        Some(broker) => broker,
        None => unreachable!(),
    }
}

/// Puts a broker into a place.
fn put_back(brokers: &mut Vec<Option<Broker>>, b: u16, broker: Broker)
    requires { b < length brokers.old.items }
    ensures { brokers.new.items ≡ set brokers.old.items b (Some broker) }
{
    brokers[b as usize] = Some(broker);
}

/// A broker's answer in the words of a run. No log is broken, so none has to be opened again.
fn answered(answer: Result<Outcome, BrokerFault>) -> Result<Outcome, RunFault>
    requires opened { answer ≢ Err BrokerFault.Reopen }
    requires undamaged { (at : ℕ) → log_answer answer ≢ Err (log_fault.Damaged at) }
    ensures { Follows answer result }
{
    match answer {
        Ok(told) => Ok(told),
        Err(fault) => match fault {
            BrokerFault::Memory => Err(RunFault::Memory),
            BrokerFault::Disk => Err(RunFault::Disk),
            BrokerFault::Reopen => unreachable!(),
            BrokerFault::Damaged { .. } => unreachable!(),
        },
    }
}

/// The line of a datagram that is dropped.
fn line_of_drop(b: u16, dropped: Dropped) -> Report
    ensures { result ≡ line_of_drop b dropped }
{
    match dropped {
        Dropped::NotFrame { fault } => Report::DroppedNotFrame {
            broker: b,
            fault: fault.kind.number(),
            at: fault.at as u64,
        },
        Dropped::Stray { head } => Report::DroppedStray {
            broker: b,
            from: head.from,
            to: head.to,
            publisher: head.publisher,
        },
        Dropped::Split { at, kept, came } => Report::DroppedSplit {
            broker: b,
            at,
            kept,
            came,
        },
        Dropped::Clash { clash } => Report::DroppedClash {
            broker: b,
            tick: clash.tick,
            kept: clash.kept,
            came: clash.came,
        },
    }
}

/// A datagram that is dropped is told in its one line, and nothing is sent.
fn dropped_outcome(alloc: Global, b: u16, dropped: Dropped) -> Result<Outcome, RunFault>
    ensures reports { IfOk result (λ told. told.reports ≡ line_of_drop b dropped ∷ []) }
    ensures frames { IfOk result (λ told. told.frames.frames ≡ []) }
    ensures memory { IfErr result (λ e. e ≡ RunFault.Memory) }
{
    let mut reports = Reports::new(alloc);
    match reports.push(line_of_drop(b, dropped)) {
        Ok(()) => {}
        Err(_) => return Err(RunFault::Memory),
    }
    Ok(Outcome {
        reports,
        frames: Outbox::new(alloc),
    })
}

/// What is told and sent of a datagram that came to a broker.
fn received(alloc: Global, b: u16, answer: Result<Received, Memory>) -> Result<Outcome, RunFault>
    ensures { FollowsReceipt b answer result }
{
    match answer {
        Ok(Received::Taken(told)) => Ok(told),
        Ok(Received::Dropped(dropped)) => dropped_outcome(alloc, b, dropped),
        Err(_) => Err(RunFault::Memory),
    }
}

impl Node {
    /// Gives a datagram to a hosted broker. One that is dropped is told in a line. At want of memory nothing has
    /// changed.
    pub(crate) fn receive_at(
        &mut self,
        alloc: Global,
        topo: &Topology,
        b: u16,
        bytes: &[u8],
    ) -> Result<Outcome, RunFault>
        requires fits { NodeFits topo.now (seen self.old) }
        requires here { IsSome (broker_in (seen self.old) b) }
        ensures makes { IfOk result
            (Makes topo.now (seen self.old) (gets b (frame_decoded bytes.now)) (seen self.new)) }
        ensures fits { OnOk result (NodeFits topo.now (seen self.new)) }
        ensures memory { (e : RunFault) → result ≡ Err e → e ≡ RunFault.Memory }
        ensures stands { (lanes : ℕ → Lane) → AllStand lanes (seen self.old)
            → OnOk result (AllStand lanes (seen self.new)) }
    {
        // Proof only: what is sent goes over edges, and each line has its names.
        every_topology_is_a_tree(topo);
        let now = self.now;
        let mut broker = take_out(&mut self.brokers, b);
        let answer = broker.receive(topo, bytes, now);
        put_back(&mut self.brokers, b, broker);
        received(alloc, b, answer)
    }

    /// Publishes an event under a number, at the publisher's host, which is hosted.
    pub(crate) fn publish_at<D: Disk>(
        &mut self,
        topo: &Topology,
        disk: &mut D,
        p: u16,
        number: u64,
        event: &Event,
    ) -> Result<Outcome, RunFault>
        requires fits { NodeFits topo.now (seen self.old) }
        requires publisher { p < length topo.now.publishers }
        requires here { IsSome (broker_in (seen self.old) (host_of topo.now p)) }
        requires stands { D.tells → AllStand (D.lane_of disk.old) (seen self.old) }
        ensures makes { IfOk result
            (Makes topo.now (seen self.old) (publishes (p, (number, event.now))) (seen self.new)) }
        ensures fits { OnOk result (NodeFits topo.now (seen self.new)) }
        ensures cause { IfErr result IsCallFault }
        ensures disk { DiskMoves (D.faults disk.old) (D.stops disk.old) (D.faults disk.new) (D.stops disk.new) result }
        ensures stands { D.tells → OnOk result (AllStand (D.lane_of disk.new) (seen self.new)) }
        ensures others { D.tells
            → OthersStay topo.now (host_of topo.now p ∷ []) (D.lane_of disk.old) (D.lane_of disk.new) }
        ensures kept { D.tells → CallKeeps topo.now (seen self.old) (publishes (p, (number, event.now)))
            (D.lane_of disk.old) (D.lane_of disk.new) }
    {
        // Proof only: what is sent goes over edges, and each line has its names.
        every_topology_is_a_tree(topo);
        let now = self.now;
        let host = topo.host(p);
        let mut broker = take_out(&mut self.brokers, host);
        let answer = broker.publish(topo, disk, p, number, event, now);
        put_back(&mut self.brokers, host, broker);
        answered(answer)
    }

    /// Joins a late subscriber to a publisher, at the publisher's host, which is hosted.
    pub(crate) fn join_at<D: Disk>(
        &mut self,
        topo: &Topology,
        disk: &mut D,
        p: u16,
        s: u16,
    ) -> Result<Outcome, RunFault>
        requires fits { NodeFits topo.now (seen self.old) }
        requires publisher { p < length topo.now.publishers }
        requires late { (s < length topo.now.subscribers) × (late_of topo.now s ≡ true) }
        requires here { IsSome (broker_in (seen self.old) (host_of topo.now p)) }
        requires stands { D.tells → AllStand (D.lane_of disk.old) (seen self.old) }
        ensures makes { IfOk result (Makes topo.now (seen self.old) (joins s p) (seen self.new)) }
        ensures fits { OnOk result (NodeFits topo.now (seen self.new)) }
        ensures cause { IfErr result IsCallFault }
        ensures disk { DiskMoves (D.faults disk.old) (D.stops disk.old) (D.faults disk.new) (D.stops disk.new) result }
        ensures stands { D.tells → OnOk result (AllStand (D.lane_of disk.new) (seen self.new)) }
        ensures others { D.tells
            → OthersStay topo.now (host_of topo.now p ∷ []) (D.lane_of disk.old) (D.lane_of disk.new) }
        ensures kept { D.tells → CallKeeps topo.now (seen self.old) (joins s p)
            (D.lane_of disk.old) (D.lane_of disk.new) }
    {
        // Proof only: what is sent goes over edges, and each line has its names.
        every_topology_is_a_tree(topo);
        let now = self.now;
        let host = topo.host(p);
        let mut broker = take_out(&mut self.brokers, host);
        let answer = broker.join(topo, disk, p, s, now);
        put_back(&mut self.brokers, host, broker);
        answered(answer)
    }

    /// Wakes a hosted broker for a publisher.
    pub(crate) fn wake_at<D: Disk>(
        &mut self,
        topo: &Topology,
        disk: &mut D,
        b: u16,
        p: u16,
    ) -> Result<Outcome, RunFault>
        requires fits { NodeFits topo.now (seen self.old) }
        requires publisher { p < length topo.now.publishers }
        requires here { IsSome (broker_in (seen self.old) b) }
        requires stands { D.tells → AllStand (D.lane_of disk.old) (seen self.old) }
        ensures makes { IfOk result (Makes topo.now (seen self.old) (wakes b p) (seen self.new)) }
        ensures fits { OnOk result (NodeFits topo.now (seen self.new)) }
        ensures cause { IfErr result IsCallFault }
        ensures disk { DiskMoves (D.faults disk.old) (D.stops disk.old) (D.faults disk.new) (D.stops disk.new) result }
        ensures stands { D.tells → OnOk result (AllStand (D.lane_of disk.new) (seen self.new)) }
        ensures others { D.tells → OthersStay topo.now (b ∷ []) (D.lane_of disk.old) (D.lane_of disk.new) }
        ensures kept { D.tells → CallKeeps topo.now (seen self.old) (wakes b p)
            (D.lane_of disk.old) (D.lane_of disk.new) }
    {
        // Proof only: what is sent goes over edges, and each line has its names.
        every_topology_is_a_tree(topo);
        let now = self.now;
        let mut broker = take_out(&mut self.brokers, b);
        let answer = broker.wake(topo, disk, p, now);
        put_back(&mut self.brokers, b, broker);
        answered(answer)
    }
}
