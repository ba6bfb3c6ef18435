//! What is done of one arrival: the calls of brokers that it asks for, with their lines and offers.

ghost use Rattle.std.specs.Prelude.{◌≡◌, ℕ, ◌<◌, true, [], ◌∷◌, length, map, drop, flat_map, IsSome, IfErr, OnOk};
ghost use Rattle.gr_frame.specs.Decode.{frame_decoded};
ghost use Rattle.gr_out.specs.Lane.{Lane};
ghost use Rattle.gr_topo.specs.Topology.{host_of, late_of};
ghost use Rattle.gr_scenario.specs.Steps.{AreStepsOf};
ghost use Rattle.gr_model.specs.NetOf.{net_of};
ghost use Rattle.gr_model.specs.Arrivals.{requests_of};
ghost use Rattle.gr_node.specs.Seen.{seen, broker_in};
ghost use Rattle.gr_node.specs.Of.{AreHosted, IsSet, AllStand};
ghost use Rattle.gr_node.specs.Keeps.{IsServing, IsAsked, TellKeeps, TurnKeeps, LeavesEmpty};
ghost use Rattle.gr_node.specs.Lasting.{ActsKeep};
ghost use Rattle.gr_node.specs.Plan.{gets, publishes, joins, wakes, calls, request_calls, wake_calls, quiet_calls};
ghost use Rattle.gr_node.specs.Went.{outside, Went, IsTurnFault};
ghost use Rattle.gr_node.specs.Turns.{IsFirst};

use crate::node::{Node, Site};
use crate::telling::tell;
use gr_event::Event;
use gr_out::{Disk, Page, Post, RunFault, Sink};
use gr_sched::{Line, Step};

/// A datagram is given to the hosted broker that it came to.
pub(crate) fn receive<P: Post, K: Sink>(
    site: &Site<'_>,
    node: &mut Node,
    b: u16,
    bytes: &[u8],
    post: &mut P,
    page: &mut Page,
    sink: &mut K,
) -> Result<(), RunFault>
    requires set { IsSet site.now.topo.now site.now.hosted.now (seen node.old) }
    requires here { IsSome (broker_in (seen node.old) b) }
    ensures went { Went site.now.topo.now site.now.hosted.now P.tells (calls (gets b (frame_decoded bytes.now)) ∷ [])
        (seen node.old) (seen node.new) (outside (K.taken sink.old) page.old.held (P.journal post.old))
        (outside (K.taken sink.new) page.new.held (P.journal post.new)) result }
    ensures set { OnOk result (IsSet site.now.topo.now site.now.hosted.now (seen node.new)) }
    ensures stands { (lanes : ℕ → Lane) → AllStand lanes (seen node.old)
        → OnOk result (AllStand lanes (seen node.new)) }
    ensures keeps { TellKeeps (K.faults sink.old) (K.faults sink.new) (P.faults post.old) (P.faults post.new) result }
{
    match node.receive_at(site.alloc, site.topo, b, bytes) {
        Ok(told) => tell(site, told, node, post, page, sink),
        Err(fault) => Err(fault),
    }
}

/// A publish at its publisher's host, which is hosted.
pub(crate) fn publish<D: Disk, P: Post, K: Sink>(
    site: &Site<'_>,
    node: &mut Node,
    p: u16,
    number: u64,
    event: &Event,
    disk: &mut D,
    post: &mut P,
    page: &mut Page,
    sink: &mut K,
) -> Result<(), RunFault>
    requires serving { IsServing site.now.topo.now site.now.hosted.now D.tells (D.lane_of disk.old) (seen node.old) }
    requires publisher { p < length site.now.topo.now.publishers }
    requires here { IsSome (broker_in (seen node.old) (host_of site.now.topo.now p)) }
    ensures went { Went site.now.topo.now site.now.hosted.now P.tells (calls (publishes (p, (number, event.now))) ∷ [])
        (seen node.old) (seen node.new) (outside (K.taken sink.old) page.old.held (P.journal post.old))
        (outside (K.taken sink.new) page.new.held (P.journal post.new)) result }
    ensures serving { OnOk result
        (IsServing site.now.topo.now site.now.hosted.now D.tells (D.lane_of disk.new) (seen node.new)) }
    ensures kept { D.tells → ActsKeep site.now.topo.now site.now.hosted.now (seen node.old)
        (calls (publishes (p, (number, event.now))) ∷ [])
        (D.lane_of disk.old) (D.lane_of disk.new) }
    ensures keeps { TurnKeeps site.now.topo.now site.now.hosted.now D.tells D.lane_of D.faults D.stops disk.old disk.new
        (K.faults sink.old) (K.faults sink.new) (P.faults post.old) (P.faults post.new) result }
    ensures cause { IfErr result IsTurnFault }
{
    match node.publish_at(site.topo, disk, p, number, event) {
        Ok(told) => tell(site, told, node, post, page, sink),
        Err(fault) => Err(fault),
    }
}

/// A join of a late subscriber at its publisher's host, which is hosted.
fn join<D: Disk, P: Post, K: Sink>(
    site: &Site<'_>,
    node: &mut Node,
    s: u16,
    p: u16,
    disk: &mut D,
    post: &mut P,
    page: &mut Page,
    sink: &mut K,
) -> Result<(), RunFault>
    requires serving { IsServing site.now.topo.now site.now.hosted.now D.tells (D.lane_of disk.old) (seen node.old) }
    requires publisher { p < length site.now.topo.now.publishers }
    requires late { (s < length site.now.topo.now.subscribers) × (late_of site.now.topo.now s ≡ true) }
    requires here { IsSome (broker_in (seen node.old) (host_of site.now.topo.now p)) }
    ensures went { Went site.now.topo.now site.now.hosted.now P.tells (calls (joins s p) ∷ [])
        (seen node.old) (seen node.new) (outside (K.taken sink.old) page.old.held (P.journal post.old))
        (outside (K.taken sink.new) page.new.held (P.journal post.new)) result }
    ensures serving { OnOk result
        (IsServing site.now.topo.now site.now.hosted.now D.tells (D.lane_of disk.new) (seen node.new)) }
    ensures kept { D.tells → ActsKeep site.now.topo.now site.now.hosted.now (seen node.old)
        (calls (joins s p) ∷ [])
        (D.lane_of disk.old) (D.lane_of disk.new) }
    ensures keeps { TurnKeeps site.now.topo.now site.now.hosted.now D.tells D.lane_of D.faults D.stops disk.old disk.new
        (K.faults sink.old) (K.faults sink.new) (P.faults post.old) (P.faults post.new) result }
    ensures cause { IfErr result IsTurnFault }
{
    match node.join_at(site.topo, disk, p, s) {
        Ok(told) => tell(site, told, node, post, page, sink),
        Err(fault) => Err(fault),
    }
}

/// A hosted broker is woken for a publisher.
fn wake<D: Disk, P: Post, K: Sink>(
    site: &Site<'_>,
    node: &mut Node,
    b: u16,
    p: u16,
    disk: &mut D,
    post: &mut P,
    page: &mut Page,
    sink: &mut K,
) -> Result<(), RunFault>
    requires serving { IsServing site.now.topo.now site.now.hosted.now D.tells (D.lane_of disk.old) (seen node.old) }
    requires publisher { p < length site.now.topo.now.publishers }
    requires here { IsSome (broker_in (seen node.old) b) }
    ensures went { Went site.now.topo.now site.now.hosted.now P.tells (calls (wakes b p) ∷ [])
        (seen node.old) (seen node.new) (outside (K.taken sink.old) page.old.held (P.journal post.old))
        (outside (K.taken sink.new) page.new.held (P.journal post.new)) result }
    ensures serving { OnOk result
        (IsServing site.now.topo.now site.now.hosted.now D.tells (D.lane_of disk.new) (seen node.new)) }
    ensures kept { D.tells → ActsKeep site.now.topo.now site.now.hosted.now (seen node.old)
        (calls (wakes b p) ∷ [])
        (D.lane_of disk.old) (D.lane_of disk.new) }
    ensures keeps { TurnKeeps site.now.topo.now site.now.hosted.now D.tells D.lane_of D.faults D.stops disk.old disk.new
        (K.faults sink.old) (K.faults sink.new) (P.faults post.old) (P.faults post.new) result }
    ensures cause { IfErr result IsTurnFault }
{
    match node.wake_at(site.topo, disk, b, p) {
        Ok(told) => tell(site, told, node, post, page, sink),
        Err(fault) => Err(fault),
    }
}

/// A hosted broker is woken for each publisher, in order.
fn wake_broker<D: Disk, P: Post, K: Sink>(
    site: &Site<'_>,
    node: &mut Node,
    b: u16,
    disk: &mut D,
    post: &mut P,
    page: &mut Page,
    sink: &mut K,
) -> Result<(), RunFault>
    requires serving { IsServing site.now.topo.now site.now.hosted.now D.tells (D.lane_of disk.old) (seen node.old) }
    requires here { IsSome (broker_in (seen node.old) b) }
    ensures went { Went site.now.topo.now site.now.hosted.now P.tells
        (map calls (wake_calls (length site.now.topo.now.publishers) b))
        (seen node.old) (seen node.new) (outside (K.taken sink.old) page.old.held (P.journal post.old))
        (outside (K.taken sink.new) page.new.held (P.journal post.new)) result }
    ensures serving { OnOk result
        (IsServing site.now.topo.now site.now.hosted.now D.tells (D.lane_of disk.new) (seen node.new)) }
    ensures kept { D.tells → ActsKeep site.now.topo.now site.now.hosted.now (seen node.old)
        (map calls (wake_calls (length site.now.topo.now.publishers) b))
        (D.lane_of disk.old) (D.lane_of disk.new) }
    ensures keeps { TurnKeeps site.now.topo.now site.now.hosted.now D.tells D.lane_of D.faults D.stops disk.old disk.new
        (K.faults sink.old) (K.faults sink.new) (P.faults post.old) (P.faults post.new) result }
    ensures cause { IfErr result IsTurnFault }
{
    'publishers: for p in 0..site.topo.publishers() {
        match wake(site, node, b, p, disk, post, page, sink) {
            Ok(()) => {}
            Err(fault) => return Err(fault),
        }
    }
    Ok(())
}

/// Each hosted broker is woken, in order. All that was told before is written.
fn wake_hosted<D: Disk, P: Post, K: Sink>(
    site: &Site<'_>,
    node: &mut Node,
    disk: &mut D,
    post: &mut P,
    page: &mut Page,
    sink: &mut K,
) -> Result<(), RunFault>
    requires hosted { AreHosted site.now.topo.now site.now.hosted.now }
    requires serving { IsServing site.now.topo.now site.now.hosted.now D.tells (D.lane_of disk.old) (seen node.old) }
    requires written { page.old.held ≡ [] }
    ensures went { Went site.now.topo.now site.now.hosted.now P.tells
        (map calls (flat_map (wake_calls (length site.now.topo.now.publishers)) site.now.hosted.now))
        (seen node.old) (seen node.new) (outside (K.taken sink.old) page.old.held (P.journal post.old))
        (outside (K.taken sink.new) page.new.held (P.journal post.new)) result }
    ensures serving { OnOk result
        (IsServing site.now.topo.now site.now.hosted.now D.tells (D.lane_of disk.new) (seen node.new)) }
    ensures kept { D.tells → ActsKeep site.now.topo.now site.now.hosted.now (seen node.old)
        (map calls (flat_map (wake_calls (length site.now.topo.now.publishers)) site.now.hosted.now))
        (D.lane_of disk.old) (D.lane_of disk.new) }
    ensures keeps { TurnKeeps site.now.topo.now site.now.hosted.now D.tells D.lane_of D.faults D.stops disk.old disk.new
        (K.faults sink.old) (K.faults sink.new) (P.faults post.old) (P.faults post.new) result }
    ensures cause { IfErr result IsTurnFault }
{
    'brokers: for b in site.hosted {
        match wake_broker(site, node, *b, disk, post, page, sink) {
            Ok(()) => {}
            Err(fault) => return Err(fault),
        }
    }
    Ok(())
}

/// The request at the place `next` of the steps, where there is one, is carried out.
fn take_request<D: Disk, P: Post, K: Sink>(
    site: &Site<'_>,
    node: &mut Node,
    steps: &[Line],
    next: usize,
    disk: &mut D,
    post: &mut P,
    page: &mut Page,
    sink: &mut K,
) -> Result<(), RunFault>
    requires serving { IsServing site.now.topo.now site.now.hosted.now D.tells (D.lane_of disk.old) (seen node.old) }
    requires steps { AreStepsOf site.now.topo.now steps.now }
    requires first { IsFirst (net_of site.now.topo.now) site.now.hosted.now (drop next steps.now) }
    ensures went { Went site.now.topo.now site.now.hosted.now P.tells (map calls (request_calls
        (requests_of (net_of site.now.topo.now) site.now.hosted.now (drop next steps.now))))
        (seen node.old) (seen node.new) (outside (K.taken sink.old) page.old.held (P.journal post.old))
        (outside (K.taken sink.new) page.new.held (P.journal post.new)) result }
    ensures serving { OnOk result
        (IsServing site.now.topo.now site.now.hosted.now D.tells (D.lane_of disk.new) (seen node.new)) }
    ensures kept { D.tells → ActsKeep site.now.topo.now site.now.hosted.now (seen node.old)
        (map calls (request_calls (requests_of (net_of site.now.topo.now) site.now.hosted.now (drop next steps.now))))
        (D.lane_of disk.old) (D.lane_of disk.new) }
    ensures keeps { TurnKeeps site.now.topo.now site.now.hosted.now D.tells D.lane_of D.faults D.stops disk.old disk.new
        (K.faults sink.old) (K.faults sink.new) (P.faults post.old) (P.faults post.new) result }
    ensures cause { IfErr result IsTurnFault }
{
    if next >= steps.len() {
        return Ok(());
    }
    match &steps[next].step {
        Step::Publish {
            publisher,
            number,
            event,
            ..
        } => publish(
            site, node, *publisher, *number, event, disk, post, page, sink,
        ),
        Step::Join {
            subscriber,
            publisher,
        } => join(site, node, *subscriber, *publisher, disk, post, page, sink),
        _ => unreachable!(),
    }
}

/// The request at the place `next` of the steps, where there is one, is carried out. What it tells is written, since a
/// wake may cut its event, and what is cut is never handed over again.
fn take_written<D: Disk, P: Post, K: Sink>(
    site: &Site<'_>,
    node: &mut Node,
    steps: &[Line],
    next: usize,
    disk: &mut D,
    post: &mut P,
    page: &mut Page,
    sink: &mut K,
) -> Result<(), RunFault>
    requires serving { IsServing site.now.topo.now site.now.hosted.now D.tells (D.lane_of disk.old) (seen node.old) }
    requires steps { AreStepsOf site.now.topo.now steps.now }
    requires first { IsFirst (net_of site.now.topo.now) site.now.hosted.now (drop next steps.now) }
    ensures went { Went site.now.topo.now site.now.hosted.now P.tells (map calls (request_calls
        (requests_of (net_of site.now.topo.now) site.now.hosted.now (drop next steps.now))))
        (seen node.old) (seen node.new) (outside (K.taken sink.old) page.old.held (P.journal post.old))
        (outside (K.taken sink.new) page.new.held (P.journal post.new)) result }
    ensures emptied { LeavesEmpty page.new.held result }
    ensures serving { OnOk result
        (IsServing site.now.topo.now site.now.hosted.now D.tells (D.lane_of disk.new) (seen node.new)) }
    ensures kept { D.tells → ActsKeep site.now.topo.now site.now.hosted.now (seen node.old)
        (map calls (request_calls (requests_of (net_of site.now.topo.now) site.now.hosted.now (drop next steps.now))))
        (D.lane_of disk.old) (D.lane_of disk.new) }
    ensures keeps { TurnKeeps site.now.topo.now site.now.hosted.now D.tells D.lane_of D.faults D.stops disk.old disk.new
        (K.faults sink.old) (K.faults sink.new) (P.faults post.old) (P.faults post.new) result }
    ensures cause { IfErr result IsTurnFault }
{
    match take_request(site, node, steps, next, disk, post, page, sink) {
        Ok(()) => page.flush(sink),
        Err(fault) => Err(fault),
    }
}

/// A quiet moment: the request at the place `next` of the steps, where there is one, whose lines are written, and then
/// each hosted broker is woken.
pub(crate) fn be_quiet<D: Disk, P: Post, K: Sink>(
    site: &Site<'_>,
    node: &mut Node,
    steps: &[Line],
    next: usize,
    disk: &mut D,
    post: &mut P,
    page: &mut Page,
    sink: &mut K,
) -> Result<(), RunFault>
    requires asked { IsAsked site.now.topo.now site.now.hosted.now steps.now }
    requires serving { IsServing site.now.topo.now site.now.hosted.now D.tells (D.lane_of disk.old) (seen node.old) }
    requires first { IsFirst (net_of site.now.topo.now) site.now.hosted.now (drop next steps.now) }
    ensures went { Went site.now.topo.now site.now.hosted.now P.tells
        (map calls (quiet_calls (net_of site.now.topo.now) site.now.hosted.now
        (requests_of (net_of site.now.topo.now) site.now.hosted.now (drop next steps.now))))
        (seen node.old) (seen node.new) (outside (K.taken sink.old) page.old.held (P.journal post.old))
        (outside (K.taken sink.new) page.new.held (P.journal post.new)) result }
    ensures serving { OnOk result
        (IsServing site.now.topo.now site.now.hosted.now D.tells (D.lane_of disk.new) (seen node.new)) }
    ensures kept { D.tells → ActsKeep site.now.topo.now site.now.hosted.now (seen node.old)
        (map calls (quiet_calls (net_of site.now.topo.now) site.now.hosted.now (requests_of
        (net_of site.now.topo.now) site.now.hosted.now (drop next steps.now))))
        (D.lane_of disk.old) (D.lane_of disk.new) }
    ensures keeps { TurnKeeps site.now.topo.now site.now.hosted.now D.tells D.lane_of D.faults D.stops disk.old disk.new
        (K.faults sink.old) (K.faults sink.new) (P.faults post.old) (P.faults post.new) result }
    ensures cause { IfErr result IsTurnFault }
{
    match take_written(site, node, steps, next, disk, post, page, sink) {
        Ok(()) => wake_hosted(site, node, disk, post, page, sink),
        Err(fault) => Err(fault),
    }
}
