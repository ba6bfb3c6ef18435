//! One arrival is taken, with all that it causes.

ghost use Rattle.std.specs.Prelude.{◌≡◌, ◌≤◌, true, false, min, List, [], ◌∷◌, ◌++◌, length, map, drop, Err};
ghost use Rattle.std.specs.Prelude.{IfOk, IfErr, OnOk, IsErrOf};
ghost use Rattle.gr_out.specs.Journal.{next_entries, Fits, CountsFailed};
ghost use Rattle.gr_model.specs.Broker.{max_tick};
ghost use Rattle.gr_model.specs.NetOf.{net_of};
ghost use Rattle.gr_model.specs.Arrivals.{datagram, quiet, Request, requests_of};
ghost use Rattle.gr_model_theorems.specs.Served.{IsOfBytes};
ghost use Rattle.gr_node.specs.Seen.{seen};
ghost use Rattle.gr_node.specs.Lasting.{ActsKeep};
ghost use Rattle.gr_node.specs.Keeps.{IsServing, IsAsked, TurnKeeps, RunKeeps, LeavesEmpty};
ghost use Rattle.gr_node.specs.Plan.{calls, settles, led_to, quiet_calls};
ghost use Rattle.gr_node.specs.Done.{at_arrival};
ghost use Rattle.gr_node.specs.Went.{outside, Went, IsTurnFault};
ghost use Rattle.gr_node.specs.Turns.{IsFirst, Turned};

use crate::bindings::is_among;
use crate::node::{Node, Site};
use crate::noting::take_datagram;
use crate::ordering::settle;
use crate::schedule::next_after;
use crate::turning::be_quiet;
use gr_out::{Arrival, Disk, Page, Post, PostFault, RunFault, Sink};
use gr_pace::Paced;
use gr_sched::Line;
use gr_tick::MAX_TICK;

/// A moment past the last tick is taken as the last tick.
fn last_tick(moment: u64) -> u64
    ensures { result ≡ min moment max_tick }
{
    moment.min(MAX_TICK)
}

/// A datagram that has come is taken at its broker, and then what is ready in one order is told; one that is for a
/// broker elsewhere is passed over. Then the page is flushed.
pub fn datagram_comes<D: Disk, P: Post, K: Sink>(
    site: &Site<'_>,
    node: &mut Node,
    b: u16,
    bytes: &[u8],
    moment: u64,
    disk: &mut D,
    post: &mut P,
    page: &mut Page,
    sink: &mut K,
) -> Result<(), RunFault>
    requires serving { IsServing site.now.topo.now site.now.hosted.now D.tells (D.lane_of disk.old) (seen node.old) }
    ensures bytes { IsOfBytes (datagram b bytes.now moment) }
    ensures went { (left : List Request) → Went site.now.topo.now site.now.hosted.now P.tells
        (led_to (net_of site.now.topo.now) site.now.hosted.now left (datagram b bytes.now moment))
        (at_arrival site.now.hosted.now (seen node.old) (datagram b bytes.now moment)) (seen node.new)
        (outside (K.taken sink.old) page.old.held (P.journal post.old))
        (outside (K.taken sink.new) page.new.held (P.journal post.new)) result }
    ensures emptied { LeavesEmpty page.new.held result }
    ensures serving { OnOk result
        (IsServing site.now.topo.now site.now.hosted.now D.tells (D.lane_of disk.new) (seen node.new)) }
    ensures kept { D.tells → (left : List Request) → ActsKeep site.now.topo.now site.now.hosted.now
        (at_arrival site.now.hosted.now (seen node.old) (datagram b bytes.now moment))
        (led_to (net_of site.now.topo.now) site.now.hosted.now left (datagram b bytes.now moment))
        (D.lane_of disk.old) (D.lane_of disk.new) }
    ensures keeps { TurnKeeps site.now.topo.now site.now.hosted.now D.tells D.lane_of D.faults D.stops disk.old disk.new
        (K.faults sink.old) (K.faults sink.new) (P.faults post.old) (P.faults post.new) result }
    ensures cause { IfErr result IsTurnFault }
{
    if !is_among(site.hosted, b) {
        return page.flush(sink);
    }
    node.now = last_tick(moment);
    match take_datagram(site, node, b, bytes, disk, post, page, sink) {
        Ok(()) => settle(site, node, page, sink),
        Err(fault) => Err(fault),
    }
}

/// A quiet moment that has come. Then what is ready in one order is told, and the page is flushed.
pub fn quiet_comes<D: Disk, P: Post, K: Sink>(
    site: &Site<'_>,
    node: &mut Node,
    steps: &[Line],
    next: usize,
    moment: u64,
    disk: &mut D,
    post: &mut P,
    page: &mut Page,
    sink: &mut K,
) -> Result<(), RunFault>
    requires asked { IsAsked site.now.topo.now site.now.hosted.now steps.now }
    requires serving { IsServing site.now.topo.now site.now.hosted.now D.tells (D.lane_of disk.old) (seen node.old) }
    requires first { IsFirst (net_of site.now.topo.now) site.now.hosted.now (drop next steps.now) }
    ensures went { Went site.now.topo.now site.now.hosted.now P.tells
        (map calls (quiet_calls (net_of site.now.topo.now) site.now.hosted.now
        (requests_of (net_of site.now.topo.now) site.now.hosted.now (drop next steps.now))) ++ settles ∷ [])
        (at_arrival site.now.hosted.now (seen node.old) (quiet moment)) (seen node.new)
        (outside (K.taken sink.old) page.old.held (P.journal post.old))
        (outside (K.taken sink.new) page.new.held (P.journal post.new)) result }
    ensures emptied { LeavesEmpty page.new.held result }
    ensures serving { OnOk result
        (IsServing site.now.topo.now site.now.hosted.now D.tells (D.lane_of disk.new) (seen node.new)) }
    ensures kept { D.tells → ActsKeep site.now.topo.now site.now.hosted.now
        (at_arrival site.now.hosted.now (seen node.old) (quiet moment))
        (map calls (quiet_calls (net_of site.now.topo.now) site.now.hosted.now (requests_of
        (net_of site.now.topo.now) site.now.hosted.now (drop next steps.now))) ++ settles ∷ [])
        (D.lane_of disk.old) (D.lane_of disk.new) }
    ensures keeps { TurnKeeps site.now.topo.now site.now.hosted.now D.tells D.lane_of D.faults D.stops disk.old disk.new
        (K.faults sink.old) (K.faults sink.new) (P.faults post.old) (P.faults post.new) result }
    ensures cause { IfErr result IsTurnFault }
{
    node.now = last_tick(moment);
    match be_quiet(site, node, steps, next, disk, post, page, sink) {
        Ok(()) => settle(site, node, page, sink),
        Err(fault) => Err(fault),
    }
}

/// What comes next. The post learns whether there is more to do at a quiet moment.
pub fn await_next<P: Paced>(
    post: &mut P,
    has_more: bool,
    piece: &mut [u8],
) -> Result<Arrival, PostFault>
    ensures journal { P.tells → P.journal post.new ≡ P.journal post.old ++ next_entries piece.new result }
    ensures fits { IfOk result (λ a. Fits (length piece.old) a) }
    ensures len { length piece.new ≡ length piece.old }
    ensures cause { CountsFailed (P.faults post.old) (P.faults post.new) result }
{
    post.pace(has_more);
    post.next(piece)
}

/// Takes one arrival, with all that it causes; the page is flushed then. A quiet moment comes sooner where a request is
/// left. False where nothing comes any more. The piece has room for every datagram.
pub(crate) fn turn<D: Disk, P: Paced, K: Sink>(
    site: &Site<'_>,
    node: &mut Node,
    steps: &[Line],
    next: &mut usize,
    piece: &mut [u8],
    disk: &mut D,
    post: &mut P,
    page: &mut Page,
    sink: &mut K,
) -> Result<bool, RunFault>
    requires asked { IsAsked site.now.topo.now site.now.hosted.now steps.now }
    requires serving { IsServing site.now.topo.now site.now.hosted.now D.tells (D.lane_of disk.old) (seen node.old) }
    requires within { next.old ≤ length steps.now }
    requires first { IsFirst (net_of site.now.topo.now) site.now.hosted.now (drop next.old steps.now) }
    requires piece { length piece.old ≡ 65535 }
    ensures piece { length piece.new ≡ 65535 }
    ensures turned { Turned site.now.topo.now site.now.hosted.now P.tells D.tells steps.now next.old next.new
        (seen node.old) (seen node.new) (outside (K.taken sink.old) page.old.held (P.journal post.old))
        (outside (K.taken sink.new) page.new.held (P.journal post.new))
        (D.lane_of disk.old) (D.lane_of disk.new) result }
    ensures within { OnOk result (next.new ≤ length steps.now) }
    ensures first { OnOk result (IsFirst (net_of site.now.topo.now) site.now.hosted.now (drop next.new steps.now)) }
    ensures emptied { IfOk result (λ goes_on. goes_on ≡ true → page.new.held ≡ []) }
    ensures closed { IfOk result (λ goes_on. goes_on ≡ false → page.new.held ≡ page.old.held) }
    ensures at_post { IsErrOf result RunFault.Post → page.new.held ≡ page.old.held }
    ensures serving_at_post { IsErrOf result RunFault.Post
        → IsServing site.now.topo.now site.now.hosted.now D.tells (D.lane_of disk.new) (seen node.new) }
    ensures serving { OnOk result
        (IsServing site.now.topo.now site.now.hosted.now D.tells (D.lane_of disk.new) (seen node.new)) }
    ensures keeps { RunKeeps site.now.topo.now site.now.hosted.now D.tells D.lane_of D.faults D.stops disk.old disk.new
        (K.faults sink.old) (K.faults sink.new) (P.faults post.old) (P.faults post.new) result }
{
    match await_next(post, *next < steps.len(), piece) {
        Ok(arrival) => match arrival {
            Arrival::Datagram { at, len, moment } => {
                match datagram_comes(
                    site,
                    node,
                    at,
                    &piece[..len],
                    moment,
                    disk,
                    post,
                    page,
                    sink,
                ) {
                    Ok(()) => Ok(true),
                    Err(fault) => Err(fault),
                }
            }
            Arrival::Quiet { moment } => {
                match quiet_comes(site, node, steps, *next, moment, disk, post, page, sink) {
                    Ok(()) => {
                        *next = next_after(site, steps, *next);
                        Ok(true)
                    }
                    Err(fault) => Err(fault),
                }
            }
            Arrival::Closed => Ok(false),
        },
        Err(fault) => match fault {
            PostFault::Failed => Err(RunFault::Post),
            PostFault::Memory => Err(RunFault::Memory),
        },
    }
}
