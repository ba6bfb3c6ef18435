//! What comes is taken, turn by turn, and each turn is written as a group of a journal.

ghost use Rattle.std.specs.Prelude.{◌≡◌, ◌≢◌, ◌⊎◌, ◌≤◌, ◌++◌, List, [], length, drop, Err};
ghost use Rattle.std.specs.Prelude.{IfOk, IfErr, OnOk, IsErrOf, IsOkUnless, vec_len};
ghost use Rattle.gr_model.specs.NetOf.{net_of};
ghost use Rattle.gr_model.specs.Arrivals.{datagram, quiet, Request, requests_of};
ghost use Rattle.gr_model_theorems.specs.Served.{IsOfBytes};
ghost use Rattle.gr_node.specs.Seen.{seen};
ghost use Rattle.gr_node.specs.Keeps.{IsServing, IsAsked, TurnKeeps, RunKeeps};
ghost use Rattle.gr_node.specs.Lasting.{ActsKeep};
ghost use Rattle.gr_node.specs.Plan.{led_to};
ghost use Rattle.gr_node.specs.Done.{at_arrival};
ghost use Rattle.gr_node.specs.Turns.{IsFirst};
ghost use Rattle.gr_node.specs.Went.{IsTurnFault, SinkMoves};
ghost use Rattle.gr_trace.specs.Gathered.{IsEmpty, IsBetween};
ghost use Rattle.gr_trace.specs.Wrote.{gathered_text, line_of, Wrote, Writes, TurnTraced, TurnsTraced};

use crate::gathering::{Gathered, is_known, take_datagram, take_quiet};
use crate::writing::{offer_all, push_outs};
use gr_event::Text;
use gr_journal::{MAX_DATAGRAM, push_datagram, push_quiet, push_said};
use gr_node::{Node, Site, await_next, is_among, next_after, next_request};
use gr_out::{Arrival, Disk, Memory, Page, Post, PostFault, RunFault, Sink};
use gr_pace::Paced;
use gr_sched::Line;
use gr_tick::MAX_TICK;
use gr_topo::Topology;
use std::alloc::Global;

/// Puts the lines of what was gathered behind what a page holds: what was told and, if it was told whole, what was
/// offered.
fn put_gathered(
    topo: &Topology,
    gathered: &Gathered,
    whole: bool,
    page: &mut Page,
) -> Result<(), RunFault>
    ensures put { OnOk result (page.new.held ≡ page.old.held ++ gathered_text topo.now gathered.now whole) }
    ensures cause { IsOkUnless result RunFault.Memory }
{
    match push_said(gathered.lines.held.as_slice(), &mut page.held) {
        Ok(()) => {}
        Err(_) => return Err(RunFault::Memory),
    }
    if !whole {
        return Ok(());
    }
    match push_outs(topo, gathered.offers.as_slice(), &mut page.held) {
        Ok(()) => {}
        Err(_) => return Err(RunFault::Memory),
    }
    Ok(())
}

/// Writes what an arrival led to, behind the line of the arrival that a page holds, and makes the offers.
pub(crate) fn write_gathered<P: Post, K: Sink>(
    topo: &Topology,
    done: Result<(), RunFault>,
    gathered: &mut Gathered,
    post: &mut P,
    page: &mut Page,
    sink: &mut K,
) -> Result<(), RunFault>
    ensures writes { Writes topo.now P.tells gathered.old page.old.held done (K.taken sink.old) (K.taken sink.new)
        (P.journal post.old) (P.journal post.new) result }
    ensures empty { OnOk result (IsEmpty gathered.new) }
    ensures written { OnOk result (page.new.held ≡ []) }
    ensures cause { IfErr result (λ e. (done ≡ Err e) ⊎ ((e ≡ RunFault.Memory) ⊎ (e ≡ RunFault.Write))) }
    ensures sink { SinkMoves (K.faults sink.old) (K.faults sink.new) result }
    ensures post { P.faults post.new ≡ P.faults post.old }
{
    if !is_known(&done) {
        return Err(RunFault::Memory);
    }
    match put_gathered(topo, gathered, done.is_ok(), page) {
        Ok(()) => {}
        Err(fault) => return Err(fault),
    }
    match page.flush(sink) {
        Ok(()) => {}
        Err(fault) => return Err(fault),
    }
    match offer_all(gathered.offers.as_slice(), post) {
        Ok(()) => {}
        Err(fault) => return Err(fault),
    }
    gathered.clear();
    done
}

/// Takes a datagram at a hosted broker.
fn trace_datagram<D: Disk, P: Post, K: Sink>(
    site: &Site<'_>,
    node: &mut Node,
    b: u16,
    bytes: &[u8],
    moment: u64,
    disk: &mut D,
    post: &mut P,
    gathered: &mut Gathered,
    page: &mut Page,
    sink: &mut K,
) -> Result<(), RunFault>
    requires between { IsBetween site.now.topo.now site.now.hosted.now D.tells (D.lane_of disk.old) (seen node.old)
        gathered.old page.old.held }
    ensures bytes { IsOfBytes (datagram b bytes.now moment) }
    ensures wrote { (left : List Request) → Wrote site.now.topo.now site.now.hosted.now P.tells
        (led_to (net_of site.now.topo.now) site.now.hosted.now left (datagram b bytes.now moment))
        (at_arrival site.now.hosted.now (seen node.old) (datagram b bytes.now moment)) (seen node.new)
        (line_of site.now.topo.now site.now.hosted.now (datagram b bytes.now moment))
        (K.taken sink.old) (K.taken sink.new) (P.journal post.old) (P.journal post.new) result }
    ensures kept { D.tells → (left : List Request) → ActsKeep site.now.topo.now site.now.hosted.now
        (at_arrival site.now.hosted.now (seen node.old) (datagram b bytes.now moment))
        (led_to (net_of site.now.topo.now) site.now.hosted.now left (datagram b bytes.now moment))
        (D.lane_of disk.old) (D.lane_of disk.new) }
    ensures between { OnOk result (IsBetween site.now.topo.now site.now.hosted.now D.tells (D.lane_of disk.new)
        (seen node.new) gathered.new page.new.held) }
    ensures keeps { TurnKeeps site.now.topo.now site.now.hosted.now D.tells D.lane_of D.faults D.stops disk.old disk.new
        (K.faults sink.old) (K.faults sink.new) (P.faults post.old) (P.faults post.new) result }
    ensures cause { IfErr result IsTurnFault }
{
    if !is_among(site.hosted, b) {
        return Ok(());
    }
    // Proof only: the limits of a topology.
    let _ = site.topo.brokers();
    match push_datagram(site.topo, b, moment.min(MAX_TICK), bytes, &mut page.held) {
        Ok(()) => {}
        Err(_) => return Err(RunFault::Memory),
    }
    let done = take_datagram(site, node, b, bytes, moment, disk, gathered);
    write_gathered(site.topo, done, gathered, post, page, sink)
}

/// Takes a quiet moment.
fn trace_quiet<D: Disk, P: Post, K: Sink>(
    site: &Site<'_>,
    node: &mut Node,
    steps: &[Line],
    next: usize,
    moment: u64,
    disk: &mut D,
    post: &mut P,
    gathered: &mut Gathered,
    page: &mut Page,
    sink: &mut K,
) -> Result<(), RunFault>
    requires asked { IsAsked site.now.topo.now site.now.hosted.now steps.now }
    requires first { IsFirst (net_of site.now.topo.now) site.now.hosted.now (drop next steps.now) }
    requires between { IsBetween site.now.topo.now site.now.hosted.now D.tells (D.lane_of disk.old) (seen node.old)
        gathered.old page.old.held }
    ensures wrote { Wrote site.now.topo.now site.now.hosted.now P.tells
        (led_to (net_of site.now.topo.now) site.now.hosted.now
        (requests_of (net_of site.now.topo.now) site.now.hosted.now (drop next steps.now)) (quiet moment))
        (at_arrival site.now.hosted.now (seen node.old) (quiet moment)) (seen node.new)
        (line_of site.now.topo.now site.now.hosted.now (quiet moment))
        (K.taken sink.old) (K.taken sink.new) (P.journal post.old) (P.journal post.new) result }
    ensures kept { D.tells → ActsKeep site.now.topo.now site.now.hosted.now
        (at_arrival site.now.hosted.now (seen node.old) (quiet moment))
        (led_to (net_of site.now.topo.now) site.now.hosted.now
        (requests_of (net_of site.now.topo.now) site.now.hosted.now (drop next steps.now)) (quiet moment))
        (D.lane_of disk.old) (D.lane_of disk.new) }
    ensures cause { IfErr result IsTurnFault }
    ensures between { OnOk result (IsBetween site.now.topo.now site.now.hosted.now D.tells (D.lane_of disk.new)
        (seen node.new) gathered.new page.new.held) }
    ensures keeps { TurnKeeps site.now.topo.now site.now.hosted.now D.tells D.lane_of D.faults D.stops disk.old disk.new
        (K.faults sink.old) (K.faults sink.new) (P.faults post.old) (P.faults post.new) result }
{
    // Proof only: the limits of a topology.
    let _ = site.topo.brokers();
    match push_quiet(moment.min(MAX_TICK), &mut page.held) {
        Ok(()) => {}
        Err(_) => return Err(RunFault::Memory),
    }
    let done = take_quiet(site, node, steps, next, moment, disk, gathered);
    write_gathered(site.topo, done, gathered, post, page, sink)
}

/// Takes one arrival, and writes its group. False where nothing comes any more.
fn turn<D: Disk, P: Paced, K: Sink>(
    site: &Site<'_>,
    node: &mut Node,
    steps: &[Line],
    next: &mut usize,
    piece: &mut [u8],
    disk: &mut D,
    post: &mut P,
    gathered: &mut Gathered,
    page: &mut Page,
    sink: &mut K,
) -> Result<bool, RunFault>
    requires asked { IsAsked site.now.topo.now site.now.hosted.now steps.now }
    requires between { IsBetween site.now.topo.now site.now.hosted.now D.tells (D.lane_of disk.old) (seen node.old)
        gathered.old page.old.held }
    requires within { next.old ≤ length steps.now }
    requires first { IsFirst (net_of site.now.topo.now) site.now.hosted.now (drop next.old steps.now) }
    requires piece { length piece.old ≡ 65535 }
    ensures piece { length piece.new ≡ 65535 }
    ensures traced { TurnTraced site.now.topo.now site.now.hosted.now P.tells D.tells steps.now next.old next.new
        (seen node.old) (seen node.new) (K.taken sink.old) (K.taken sink.new)
        (P.journal post.old) (P.journal post.new) (D.lane_of disk.old) (D.lane_of disk.new) result }
    ensures within { OnOk result (next.new ≤ length steps.now) }
    ensures first { OnOk result (IsFirst (net_of site.now.topo.now) site.now.hosted.now (drop next.new steps.now)) }
    ensures serving_at_post { IsErrOf result RunFault.Post
        → IsServing site.now.topo.now site.now.hosted.now D.tells (D.lane_of disk.new) (seen node.new) }
    ensures between { OnOk result (IsBetween site.now.topo.now site.now.hosted.now D.tells (D.lane_of disk.new)
        (seen node.new) gathered.new page.new.held) }
    ensures keeps { RunKeeps site.now.topo.now site.now.hosted.now D.tells D.lane_of D.faults D.stops disk.old disk.new
        (K.faults sink.old) (K.faults sink.new) (P.faults post.old) (P.faults post.new) result }
{
    match await_next(post, *next < steps.len(), piece) {
        Ok(arrival) => match arrival {
            Arrival::Datagram { at, len, moment } => {
                match trace_datagram(
                    site,
                    node,
                    at,
                    &piece[..len],
                    moment,
                    disk,
                    post,
                    gathered,
                    page,
                    sink,
                ) {
                    Ok(()) => Ok(true),
                    Err(fault) => Err(fault),
                }
            }
            Arrival::Quiet { moment } => {
                match trace_quiet(
                    site, node, steps, *next, moment, disk, post, gathered, page, sink,
                ) {
                    Ok(()) => {
                        *next = next_after(site, steps, *next);
                        Ok(true)
                    }
                    Err(fault) => Err(fault),
                }
            }
            Arrival::Closed => Ok(false),
        },
        Err(fault) => match fault {
            PostFault::Failed => Err(RunFault::Post),
            PostFault::Memory => Err(RunFault::Memory),
        },
    }
}

/// Room for a datagram.
fn new_piece(alloc: Global) -> Result<Vec<u8>, Memory>
    ensures { IfOk result (λ v. vec_len v ≡ 65535) }
{
    vec![in alloc; 0u8; MAX_DATAGRAM]
}

/// Takes at most so many arrivals, and writes the group of each before the next is waited for.
pub(crate) fn run<D: Disk, P: Paced, K: Sink>(
    site: &Site<'_>,
    node: &mut Node,
    steps: &[Line],
    turns: u64,
    disk: &mut D,
    post: &mut P,
    gathered: &mut Gathered,
    page: &mut Page,
    sink: &mut K,
) -> Result<(), RunFault>
    requires asked { IsAsked site.now.topo.now site.now.hosted.now steps.now }
    requires between { IsBetween site.now.topo.now site.now.hosted.now D.tells (D.lane_of disk.old) (seen node.old)
        gathered.old page.old.held }
    ensures traced { TurnsTraced site.now.topo.now site.now.hosted.now P.tells D.tells steps.now turns
        (seen node.old) (seen node.new) (K.taken sink.old) (K.taken sink.new)
        (P.journal post.old) (P.journal post.new) (D.lane_of disk.old) (D.lane_of disk.new) result }
    ensures keeps { RunKeeps site.now.topo.now site.now.hosted.now D.tells D.lane_of D.faults D.stops disk.old disk.new
        (K.faults sink.old) (K.faults sink.new) (P.faults post.old) (P.faults post.new) result }
    ensures serving { OnOk result
        (IsServing site.now.topo.now site.now.hosted.now D.tells (D.lane_of disk.new) (seen node.new)) }
    ensures serving_at_post { IsErrOf result RunFault.Post
        → IsServing site.now.topo.now site.now.hosted.now D.tells (D.lane_of disk.new) (seen node.new) }
{
    let mut next = next_request(site, steps, 0);
    let mut piece = match new_piece(site.alloc) {
        Ok(piece) => piece,
        Err(_) => return Err(RunFault::Memory),
    };
    'turns: for _ in 0..turns {
        match turn(
            site, node, steps, &mut next, &mut piece, disk, post, gathered, page, sink,
        ) {
            Ok(goes_on) => {
                if !goes_on {
                    return Ok(());
                }
            }
            Err(fault) => return Err(fault),
        }
    }
    Ok(())
}
