//! A run: what comes is taken, turn by turn.

ghost use Rattle.std.specs.Prelude.{◌≡◌, ◌≢◌, ◌⊎◌, ◌≤◌, Bool, true, List, [], length};
ghost use Rattle.std.specs.Prelude.{Err, OnOk, IfOk, IsErrOf, vec_len};
ghost use Rattle.std.specs.List.{AllByRecursion};
ghost use Rattle.gr_model.specs.NetOf.{net_of};
ghost use Rattle.gr_model.specs.Arrivals.{Arrival};
ghost use Rattle.gr_model_theorems.specs.Served.{IsOfBytes};
ghost use Rattle.gr_node.specs.Seen.{seen};
ghost use Rattle.gr_node.specs.Lasting.{ActsKeep, StoodEachTime};
ghost use Rattle.gr_node.specs.Keeps.{IsServing, CanRun, RunKeeps};
ghost use Rattle.gr_node.specs.Plan.{turn_acts, run_acts};
ghost use Rattle.gr_node.specs.Done.{settled};
ghost use Rattle.gr_node.specs.Went.{outside, Went, IsExact};

use crate::arriving::turn;
use crate::node::{Node, Site};
use crate::ordering::settle;
use crate::schedule::next_request;
use gr_out::{Disk, Memory, Page, RunFault, Sink};
use gr_pace::Paced;
use gr_sched::Line;
use std::alloc::Global;

/// How much of a datagram is taken.
const PIECE_BYTES: usize = 65_535;

/// Room for a datagram.
fn new_piece(alloc: Global) -> Result<Vec<u8>, Memory>
    ensures { IfOk result (λ v. vec_len v ≡ 65535) }
{
    vec![in alloc; 0u8; PIECE_BYTES]
}

/// Takes at most so many arrivals, each with all that it causes; after each the page is flushed, before the next is
/// waited for. Of a datagram 65,535 bytes are taken.
///
/// `Memory` where memory is refused, and `Disk`, `Write` and `Post` only where the disk, the sink or the post failed.
fn run_turns<D: Disk, P: Paced, K: Sink>(
    site: &Site<'_>,
    node: &mut Node,
    steps: &[Line],
    turns: u64,
    disk: &mut D,
    post: &mut P,
    page: &mut Page,
    sink: &mut K,
) -> Result<(), RunFault>
    requires can { CanRun site.now.topo.now site.now.hosted.now D.tells (D.lane_of disk.old) steps.now (seen node.old)
        page.old.held }
    ensures ran { (came : List Arrival) × ((shut : Bool) × ((length came ≤ turns) × (AllByRecursion IsOfBytes came
        × (OnOk result ((shut ≡ true) ⊎ (length came ≡ turns))
        × (Went site.now.topo.now site.now.hosted.now P.tells
        (turn_acts (net_of site.now.topo.now) site.now.hosted.now steps.now came shut)
        (seen node.old) (seen node.new) (outside (K.taken sink.old) page.old.held (P.journal post.old))
        (outside (K.taken sink.new) page.new.held (P.journal post.new)) result
        × ((D.tells → ActsKeep site.now.topo.now site.now.hosted.now (seen node.old)
        (turn_acts (net_of site.now.topo.now) site.now.hosted.now steps.now came shut)
        (D.lane_of disk.old) (D.lane_of disk.new))
        × (D.tells → StoodEachTime site.now.topo.now site.now.hosted.now steps.now (seen node.old) came shut
        (D.lane_of disk.new)))))))) }
    ensures empty { IsExact result → (result ≢ Err RunFault.Disk) → page.new.held ≡ [] }
    ensures serving { OnOk result
        (IsServing site.now.topo.now site.now.hosted.now D.tells (D.lane_of disk.new) (seen node.new)) }
    ensures serving_at_post { IsErrOf result RunFault.Post
        → IsServing site.now.topo.now site.now.hosted.now D.tells (D.lane_of disk.new) (seen node.new) }
    ensures keeps { RunKeeps site.now.topo.now site.now.hosted.now D.tells D.lane_of D.faults D.stops disk.old disk.new
        (K.faults sink.old) (K.faults sink.new) (P.faults post.old) (P.faults post.new) result }
{
    let mut piece = match new_piece(site.alloc) {
        Ok(piece) => piece,
        Err(_) => return Err(RunFault::Memory),
    };
    let mut next = next_request(site, steps, 0);
    'turns: for _ in 0..turns {
        match turn(
            site, node, steps, &mut next, &mut piece, disk, post, page, sink,
        ) {
            Ok(goes_on) => {
                if !goes_on {
                    return Ok(());
                }
            }
            Err(fault) => return Err(fault),
        }
    }
    Ok(())
}

/// Tells what is ready in one order after the starts, and then takes at most so many arrivals, each with all that it
/// causes; after each the page is flushed, before the next is waited for. Of a datagram 65,535 bytes are taken.
///
/// `Memory` where memory is refused, and `Disk`, `Write` and `Post` only where the disk, the sink or the post failed.
pub(crate) fn run<D: Disk, P: Paced, K: Sink>(
    site: &Site<'_>,
    node: &mut Node,
    steps: &[Line],
    turns: u64,
    disk: &mut D,
    post: &mut P,
    page: &mut Page,
    sink: &mut K,
) -> Result<(), RunFault>
    requires can { CanRun site.now.topo.now site.now.hosted.now D.tells (D.lane_of disk.old) steps.now (seen node.old)
        page.old.held }
    ensures ran { (came : List Arrival) × ((shut : Bool) × ((length came ≤ turns) × (AllByRecursion IsOfBytes came
        × (OnOk result ((shut ≡ true) ⊎ (length came ≡ turns))
        × (Went site.now.topo.now site.now.hosted.now P.tells
        (run_acts (net_of site.now.topo.now) site.now.hosted.now steps.now came shut)
        (seen node.old) (seen node.new) (outside (K.taken sink.old) page.old.held (P.journal post.old))
        (outside (K.taken sink.new) page.new.held (P.journal post.new)) result
        × ((D.tells → ActsKeep site.now.topo.now site.now.hosted.now (seen node.old)
        (run_acts (net_of site.now.topo.now) site.now.hosted.now steps.now came shut)
        (D.lane_of disk.old) (D.lane_of disk.new))
        × (D.tells → StoodEachTime site.now.topo.now site.now.hosted.now steps.now
        (settled (seen node.old)) came shut (D.lane_of disk.new)))))))) }
    ensures empty { IsExact result → (result ≢ Err RunFault.Disk) → page.new.held ≡ [] }
    ensures serving { OnOk result
        (IsServing site.now.topo.now site.now.hosted.now D.tells (D.lane_of disk.new) (seen node.new)) }
    ensures serving_at_post { IsErrOf result RunFault.Post
        → IsServing site.now.topo.now site.now.hosted.now D.tells (D.lane_of disk.new) (seen node.new) }
    ensures keeps { RunKeeps site.now.topo.now site.now.hosted.now D.tells D.lane_of D.faults D.stops disk.old disk.new
        (K.faults sink.old) (K.faults sink.new) (P.faults post.old) (P.faults post.new) result }
{
    match settle(site, node, page, sink) {
        Ok(()) => run_turns(site, node, steps, turns, disk, post, page, sink),
        Err(fault) => Err(fault),
    }
}
