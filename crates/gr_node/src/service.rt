//! A whole run: the nodes are bound, the hosted ones start, what comes is taken, and at the end all is shown.

ghost use Rattle.std.specs.Prelude.{◌≡◌, ◌≢◌, ℕ, ◌<◌, ◌++◌, ◌∷◌, List, [], length, map, Err, IsSome, IsErrOf};
ghost use Rattle.std.specs.Prelude.{OnOk, OnErr};
ghost use Rattle.gr_out.specs.Entry.{Entry};
ghost use Rattle.gr_out.specs.Page.{TakesBut, TakesFront};
ghost use Rattle.gr_scenario.specs.Steps.{AreStepsOf};
ghost use Rattle.gr_node.specs.Seen.{seen, broker_in, none_started, text_of};
ghost use Rattle.gr_node.specs.Of.{AreHosted, AreAddressed, IsSet, AllStand, OthersStay};
ghost use Rattle.gr_node.specs.Keeps.{IsServing, IsAsked, CanRun, PutKeeps, RunKeeps, LeavesEmpty, IsDamagedHere};
ghost use Rattle.gr_node.specs.Lasting.{StartsKeep};
ghost use Rattle.gr_node.specs.Plan.{bound_entry, nodes};
ghost use Rattle.gr_node.specs.Done.{shown};
ghost use Rattle.gr_node.specs.Went.{outside, SinkMoves, DiskMoves, PostMoves};
ghost use Rattle.gr_node.specs.Starting.{Started, Found, IsFirstDamaged};
ghost use Rattle.gr_node.specs.Served.{Course, IsRunOf, Posts, Prints, KeepsLogs};
ghost use Rattle.gr_node.specs.Ending.{IsEnd, RanWith, Serves};

use crate::bindings::bind_all;
use crate::finishing::finish;
use crate::node::{Node, Site};
use crate::running::run;
use crate::showing::show;
use crate::starting::start_hosted;
use gr_broker::frames_pass_the_log;
use gr_out::{Disk, Page, RunFault, Sink};
use gr_pace::Paced;
use gr_publog::law::stands_read;
use gr_report::put_all;
use gr_sched::{Line, Steps};
use gr_topo::Topology;
use std::alloc::Global;

/// Starts the hosted brokers, and writes what that tells.
pub fn open_hosted<D: Disk, K: Sink>(
    site: &Site<'_>,
    node: &mut Node,
    disk: &mut D,
    page: &mut Page,
    sink: &mut K,
) -> Result<(), RunFault>
    requires hosted { AreHosted site.now.topo.now site.now.hosted.now }
    requires none { seen node.old ≡ none_started site.now.topo.now }
    // all that they tell is written
    ensures started { Started site.now.topo.now site.now.hosted.now (seen node.new)
        (outside (K.taken sink.old) page.old.held []) (outside (K.taken sink.new) [] []) result }
    ensures empty { LeavesEmpty page.new.held result }
    ensures set { OnOk result (IsSet site.now.topo.now site.now.hosted.now (seen node.new)) }
    ensures count { length (seen node.new).brokers ≡ length site.now.topo.now.brokers }
    ensures offers { (seen node.new).offers ≡ 0 }
    ensures now { (seen node.new).now ≡ 0 }
    ensures found { D.tells → (b : ℕ) → IsSome (broker_in (seen node.new) b)
        → Found site.now.topo.now (seen node.new) (b ∷ []) (D.lane_of disk.old) }
    ensures stands { D.tells → AllStand (D.lane_of disk.new) (seen node.new) }
    ensures others { D.tells
        → OthersStay site.now.topo.now site.now.hosted.now (D.lane_of disk.old) (D.lane_of disk.new) }
    ensures kept { D.tells → StartsKeep site.now.topo.now.late (D.lane_of disk.old) (D.lane_of disk.new) }
    ensures damaged { D.tells → (p at : ℕ) → result ≡ Err (RunFault.Damaged p at)
        → IsFirstDamaged site.now.topo.now site.now.hosted.now p at (D.lane_of disk.old) }
    ensures damaged_here { IsDamagedHere site.now.topo.now site.now.hosted.now result }
    ensures never_post { result ≢ Err RunFault.Post }
    ensures disk { DiskMoves (D.faults disk.old) (D.stops disk.old) (D.faults disk.new) (D.stops disk.new) result }
    ensures sink { SinkMoves (K.faults sink.old) (K.faults sink.new) result }
{
    let done = start_hosted(site, node, disk, page, sink);
    finish(done, page, sink)
}

/// Puts what is shown at the end.
fn put_shown<K: Sink>(
    site: &Site<'_>,
    node: &Node,
    page: &mut Page,
    sink: &mut K,
) -> Result<(), RunFault>
    requires hosted { AreHosted site.now.topo.now site.now.hosted.now }
    requires set { IsSet site.now.topo.now site.now.hosted.now (seen node.now) }
    ensures told { OnOk result (TakesBut (K.taken sink.old) (K.taken sink.new)
        (page.old.held ++ text_of site.now.topo.now
        (shown site.now.topo.now site.now.hosted.now (seen node.entry.now))) page.new.held) }
    ensures front { OnErr result (TakesFront (K.taken sink.old) (K.taken sink.new)
        (page.old.held ++ text_of site.now.topo.now
        (shown site.now.topo.now site.now.hosted.now (seen node.entry.now)))) }
    ensures puts { PutKeeps (K.faults sink.old) (K.faults sink.new) result }
{
    match show(site, node) {
        Ok(lines) => put_all(site.topo, lines.as_slice(), page, sink),
        Err(_) => Err(RunFault::Memory),
    }
}

/// Takes what comes, and then puts what is shown.
fn run_and_show<D: Disk, P: Paced, K: Sink>(
    site: &Site<'_>,
    node: &mut Node,
    steps: &[Line],
    turns: u64,
    disk: &mut D,
    post: &mut P,
    page: &mut Page,
    sink: &mut K,
) -> Result<(), RunFault>
    requires can { CanRun site.now.topo.now site.now.hosted.now D.tells (D.lane_of disk.old) steps.now (seen node.old)
        page.old.held }
    ensures ran { RanWith site.now.topo.now site.now.hosted.now P.tells D.tells steps.now turns
        (seen node.old) (seen node.new)
        (outside (K.taken sink.old) page.old.held (P.journal post.old))
        (outside (K.taken sink.new) page.new.held (P.journal post.new))
        (D.lane_of disk.old) (D.lane_of disk.new) result }
    ensures at_post { IsErrOf result RunFault.Post → page.new.held ≡ [] }
    ensures serving { IsEnd result
        → IsServing site.now.topo.now site.now.hosted.now D.tells (D.lane_of disk.new) (seen node.new) }
    ensures keeps { RunKeeps site.now.topo.now site.now.hosted.now D.tells D.lane_of D.faults D.stops disk.old disk.new
        (K.faults sink.old) (K.faults sink.new) (P.faults post.old) (P.faults post.new) result }
{
    match run(site, node, steps, turns, disk, post, page, sink) {
        Ok(()) => put_shown(site, node, page, sink),
        Err(fault) => Err(fault),
    }
}

/// The same, and what the page holds is written.
fn carry_out<D: Disk, P: Paced, K: Sink>(
    site: &Site<'_>,
    node: &mut Node,
    steps: &[Line],
    turns: u64,
    disk: &mut D,
    post: &mut P,
    page: &mut Page,
    sink: &mut K,
) -> Result<(), RunFault>
    requires can { CanRun site.now.topo.now site.now.hosted.now D.tells (D.lane_of disk.old) steps.now (seen node.old)
        page.old.held }
    ensures ran { RanWith site.now.topo.now site.now.hosted.now P.tells D.tells steps.now turns
        (seen node.old) (seen node.new)
        (outside (K.taken sink.old) [] (P.journal post.old)) (outside (K.taken sink.new) [] (P.journal post.new))
        (D.lane_of disk.old) (D.lane_of disk.new) result }
    ensures serving { IsEnd result
        → IsServing site.now.topo.now site.now.hosted.now D.tells (D.lane_of disk.new) (seen node.new) }
    ensures keeps { RunKeeps site.now.topo.now site.now.hosted.now D.tells D.lane_of D.faults D.stops disk.old disk.new
        (K.faults sink.old) (K.faults sink.new) (P.faults post.old) (P.faults post.new) result }
{
    let done = run_and_show(site, node, steps, turns, disk, post, page, sink);
    finish(done, page, sink)
}

/// Serves with a node and a page that are new, once all nodes are bound.
fn serve_with<D: Disk, P: Paced, K: Sink>(
    site: &Site<'_>,
    node: &mut Node,
    page: &mut Page,
    steps: &[Line],
    turns: u64,
    disk: &mut D,
    post: &mut P,
    sink: &mut K,
) -> Result<(), RunFault>
    requires asked { IsAsked site.now.topo.now site.now.hosted.now steps.now }
    requires none { seen node.old ≡ none_started site.now.topo.now }
    requires empty { page.old.held ≡ [] }
    ensures serves { (journal : List Entry) → (P.tells → P.journal post.old ≡ journal
        ++ map (bound_entry site.now.topo.now site.now.hosted.now) (nodes site.now.topo.now site.now.hosted.now))
        → Serves site.now.topo.now site.now.hosted.now steps.now turns P.tells D.tells journal (P.journal post.new)
        (K.taken sink.old) (K.taken sink.new) (D.lane_of disk.old) (D.lane_of disk.new) result }
    ensures damaged_here { IsDamagedHere site.now.topo.now site.now.hosted.now result }
    ensures disk { DiskMoves (D.faults disk.old) (D.stops disk.old) (D.faults disk.new) (D.stops disk.new) result }
    ensures sink { SinkMoves (K.faults sink.old) (K.faults sink.new) result }
    ensures post { PostMoves (P.faults post.old) (P.faults post.new) result }
{
    // Proof only: the limits of a topology, what stands in lanes, and that no log has a part in what is received.
    let _ = site.topo.brokers();
    stands_read();
    frames_pass_the_log();
    match open_hosted(site, node, disk, page, sink) {
        Ok(()) => carry_out(site, node, steps, turns, disk, post, page, sink),
        Err(fault) => Err(fault),
    }
}

/// Serves, once all nodes are bound.
fn serve_bound<D: Disk, P: Paced, K: Sink>(
    site: &Site<'_>,
    steps: &[Line],
    turns: u64,
    disk: &mut D,
    post: &mut P,
    sink: &mut K,
) -> Result<(), RunFault>
    requires asked { IsAsked site.now.topo.now site.now.hosted.now steps.now }
    ensures serves { (journal : List Entry) → (P.tells → P.journal post.old ≡ journal
        ++ map (bound_entry site.now.topo.now site.now.hosted.now) (nodes site.now.topo.now site.now.hosted.now))
        → Serves site.now.topo.now site.now.hosted.now steps.now turns P.tells D.tells journal (P.journal post.new)
        (K.taken sink.old) (K.taken sink.new) (D.lane_of disk.old) (D.lane_of disk.new) result }
    ensures damaged_here { IsDamagedHere site.now.topo.now site.now.hosted.now result }
    ensures disk { DiskMoves (D.faults disk.old) (D.stops disk.old) (D.faults disk.new) (D.stops disk.new) result }
    ensures sink { SinkMoves (K.faults sink.old) (K.faults sink.new) result }
    ensures post { PostMoves (P.faults post.old) (P.faults post.new) result }
{
    // Proof only: the limits of a topology.
    let _ = site.topo.brokers();
    let mut node = match Node::new(site.alloc, site.topo) {
        Ok(node) => node,
        Err(_) => return Err(RunFault::Memory),
    };
    let mut page = match Page::new(site.alloc) {
        Ok(page) => page,
        Err(_) => return Err(RunFault::Memory),
    };
    serve_with(site, &mut node, &mut page, steps, turns, disk, post, sink)
}

/// Serves the hosted brokers of a topology over a post, with their logs on a disk, and writes the report of it to a
/// sink. Ticks and moments are milliseconds.
///
/// In order: each broker is bound to its address, and then the client of each publisher that has one and whose broker
/// is hosted; the hosted brokers start, in rising order, over the logs that their lanes hold; at most so many arrivals
/// are taken, as `turns` says, each with all that it causes, until nothing comes any more; and then all is shown. At a
/// quiet moment the next request of the steps is carried out, a publish of a hosted publisher that has no client or a
/// join to a hosted publisher, and each hosted broker is woken for each publisher. A datagram that begins as a note is
/// one: what a client submits to its host is published, and once it is logged the host offers the client which number
/// it waits for; any other note is dropped. What an arrival has caused is written before the next is waited for.
///
/// `Post` only where a binding failed, or the wait for an arrival; `Damaged` where the lanes of a publisher at a hosted
/// broker hold no log: the first such publisher, and the place of the first fault; `Disk` only where the disk failed
/// in this call. After these the lines of all calls before are written, and their frames were offered. `Memory` where
/// memory is refused, and `Write` only where the sink failed, in place of `Disk` or `Damaged` too: the sink took a
/// front of the report, and of what was to be offered a front was. A frame that the post could not send is lost, and
/// the run goes on.
pub fn serve<D: Disk, P: Paced, K: Sink>(
    alloc: Global,
    topo: &Topology,
    steps: &Steps,
    hosted: &[u16],
    turns: u64,
    disk: &mut D,
    post: &mut P,
    sink: &mut K,
) -> Result<(), RunFault>
    requires steps { AreStepsOf topo.now steps.now }
    requires hosted { AreHosted topo.now hosted.now }
    requires addressed { AreAddressed topo.now }
    ensures ran { (c : Course) × (IsRunOf topo.now hosted.now steps.now turns c result
        × ((P.tells → Posts topo.now hosted.now steps.now c (P.journal post.old) (P.journal post.new) result)
        × (Prints topo.now hosted.now steps.now c (K.taken sink.old) (K.taken sink.new) result
        × (D.tells → KeepsLogs topo.now hosted.now steps.now c (D.lane_of disk.old) (D.lane_of disk.new) result)))) }
    ensures damaged_here { IsDamagedHere topo.now hosted.now result }
    ensures disk { DiskMoves (D.faults disk.old) (D.stops disk.old) (D.faults disk.new) (D.stops disk.new) result }
    ensures sink { SinkMoves (K.faults sink.old) (K.faults sink.new) result }
    ensures post { PostMoves (P.faults post.old) (P.faults post.new) result }
{
    // Proof only: the limits of a topology.
    let _ = topo.brokers();
    let site = Site {
        alloc,
        topo,
        hosted,
    };
    match bind_all(&site, post) {
        Ok(()) => {}
        Err(fault) => return Err(fault),
    }
    serve_bound(&site, steps.as_slice(), turns, disk, post, sink)
}
