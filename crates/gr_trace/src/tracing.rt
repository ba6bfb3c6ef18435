//! A whole run that is written as a journal.

ghost use Rattle.std.specs.Prelude.{◌≡◌, false, [], OnOk, IsOkUnless};
ghost use Rattle.gr_scenario.specs.Steps.{AreStepsOf};
ghost use Rattle.gr_audit.specs.Audited.{has_clients};
ghost use Rattle.gr_node.specs.Of.{AreHosted, AreAddressed};
ghost use Rattle.gr_node.specs.Keeps.{IsAsked, IsDamagedHere};
ghost use Rattle.gr_node.specs.Seen.{seen, none_started};
ghost use Rattle.gr_node.specs.Served.{Course, IsRunOf, Posts, KeepsLogs};
ghost use Rattle.gr_node.specs.Went.{SinkMoves, DiskMoves, PostMoves};
ghost use Rattle.gr_journal.specs.Lines.{process_text};
ghost use Rattle.gr_trace.specs.Gathered.{IsEmpty, OpenKeeps, IsBetween};
ghost use Rattle.gr_trace.specs.Traced.{Traces};
ghost use Rattle.gr_trace.specs.Wrote.{OpeningTraced, TracesBound, EndsEarly};

use crate::gathering::{Gathered, open};
use crate::running::{run, write_gathered};
use gr_broker::frames_pass_the_log;
use gr_journal::process_text;
use gr_node::{Node, Site, bind_all};
use gr_out::{Disk, Page, Post, RunFault, Sink};
use gr_pace::Paced;
use gr_publog::law::stands_read;
use gr_sched::{Line, Steps};
use gr_topo::Topology;
use std::alloc::Global;

/// Puts the line of the process into an empty page.
fn put_process(site: &Site<'_>, page: &mut Page) -> Result<(), RunFault>
    ensures put { OnOk result (page.new.held ≡ process_text site.now.topo.now site.now.hosted.now) }
    ensures cause { IsOkUnless result RunFault.Memory }
{
    match process_text(site.alloc, site.topo, site.hosted) {
        Ok(text) => {
            page.held = text;
            Ok(())
        }
        Err(_) => Err(RunFault::Memory),
    }
}

/// The hosted brokers start, and the line of the process and what the starts tell are written.
fn trace_opening<D: Disk, P: Post, K: Sink>(
    site: &Site<'_>,
    node: &mut Node,
    disk: &mut D,
    post: &mut P,
    gathered: &mut Gathered,
    page: &mut Page,
    sink: &mut K,
) -> Result<(), RunFault>
    requires hosted { AreHosted site.now.topo.now site.now.hosted.now }
    requires none { seen node.old ≡ none_started site.now.topo.now }
    requires empty { IsEmpty gathered.old }
    ensures opening { OpeningTraced site.now.topo.now site.now.hosted.now D.tells (seen node.new)
        (process_text site.now.topo.now site.now.hosted.now) (K.taken sink.old) (K.taken sink.new)
        (D.lane_of disk.old) result }
    ensures between { OnOk result (IsBetween site.now.topo.now site.now.hosted.now D.tells (D.lane_of disk.new)
        (seen node.new) gathered.new page.new.held) }
    ensures starts { OpenKeeps site.now.topo.now site.now.hosted.now D.tells D.lane_of D.faults D.stops
        disk.old disk.new result }
    ensures sink { SinkMoves (K.faults sink.old) (K.faults sink.new) result }
    ensures post { P.faults post.new ≡ P.faults post.old }
    ensures unsent { P.tells → P.journal post.new ≡ P.journal post.old }
{
    match put_process(site, page) {
        Ok(()) => {}
        Err(fault) => return Err(fault),
    }
    let done = open(site, node, disk, gathered);
    write_gathered(site.topo, done, gathered, post, page, sink)
}

/// Traces with what is new, once all nodes are bound.
fn trace_with<D: Disk, P: Paced, K: Sink>(
    site: &Site<'_>,
    node: &mut Node,
    gathered: &mut Gathered,
    page: &mut Page,
    steps: &[Line],
    turns: u64,
    disk: &mut D,
    post: &mut P,
    sink: &mut K,
) -> Result<(), RunFault>
    requires asked { IsAsked site.now.topo.now site.now.hosted.now steps.now }
    requires unheard { has_clients site.now.topo.now ≡ false }
    requires none { seen node.old ≡ none_started site.now.topo.now }
    requires empty { IsEmpty gathered.old }
    ensures ends { EndsEarly site.now.topo.now site.now.hosted.now D.faults D.stops disk.old disk.new
        (K.faults sink.old) (K.faults sink.new) (P.faults post.old) (P.faults post.new) result }
    ensures traces { TracesBound site.now.topo.now site.now.hosted.now steps.now turns P.tells D.tells
        (P.journal post.old) (P.journal post.new) (K.taken sink.old) (K.taken sink.new)
        (D.lane_of disk.old) (D.lane_of disk.new) result }
{
    // Proof only: the limits of a topology, what stands in lanes, and that no log has a part in what is received.
    let _ = site.topo.brokers();
    stands_read();
    frames_pass_the_log();
    match trace_opening(site, node, disk, post, gathered, page, sink) {
        Ok(()) => run(site, node, steps, turns, disk, post, gathered, page, sink),
        Err(fault) => Err(fault),
    }
}

/// Traces, once all nodes are bound.
fn trace_bound<D: Disk, P: Paced, K: Sink>(
    site: &Site<'_>,
    steps: &[Line],
    turns: u64,
    disk: &mut D,
    post: &mut P,
    sink: &mut K,
) -> Result<(), RunFault>
    requires asked { IsAsked site.now.topo.now site.now.hosted.now steps.now }
    requires unheard { has_clients site.now.topo.now ≡ false }
    ensures traces { TracesBound site.now.topo.now site.now.hosted.now steps.now turns P.tells D.tells
        (P.journal post.old) (P.journal post.new) (K.taken sink.old) (K.taken sink.new)
        (D.lane_of disk.old) (D.lane_of disk.new) result }
    ensures ends { EndsEarly site.now.topo.now site.now.hosted.now D.faults D.stops disk.old disk.new
        (K.faults sink.old) (K.faults sink.new) (P.faults post.old) (P.faults post.new) result }
{
    // Proof only: the limits of a topology.
    let _ = site.topo.brokers();
    let mut node = match Node::new(site.alloc, site.topo) {
        Ok(node) => node,
        Err(_) => return Err(RunFault::Memory),
    };
    let mut gathered = match Gathered::new(site.alloc) {
        Ok(gathered) => gathered,
        Err(_) => return Err(RunFault::Memory),
    };
    let mut page = match Page::new(site.alloc) {
        Ok(page) => page,
        Err(_) => return Err(RunFault::Memory),
    };
    trace_with(
        site,
        &mut node,
        &mut gathered,
        &mut page,
        steps,
        turns,
        disk,
        post,
        sink,
    )
}

/// Serves the hosted brokers of a topology over a post, with their logs on a disk, and writes their journal to a sink:
/// the line of the process, what the starts tell, and for each arrival its line, the lines of the report and the
/// offers. No publisher may have a client.
pub fn trace<D: Disk, P: Paced, K: Sink>(
    alloc: Global,
    topo: &Topology,
    steps: &Steps,
    hosted: &[u16],
    turns: u64,
    disk: &mut D,
    post: &mut P,
    sink: &mut K,
) -> Result<(), RunFault>
    requires steps { AreStepsOf topo.now steps.now }
    requires hosted { AreHosted topo.now hosted.now }
    requires addressed { AreAddressed topo.now }
    requires unheard { has_clients topo.now ≡ false }
    ensures ran { (c : Course) × (IsRunOf topo.now hosted.now steps.now turns c result
        × ((P.tells → Posts topo.now hosted.now steps.now c (P.journal post.old) (P.journal post.new) result)
        × (Traces topo.now hosted.now steps.now c (K.taken sink.old) (K.taken sink.new) result
        × (D.tells → KeepsLogs topo.now hosted.now steps.now c (D.lane_of disk.old) (D.lane_of disk.new) result)))) }
    ensures damaged_here { IsDamagedHere topo.now hosted.now result }
    ensures disk { DiskMoves (D.faults disk.old) (D.stops disk.old) (D.faults disk.new) (D.stops disk.new) result }
    ensures sink { SinkMoves (K.faults sink.old) (K.faults sink.new) result }
    ensures post { PostMoves (P.faults post.old) (P.faults post.new) result }
{
    // Proof only: the limits of a topology.
    let _ = topo.brokers();
    let site = Site {
        alloc,
        topo,
        hosted,
    };
    match bind_all(&site, post) {
        Ok(()) => {}
        Err(fault) => return Err(fault),
    }
    trace_bound(&site, steps.as_slice(), turns, disk, post, sink)
}
