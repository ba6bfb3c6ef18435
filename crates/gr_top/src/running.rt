//! Brokers of a topology serve.

ghost use Rattle.std.specs.Prelude.{◌≡◌, ◌⊎◌, ◌<◌, length, Ok};
ghost use Rattle.gr_out.specs.Bytes.{with_more};
ghost use Rattle.gr_out.specs.Page.{TakesFront};
ghost use Rattle.gr_node.specs.Keeps.{IsDamagedHere};
ghost use Rattle.gr_node.specs.Served.{Course, IsRunOf, Posts, KeepsLogs};
ghost use Rattle.gr_node.specs.Went.{SinkMoves, DiskMoves, PostMoves};
ghost use Rattle.gr_top.specs.Serving.{CanRun, Writes, around, RunsTo, StopsBy, IsDamaged, AllRead, damaged_line};
ghost use Rattle.gr_top.specs.Top.{IsCut, IsStop};
ghost use Rattle.gr_top.specs.Status.{SinkStatus, DiskStatus, PostStatus};

use crate::voice::Voice;
use gr_model::Report;
use gr_node::{an_honest_journal_meets_the_headline, serve};
use gr_out::{Disk, RunFault, Sink};
use gr_pace::Paced;
use gr_report_text::{PutFault, put};
use gr_sched::Steps;
use gr_topo::Topology;
use gr_trace::trace;
use std::alloc::Global;

/// Runs brokers of a topology over a post, with their logs on a disk. Gives the status.
pub(crate) fn run<D: Disk, P: Paced, K: Sink>(
    alloc: Global,
    voice: Voice,
    topo: &Topology,
    steps: &Steps,
    hosted: &[u16],
    turns: u64,
    disk: &mut D,
    post: &mut P,
    sink: &mut K,
) -> u8
    requires { CanRun voice topo.now steps.now hosted.now }
    ensures served { result ≡ 0 → RunsTo voice topo.now steps.now hosted.now turns P.tells D.tells
        (around (K.taken sink.old) (P.journal post.old) (D.lane_of disk.old))
        (around (K.taken sink.new) (P.journal post.new) (D.lane_of disk.new)) (Ok tt) }
    ensures stopped { IsCut result ⊎ IsStop result → StopsBy voice topo.now steps.now hosted.now turns P.tells D.tells
        (around (K.taken sink.old) (P.journal post.old) (D.lane_of disk.old))
        (around (K.taken sink.new) (P.journal post.new) (D.lane_of disk.new)) result }
    ensures damaged { result ≡ 6 → D.tells → IsDamaged topo.now hosted.now (D.lane_of disk.old) }
    ensures undamaged { result ≡ 0 → D.tells → AllRead topo.now hosted.now (D.lane_of disk.old) }
    ensures disk { DiskStatus result (D.faults disk.old) (D.stops disk.old) (D.faults disk.new) (D.stops disk.new) }
    ensures post { PostStatus result (P.faults post.old) (P.faults post.new) }
    ensures sink { SinkStatus result (K.faults sink.old) (K.faults sink.new) }
    ensures complete { (result ≡ 0) ⊎ (IsCut result ⊎ IsStop result) }
{
    // Proof only: the headline of an honest journal, and its lists over all publishers.
    an_honest_journal_meets_the_headline(topo);
    match write(alloc, voice, topo, steps, hosted, turns, disk, post, sink) {
        Ok(()) => 0,
        Err(RunFault::Write) => 4,
        Err(RunFault::Disk) => 5,
        Err(RunFault::Damaged { publisher, at }) => print_damaged(alloc, topo, publisher, at, sink),
        Err(RunFault::Memory) => 7,
        Err(RunFault::Post) => 8,
    }
}

/// Runs brokers of a topology, and writes their report or their journal.
fn write<D: Disk, P: Paced, K: Sink>(
    alloc: Global,
    voice: Voice,
    topo: &Topology,
    steps: &Steps,
    hosted: &[u16],
    turns: u64,
    disk: &mut D,
    post: &mut P,
    sink: &mut K,
) -> Result<(), RunFault>
    requires { CanRun voice topo.now steps.now hosted.now }
    ensures ran { (c : Course) × (IsRunOf topo.now hosted.now steps.now turns c result
        × ((P.tells → Posts topo.now hosted.now steps.now c (P.journal post.old) (P.journal post.new) result)
        × (Writes voice topo.now steps.now hosted.now c (K.taken sink.old) (K.taken sink.new) result
        × (D.tells → KeepsLogs topo.now hosted.now steps.now c (D.lane_of disk.old) (D.lane_of disk.new) result)))) }
    ensures damaged_here { IsDamagedHere topo.now hosted.now result }
    ensures disk { DiskMoves (D.faults disk.old) (D.stops disk.old) (D.faults disk.new) (D.stops disk.new) result }
    ensures sink { SinkMoves (K.faults sink.old) (K.faults sink.new) result }
    ensures post { PostMoves (P.faults post.old) (P.faults post.new) result }
{
    match voice {
        Voice::Report => serve(alloc, topo, steps, hosted, turns, disk, post, sink),
        Voice::Journal => trace(alloc, topo, steps, hosted, turns, disk, post, sink),
    }
}

/// Prints the line of a publisher whose lanes hold no log, with the place of the fault. Gives the status 6, or 7 or 4
/// where that failed.
fn print_damaged<K: Sink>(
    alloc: Global,
    topo: &Topology,
    publisher: u16,
    at: u64,
    sink: &mut K,
) -> u8
    requires { publisher < length topo.now.publishers }
    ensures printed { result ≡ 6 →
        K.taken sink.new ≡ with_more (K.taken sink.old) (damaged_line topo.now publisher at) }
    ensures front { IsCut result → TakesFront (K.taken sink.old) (K.taken sink.new)
        (damaged_line topo.now publisher at) }
    ensures sink { SinkStatus result (K.faults sink.old) (K.faults sink.new) }
    ensures complete { (result ≡ 6) ⊎ IsCut result }
{
    match put(alloc, &Report::Damaged { publisher, at }, topo, sink) {
        Ok(()) => 6,
        Err(PutFault::Write) => 4,
        Err(PutFault::Memory) => 7,
    }
}
