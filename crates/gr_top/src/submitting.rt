//! The client of a publisher submits.

ghost use Rattle.std.specs.Prelude.{◌≡◌, ◌⊎◌, Ok};
ghost use Rattle.gr_top.specs.Publishing.{CanPublish, outside, PublishesTo, StopsPublishing};
ghost use Rattle.gr_top.specs.Top.{IsCut};
ghost use Rattle.gr_top.specs.Status.{SinkStatus, PostStatus};

use gr_client::run;
use gr_out::{Post, RunFault, Sink};
use gr_sched::Steps;
use gr_topo::Topology;
use std::alloc::Global;

/// Runs the client of a publisher over a post, for so many turns. Gives the status.
pub(crate) fn submit<P: Post, K: Sink>(
    alloc: Global,
    topo: &Topology,
    steps: &Steps,
    publisher: u16,
    turns: u64,
    post: &mut P,
    sink: &mut K,
) -> u8
    requires { CanPublish topo.now steps.now publisher }
    ensures published { result ≡ 0 → PublishesTo topo.now steps.now publisher turns P.tells
        (outside (K.taken sink.old) (P.journal post.old)) (outside (K.taken sink.new) (P.journal post.new)) (Ok tt) }
    ensures stopped { IsCut result ⊎ (result ≡ 8) → StopsPublishing topo.now steps.now publisher turns P.tells
        (outside (K.taken sink.old) (P.journal post.old)) (outside (K.taken sink.new) (P.journal post.new)) result }
    ensures post { PostStatus result (P.faults post.old) (P.faults post.new) }
    ensures sink { SinkStatus result (K.faults sink.old) (K.faults sink.new) }
    ensures complete { (result ≡ 0) ⊎ (IsCut result ⊎ (result ≡ 8)) }
{
    match run(alloc, topo, steps, publisher, turns, post, sink) {
        Ok(()) => 0,
        Err(RunFault::Write) => 4,
        Err(RunFault::Memory) => 7,
        Err(RunFault::Post) => 8,
        // A client has no disk.
        Err(RunFault::Disk | RunFault::Damaged { .. }) => unreachable!(),
    }
}
