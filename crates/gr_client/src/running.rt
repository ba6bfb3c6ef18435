//! A run of a client: what comes is taken, turn by turn.

ghost use Rattle.std.specs.Prelude.{◌≡◌, ◌+◌, ◌<◌, ◌≤◌, ◌^◌, true, false, List, length, IfErr, IfOk, IsSome, vec_len};
ghost use Rattle.gr_note.specs.declared.node.TheConstants.{FIRST_CLIENT};
ghost use Rattle.gr_sched.specs.declared.step.TheConstants.{MAX_STEPS};
ghost use Rattle.gr_sched.specs.declared.step.Line.{Line};
ghost use Rattle.gr_topo.specs.Topology.{client_of, host_of, address_of};
ghost use Rattle.gr_client.specs.Moves.{SinkMoves, PostMoves};
ghost use Rattle.gr_client.specs.Run.{begun};
ghost use Rattle.gr_client.specs.Ran.{Course, IsRunOf, Posts, Prints, IsRunning, HasEnded, IsClientFault};
ghost use Rattle.gr_client.specs.Turns.{IsClientOf, WentOn, Finished};

use crate::binding::bind_nodes;
use crate::client::{Client, Progress};
use crate::events::events_of;
use crate::offering::offer;
use crate::telling::tell_last;
use crate::turning::turn;
use gr_out::{Memory, Post, RunFault, Sink};
use gr_sched::Steps;
use gr_topo::Topology;
use std::alloc::Global;

/// How much of a datagram is taken.
const PIECE_BYTES: usize = 65_535;

/// Room for a datagram.
fn new_piece(alloc: Global) -> Result<Vec<u8>, Memory>
    ensures { IfOk result (λ v. vec_len v ≡ 65535) }
{
    vec![in alloc; 0u8; PIECE_BYTES]
}

/// Whether a client has events to submit.
fn is_running(client: &Client) -> bool
    ensures running { result ≡ true → IsRunning client.now.progress }
    ensures ended { result ≡ false → HasEnded client.now.progress }
{
    match client.progress() {
        Progress::Running { .. } => true,
        Progress::Done | Progress::Spent | Progress::Ahead { .. } => false,
    }
}

/// Takes at most so many arrivals, each with what it causes, while the client runs.
///
/// `Memory` where memory is refused, and `Write` and `Post` only where the sink or the post failed.
fn go_on<P: Post, K: Sink>(
    alloc: Global,
    topo: &Topology,
    p: u16,
    client: &mut Client,
    turns: u64,
    piece: &mut [u8],
    post: &mut P,
    sink: &mut K,
) -> Result<(), RunFault>
    requires at { IsClientOf topo.now p client.old }
    requires piece { length piece.old ≡ 65535 }
    ensures went { WentOn topo.now p P.tells turns client.old client.new (K.taken sink.old) (K.taken sink.new)
        (P.journal post.old) (P.journal post.new) result }
    ensures cause { IfErr result IsClientFault }
    ensures sink { SinkMoves (K.faults sink.old) (K.faults sink.new) result }
    ensures moves { PostMoves (P.faults post.old) (P.faults post.new) result }
{
    'turns: for _ in 0..turns {
        if !is_running(client) {
            return Ok(());
        }
        match turn(alloc, topo, p, client, piece, post, sink) {
            Ok(goes_on) => {
                if !goes_on {
                    return Ok(());
                }
            }
            Err(fault) => return Err(fault),
        }
    }
    Ok(())
}

/// Takes arrivals, and then prints how far the client is.
fn finish<P: Post, K: Sink>(
    alloc: Global,
    topo: &Topology,
    p: u16,
    client: &mut Client,
    turns: u64,
    post: &mut P,
    sink: &mut K,
) -> Result<(), RunFault>
    requires at { IsClientOf topo.now p client.old }
    ensures finished { Finished topo.now p P.tells turns client.old (K.taken sink.old) (K.taken sink.new)
        (P.journal post.old) (P.journal post.new) result }
    ensures cause { IfErr result IsClientFault }
    ensures sink { SinkMoves (K.faults sink.old) (K.faults sink.new) result }
    ensures moves { PostMoves (P.faults post.old) (P.faults post.new) result }
{
    let mut piece = new_piece(alloc)?;
    go_on(alloc, topo, p, client, turns, &mut piece, post, sink)?;
    tell_last(alloc, topo, p, client, sink)
}

/// Runs a client that is as it begins: both nodes are bound, its first event is offered, and then it goes on.
fn run_client<P: Post, K: Sink>(
    alloc: Global,
    topo: &Topology,
    p: u16,
    client: &mut Client,
    turns: u64,
    post: &mut P,
    sink: &mut K,
) -> Result<(), RunFault>
    requires publisher { p < length topo.now.publishers }
    requires node { FIRST_CLIENT + p < 2 ^ 16 }
    requires own { client.old.publisher ≡ p }
    requires client { IsSome (client_of topo.now p) }
    requires addressed { IsSome (address_of topo.now (host_of topo.now p)) }
    ensures ran { (steps : List Line) → client.old ≡ begun p steps
        → (c : Course) × (IsRunOf topo.now p steps turns c result
        × ((P.tells → Posts topo.now p steps c (P.journal post.old) (P.journal post.new) result)
        × Prints topo.now p steps c (K.taken sink.old) (K.taken sink.new) result)) }
    ensures cause { IfErr result IsClientFault }
    ensures sink { SinkMoves (K.faults sink.old) (K.faults sink.new) result }
    ensures post { PostMoves (P.faults post.old) (P.faults post.new) result }
{
    bind_nodes(topo, p, post)?;
    offer(alloc, client, topo.host(p), post)?;
    finish(alloc, topo, p, client, turns, post, sink)
}

/// Runs the client of a publisher over a post, and writes its report to a sink: it submits the events of the
/// publisher's publish lines to the host of the publisher's log, one by one, in order; their written numbers are left
/// aside.
///
/// In order: the client's node is bound to its address, as here, and the host's to its own, as elsewhere; the first
/// event is offered; and while the client runs at most so many arrivals are taken, as `turns` says, until nothing comes
/// any more. Of a datagram 65,535 bytes are taken. Where another event is next by what came, a line `next P N` is
/// printed, one past the last event where all are logged, and then that event is offered; at a quiet moment the next
/// event is offered again. The last line is `client P next N of M`, `client P spent` or `client P ahead N`.
///
/// There are at most 100,000 lines, and both the client of the publisher and its host have an address.
///
/// `Post` only where a binding failed, or the wait for an arrival: all lines before are written then, and all offers
/// before were made. `Memory` where memory is refused, and `Write` only where the sink failed: the sink took a front of
/// the report then, and of what was to be offered a front was. An offer that the post could not send is lost, and the
/// run goes on. No other fault comes.
pub fn run<P: Post, K: Sink>(
    alloc: Global,
    topo: &Topology,
    steps: &Steps,
    p: u16,
    turns: u64,
    post: &mut P,
    sink: &mut K,
) -> Result<(), RunFault>
    requires few { length steps.now ≤ MAX_STEPS }
    requires publisher { p < length topo.now.publishers }
    requires client { IsSome (client_of topo.now p) }
    requires addressed { IsSome (address_of topo.now (host_of topo.now p)) }
    ensures ran { (c : Course) × (IsRunOf topo.now p steps.now turns c result
        × ((P.tells → Posts topo.now p steps.now c (P.journal post.old) (P.journal post.new) result)
        × Prints topo.now p steps.now c (K.taken sink.old) (K.taken sink.new) result)) }
    ensures cause { IfErr result IsClientFault }
    ensures sink { SinkMoves (K.faults sink.old) (K.faults sink.new) result }
    ensures post { PostMoves (P.faults post.old) (P.faults post.new) result }
{
    // Proof only: there are at most 64 publishers.
    let _ = topo.publishers();
    let events = events_of(alloc, steps.as_slice(), p)?;
    let mut client = Client::new(p, events);
    run_client(alloc, topo, p, &mut client, turns, post, sink)
}
