//! One arrival is taken, with what it causes.

ghost use Rattle.std.specs.Prelude.{◌≡◌, ◌+◌, ◌<◌, ◌++◌, length, IfErr, OnOk, OnErr};
ghost use Rattle.gr_note.specs.Decode.{note_decoded};
ghost use Rattle.gr_out.specs.Bytes.{with_more};
ghost use Rattle.gr_out.specs.Page.{TakesFront};
ghost use Rattle.gr_topo.specs.Topology.{host_of};
ghost use Rattle.gr_client.specs.Moves.{SinkMoves, PostMoves};
ghost use Rattle.gr_client.specs.Ran.{IsPutFault, IsClientFault};
ghost use Rattle.gr_client.specs.Run.{heard_of, next_in, told_from, told_by, told_line, offers_by};
ghost use Rattle.gr_client.specs.Turns.{IsClientOf, Turned};

use crate::client::{Client, Progress};
use crate::hearing::hear;
use crate::offering::{offer, offer_told};
use crate::telling::tell;
use gr_out::{Arrival, Post, PostFault, RunFault, Sink};
use gr_topo::Topology;
use std::alloc::Global;

/// The number that comes next, one past the last where all events are logged; None where the client has ended
/// otherwise.
fn next_of(client: &Client) -> Option<u64>
    ensures { result ≡ next_in (length client.now.events) client.now.progress }
{
    match client.progress() {
        Progress::Running { next } => Some(next),
        Progress::Done => Some(client.count() + 1),
        Progress::Spent | Progress::Ahead { .. } => None,
    }
}

/// The number that comes next, where it is another than before.
fn told_from(old: Option<u64>, now: Option<u64>) -> Option<u64>
    ensures { result ≡ told_from old now }
{
    match now {
        Some(next) if old != Some(next) => Some(next),
        Some(_) | None => None,
    }
}

/// A datagram that has come is heard. Where another number comes next by it, that is printed, and the event with that
/// number is offered.
fn datagram_comes<P: Post, K: Sink>(
    alloc: Global,
    topo: &Topology,
    p: u16,
    client: &mut Client,
    bytes: &[u8],
    post: &mut P,
    sink: &mut K,
) -> Result<(), RunFault>
    requires at { IsClientOf topo.now p client.old }
    ensures heard { OnOk result (client.new ≡ heard_of client.old (note_decoded bytes.now)) }
    ensures taken { OnOk result (K.taken sink.new ≡ with_more (K.taken sink.old)
        (told_line topo.now p (told_by client.old (heard_of client.old (note_decoded bytes.now))))) }
    ensures front { OnErr result (TakesFront (K.taken sink.old) (K.taken sink.new)
        (told_line topo.now p (told_by client.old (heard_of client.old (note_decoded bytes.now))))) }
    ensures sent { P.tells → OnOk result (P.journal post.new ≡ P.journal post.old
        ++ offers_by (host_of topo.now p) client.old (heard_of client.old (note_decoded bytes.now))) }
    ensures unsent { P.tells → OnErr result (P.journal post.new ≡ P.journal post.old) }
    ensures cause { IfErr result IsPutFault }
    ensures sink { SinkMoves (K.faults sink.old) (K.faults sink.new) result }
    ensures post { P.faults post.new ≡ P.faults post.old }
{
    let before = next_of(client);
    hear(alloc, client, bytes)?;
    let told = told_from(before, next_of(client));
    tell(alloc, topo, p, told, sink)?;
    offer_told(alloc, client, topo.host(p), told, post)
}

/// Takes one arrival, with what it causes: a datagram is heard, and at a quiet moment the next event is offered again.
/// False where nothing comes any more.
pub(crate) fn turn<P: Post, K: Sink>(
    alloc: Global,
    topo: &Topology,
    p: u16,
    client: &mut Client,
    piece: &mut [u8],
    post: &mut P,
    sink: &mut K,
) -> Result<bool, RunFault>
    requires at { IsClientOf topo.now p client.old }
    requires piece { length piece.old ≡ 65535 }
    ensures piece { length piece.new ≡ 65535 }
    ensures turned { Turned topo.now p P.tells client.old client.new (K.taken sink.old) (K.taken sink.new)
        (P.journal post.old) (P.journal post.new) result }
    ensures cause { IfErr result IsClientFault }
    ensures sink { SinkMoves (K.faults sink.old) (K.faults sink.new) result }
    ensures moves { PostMoves (P.faults post.old) (P.faults post.new) result }
{
    match post.next(piece) {
        Ok(arrival) => match arrival {
            Arrival::Datagram { at, len, moment } => {
                match datagram_comes(alloc, topo, p, client, &piece[..len], post, sink) {
                    Ok(()) => Ok(true),
                    Err(fault) => Err(fault),
                }
            }
            Arrival::Quiet { moment } => match offer(alloc, client, topo.host(p), post) {
                Ok(()) => Ok(true),
                Err(fault) => Err(fault),
            },
            Arrival::Closed => Ok(false),
        },
        Err(fault) => match fault {
            PostFault::Failed => Err(RunFault::Post),
            PostFault::Memory => Err(RunFault::Memory),
        },
    }
}
