//! Lines are written.

ghost use Rattle.std.specs.Prelude.{◌≡◌, ◌<◌, length, IfErr, OnOk, OnErr};
ghost use Rattle.gr_out.specs.Bytes.{with_more};
ghost use Rattle.gr_out.specs.Page.{TakesFront};
ghost use Rattle.gr_client.specs.Moves.{SinkMoves};
ghost use Rattle.gr_client.specs.Ran.{IsPutFault};
ghost use Rattle.gr_client.specs.Run.{told_line, last_line};

use crate::client::Client;
use crate::lines::{last_line, next_line};
use gr_event::Text;
use gr_out::{RunFault, Sink, write_all};
use gr_topo::Topology;
use std::alloc::Global;

/// Writes a line.
fn put<K: Sink>(line: &Text, sink: &mut K) -> Result<(), RunFault>
    ensures taken { OnOk result (K.taken sink.new ≡ with_more (K.taken sink.old) line.now) }
    ensures front { OnErr result (TakesFront (K.taken sink.old) (K.taken sink.new) line.now) }
    ensures cause { IfErr result IsPutFault }
    ensures sink { SinkMoves (K.faults sink.old) (K.faults sink.new) result }
{
    match write_all(sink, line.as_slice()) {
        Ok(()) => Ok(()),
        Err(_) => Err(RunFault::Write),
    }
}

/// Prints which number comes next, where one is told.
pub(crate) fn tell<K: Sink>(
    alloc: Global,
    topo: &Topology,
    p: u16,
    told: Option<u64>,
    sink: &mut K,
) -> Result<(), RunFault>
    requires { p < length topo.now.publishers }
    ensures taken { OnOk result (K.taken sink.new ≡ with_more (K.taken sink.old) (told_line topo.now p told)) }
    ensures front { OnErr result (TakesFront (K.taken sink.old) (K.taken sink.new) (told_line topo.now p told)) }
    ensures cause { IfErr result IsPutFault }
    ensures sink { SinkMoves (K.faults sink.old) (K.faults sink.new) result }
{
    let Some(next) = told else {
        return Ok(());
    };
    let line = next_line(alloc, topo, p, next)?;
    put(&line, sink)
}

/// Prints how far a client is.
pub(crate) fn tell_last<K: Sink>(
    alloc: Global,
    topo: &Topology,
    p: u16,
    client: &Client,
    sink: &mut K,
) -> Result<(), RunFault>
    requires { p < length topo.now.publishers }
    ensures taken { OnOk result (K.taken sink.new ≡ with_more (K.taken sink.old)
        (last_line topo.now p (length client.now.events) client.now.progress)) }
    ensures front { OnErr result (TakesFront (K.taken sink.old) (K.taken sink.new)
        (last_line topo.now p (length client.now.events) client.now.progress)) }
    ensures cause { IfErr result IsPutFault }
    ensures sink { SinkMoves (K.faults sink.old) (K.faults sink.new) result }
{
    let line = last_line(alloc, topo, p, client.count(), client.progress())?;
    put(&line, sink)
}
