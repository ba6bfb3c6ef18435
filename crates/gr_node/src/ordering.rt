//! Subscribers that get one list over all publishers: what they hear of the lines of a run, and what they are told.

ghost use Rattle.std.specs.Prelude.{◌≡◌, ◌++◌, Err, OnOk, OnErr};
ghost use Rattle.gr_out.specs.Bytes.{with_more};
ghost use Rattle.gr_out.specs.Page.{TakesBut, TakesFront};
ghost use Rattle.gr_model.specs.Orders.{AreOrdersOf, fed, ordered, without_ordered};
ghost use Rattle.gr_report.specs.Named.{AllNamed};
ghost use Rattle.gr_node.specs.Seen.{seen, text_of};
ghost use Rattle.gr_node.specs.Keeps.{PutKeeps, LeavesEmpty};
ghost use Rattle.gr_node.specs.Done.{settled};

use crate::node::{Node, Site};
use gr_model::Report;
use gr_order_lists::Orders;
use gr_out::{Page, RunFault, Sink};
use gr_report::put_all;
use gr_topo::Topology;

/// Puts lines, once the subscribers that get one list over all publishers have heard them.
///
/// `Memory` where memory is refused, and `Write` only where the sink failed; a front of the lines is put then.
pub(crate) fn put_heard<K: Sink>(
    topo: &Topology,
    lines: &[Report],
    orders: &mut Orders,
    page: &mut Page,
    sink: &mut K,
) -> Result<(), RunFault>
    requires { AllNamed topo.now lines.now }
    ensures ok { OnOk result (TakesBut (K.taken sink.old) (K.taken sink.new)
        (page.old.held ++ text_of topo.now lines.now) page.new.held) }
    ensures front { OnErr result (TakesFront (K.taken sink.old) (K.taken sink.new)
        (page.old.held ++ text_of topo.now lines.now)) }
    ensures heard { OnOk result (orders.new ≡ fed orders.old lines.now) }
    ensures puts { PutKeeps (K.faults sink.old) (K.faults sink.new) result }
{
    match orders.hear(lines) {
        Ok(()) => put_all(topo, lines, page, sink),
        Err(_) => Err(RunFault::Memory),
    }
}

/// Puts what is ready in one order, and takes it out.
fn put_ordered<K: Sink>(
    site: &Site<'_>,
    orders: &mut Orders,
    page: &mut Page,
    sink: &mut K,
) -> Result<(), RunFault>
    requires { AreOrdersOf site.now.topo.now orders.old }
    ensures told { OnOk result (TakesBut (K.taken sink.old) (K.taken sink.new)
        (page.old.held ++ text_of site.now.topo.now (ordered orders.old)) page.new.held) }
    ensures front { OnErr result (TakesFront (K.taken sink.old) (K.taken sink.new)
        (page.old.held ++ text_of site.now.topo.now (ordered orders.old))) }
    ensures left { OnOk result (orders.new ≡ without_ordered orders.old) }
    ensures puts { PutKeeps (K.faults sink.old) (K.faults sink.new) result }
{
    match orders.ready() {
        Ok(lines) => put_all(site.topo, lines.as_slice(), page, sink),
        Err(_) => Err(RunFault::Memory),
    }
}

/// Puts what is ready in one order behind all that was told before, and writes the page.
///
/// `Memory` where memory is refused, and `Write` only where the sink failed; a front of the lines is put then.
pub fn settle<K: Sink>(
    site: &Site<'_>,
    node: &mut Node,
    page: &mut Page,
    sink: &mut K,
) -> Result<(), RunFault>
    requires { AreOrdersOf site.now.topo.now (seen node.old).orders }
    ensures told { OnOk result (K.taken sink.new ≡ with_more (K.taken sink.old)
        (page.old.held ++ text_of site.now.topo.now (ordered (seen node.old).orders))) }
    ensures front { OnErr result (TakesFront (K.taken sink.old) (K.taken sink.new)
        (page.old.held ++ text_of site.now.topo.now (ordered (seen node.old).orders))) }
    ensures emptied { LeavesEmpty page.new.held result }
    ensures node { OnOk result (seen node.new ≡ settled (seen node.old)) }
    ensures puts { PutKeeps (K.faults sink.old) (K.faults sink.new) result }
{
    match put_ordered(site, &mut node.orders, page, sink) {
        Ok(()) => page.flush(sink),
        Err(fault) => Err(fault),
    }
}
