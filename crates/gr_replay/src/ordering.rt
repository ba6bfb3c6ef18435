//! The lines of a step are put, and behind them what is ready then in the one list of each subscriber that gets one.

ghost use Rattle.std.specs.Prelude.{◌≡◌, ◌++◌, IfErr, OnOk, OnErr};
ghost use Rattle.gr_out.specs.Page.{TakesBut, TakesFront};
ghost use Rattle.gr_model.specs.Text.{labels_of, report_text};
ghost use Rattle.gr_model.specs.Orders.{ordered, without_ordered, AreOrdersOf};
ghost use Rattle.gr_report.specs.Named.{AllNamed, IsPutFault};
ghost use Rattle.gr_replay.specs.Going.{SinkCounts, with_ready, left_behind};

use gr_model::Report;
use gr_order_lists::Orders;
use gr_out::{Page, RunFault, Sink};
use gr_report::put_all;
use gr_topo::Topology;

/// Puts a line for each event that is ready, subscriber by subscriber, and forgets these events.
fn put_ready<K: Sink>(
    topology: &Topology,
    orders: &mut Orders,
    page: &mut Page,
    sink: &mut K,
) -> Result<(), RunFault>
    requires { AreOrdersOf topology.now orders.old }
    ensures ok { OnOk result (TakesBut (K.taken sink.old) (K.taken sink.new)
        (page.old.held ++ report_text (labels_of topology.now) (ordered orders.old)) page.new.held) }
    ensures front { OnErr result (TakesFront (K.taken sink.old) (K.taken sink.new)
        (page.old.held ++ report_text (labels_of topology.now) (ordered orders.old))) }
    ensures left { OnOk result (orders.new ≡ without_ordered orders.old) }
    ensures only { IfErr result IsPutFault }
    ensures sink { SinkCounts (K.faults sink.old) (K.faults sink.new) result }
{
    let ready = match orders.ready() {
        Ok(ready) => ready,
        Err(_) => return Err(RunFault::Memory),
    };
    put_all(topology, ready.as_slice(), page, sink)
}

/// Puts the lines that a step tells, has the lists hear them, and puts what is ready then behind them. Where no
/// subscriber gets one list over all publishers, it takes no memory but the page's.
pub(crate) fn put_step<K: Sink>(
    topology: &Topology,
    lines: &[Report],
    orders: &mut Orders,
    page: &mut Page,
    sink: &mut K,
) -> Result<(), RunFault>
    requires named { AllNamed topology.now lines.now }
    requires orders { AreOrdersOf topology.now orders.old }
    ensures ok { OnOk result (TakesBut (K.taken sink.old) (K.taken sink.new)
        (page.old.held ++ report_text (labels_of topology.now) (with_ready orders.old lines.now)) page.new.held) }
    ensures front { OnErr result (TakesFront (K.taken sink.old) (K.taken sink.new)
        (page.old.held ++ report_text (labels_of topology.now) (with_ready orders.old lines.now))) }
    ensures left { OnOk result (orders.new ≡ left_behind orders.old lines.now) }
    ensures only { IfErr result IsPutFault }
    ensures sink { SinkCounts (K.faults sink.old) (K.faults sink.new) result }
{
    match put_all(topology, lines, page, sink) {
        Ok(()) => {}
        Err(fault) => return Err(fault),
    }
    if orders.is_empty() {
        return Ok(());
    }
    match orders.hear(lines) {
        Ok(()) => {}
        Err(_) => return Err(RunFault::Memory),
    }
    put_ready(topology, orders, page, sink)
}
