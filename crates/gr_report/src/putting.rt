//! Lines are put into a page, and the page is written where it is full.

ghost use Rattle.std.specs.Prelude.{◌≡◌, ◌≢◌, ◌<◌, ◌++◌, length, Err, IfErr, OnOk, OnErr, IsErrOf};
ghost use Rattle.gr_out.specs.declared.page.TheConstants.{PAGE_BYTES};
ghost use Rattle.gr_out.specs.Faults.{Rose};
ghost use Rattle.gr_model.specs.Text.{IsNamed, labels_of, whole_line, report_text};
ghost use Rattle.gr_out.specs.Page.{TakesBut, TakesFront};
ghost use Rattle.gr_report.specs.Named.{AllNamed, IsPutFault};

use gr_model::Report;
use gr_out::{Page, RunFault, Sink};
use gr_report_text::put_behind;
use gr_topo::Topology;

/// Puts a line, and writes the page where it is full. `Memory` where memory is refused, and `Write` only where the sink
/// failed; the sink took a front then.
pub fn put_line<K: Sink>(
    topology: &Topology,
    line: &Report,
    page: &mut Page,
    sink: &mut K,
) -> Result<(), RunFault>
    requires { IsNamed topology.now line.now }
    ensures ok { OnOk result (TakesBut (K.taken sink.old) (K.taken sink.new)
        (page.old.held ++ whole_line (labels_of topology.now) line.now) page.new.held) }
    ensures front { OnErr result (TakesFront (K.taken sink.old) (K.taken sink.new)
        (page.old.held ++ whole_line (labels_of topology.now) line.now)) }
    ensures room { OnOk result (length page.new.held < PAGE_BYTES) }
    ensures only { IfErr result IsPutFault }
    ensures write { IsErrOf result RunFault.Write → Rose (K.faults sink.old) (K.faults sink.new) }
    ensures same { result ≢ Err RunFault.Write → K.faults sink.new ≡ K.faults sink.old }
{
    if put_behind(line, topology, page).is_err() {
        return Err(RunFault::Memory);
    }
    if page.is_full() {
        return page.flush(sink);
    }
    Ok(())
}

/// Puts lines in order. After `Memory` the page may end within a line.
pub fn put_all<K: Sink>(
    topology: &Topology,
    lines: &[Report],
    page: &mut Page,
    sink: &mut K,
) -> Result<(), RunFault>
    requires { AllNamed topology.now lines.now }
    ensures ok { OnOk result (TakesBut (K.taken sink.old) (K.taken sink.new)
        (page.old.held ++ report_text (labels_of topology.now) lines.now) page.new.held) }
    ensures front { OnErr result (TakesFront (K.taken sink.old) (K.taken sink.new)
        (page.old.held ++ report_text (labels_of topology.now) lines.now)) }
    ensures only { IfErr result IsPutFault }
    ensures write { IsErrOf result RunFault.Write → Rose (K.faults sink.old) (K.faults sink.new) }
    ensures same { result ≢ Err RunFault.Write → K.faults sink.new ≡ K.faults sink.old }
{
    'lines: for line in lines {
        match put_line(topology, line, page, sink) {
            Ok(()) => {}
            Err(fault) => return Err(fault),
        }
    }
    Ok(())
}
