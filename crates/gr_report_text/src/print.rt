//! A line of a report, written to a sink.

ghost use Rattle.std.specs.Prelude.{◌≡◌, ◌≢◌, ℕ, ◌<◌, ◌≤◌, length, take, drop, IfOk, OnOk, IsErrOf, ◌++◌, ◌∷◌, []};
ghost use Rattle.gr_out.specs.Faults.{Rose};
ghost use Rattle.gr_out.specs.Bytes.{with_more};
ghost use Rattle.gr_model.specs.Text.{labels_of, whole_line, IsNamed};

use crate::lines::push_line;
use crate::words::{line_of, new_row};
use gr_event::Text;
use gr_model::Report;
use gr_out::{Page, Sink, write_all};
use gr_topo::Topology;
use std::alloc::Global;

/// Want of memory.
pub type Memory = std::alloc::AllocError;

/// Why a line could not be put.
#[derive(Clone, Copy, Debug, PartialEq, Eq)]
pub enum PutFault {
    /// Want of memory.
    Memory,
    /// The sink failed.
    Write,
}

/// Writes a line of a report with its end. Each number for which it prints a name or a word is in range.
///
/// After `Write` the sink's count of faults rose in this call, and it took a front of the line, not all. After `Memory`
/// the sink is unchanged.
pub fn put<K: Sink>(
    alloc: Global,
    report: &Report,
    topo: &Topology,
    sink: &mut K,
) -> Result<(), PutFault>
    requires { IsNamed topo.now report.now }
    ensures ok { OnOk result
        (K.taken sink.new ≡ with_more (K.taken sink.old) (whole_line (labels_of topo.now) report.now)) }
    ensures write { IsErrOf result PutFault.Write →
        (n : ℕ)
        × (n < length (whole_line (labels_of topo.now) report.now))
        × (K.taken sink.new ≡ with_more (K.taken sink.old) (take n (whole_line (labels_of topo.now) report.now))) }
    ensures memory { IsErrOf result PutFault.Memory → sink.new ≡ sink.old }
    ensures never_falls { K.faults sink.old ≤ K.faults sink.new }
    ensures failed { IsErrOf result PutFault.Write → Rose (K.faults sink.old) (K.faults sink.new) }
    ensures same { result ≢ Err PutFault.Write → K.faults sink.new ≡ K.faults sink.old }
{
    let row = match row_text(alloc, report, topo) {
        Ok(row) => row,
        Err(_) => return Err(PutFault::Memory),
    };
    match write_all(sink, line_of(&row)) {
        Ok(()) => Ok(()),
        Err(_) => Err(PutFault::Write),
    }
}

/// Puts a line of a report with its end behind what a page holds. Each number for which it prints a name or a word is
/// in range. Where memory is refused, nothing is said of what the page holds then.
pub fn put_behind(report: &Report, topo: &Topology, page: &mut Page) -> Result<(), Memory>
    requires { IsNamed topo.now report.now }
    ensures ok { OnOk result (page.new.held ≡ page.old.held ++ whole_line (labels_of topo.now) report.now) }
    ensures faults { page.new.faults ≡ page.old.faults }
{
    put_line(&mut page.held, report, topo)
}

/// Puts a line with its end behind a text. Where memory is refused, the text is as it was but for its room.
fn put_line(text: &mut Text, report: &Report, topo: &Topology) -> Result<(), Memory>
    requires { IsNamed topo.now report.now }
    ensures { OnOk result (text.new ≡ text.old ++ whole_line (labels_of topo.now) report.now) }
{
    // The blank before the first word takes the place of the last byte, which is put back when the line stands.
    let Some(last) = text.pop() else {
        return put_first(text, report, topo);
    };
    let start = text.len();
    match put_words(text, report, topo) {
        Ok(()) => {
            text.set(start, last);
            Ok(())
        }
        Err(refused) => {
            text.truncate(start);
            // It has its place there.
            let _ = text.push(last);
            Err(refused)
        }
    }
}

/// The same where the text is empty. Never inlined, since that is rare.
#[inline(never)]
fn put_first(text: &mut Text, report: &Report, topo: &Topology) -> Result<(), Memory>
    requires named { IsNamed topo.now report.now }
    requires empty { text.old ≡ [] }
    ensures { OnOk result (text.new ≡ whole_line (labels_of topo.now) report.now) }
{
    match put_words(text, report, topo) {
        Ok(()) => {
            text.remove_first();
            Ok(())
        }
        Err(refused) => {
            text.truncate(0);
            Err(refused)
        }
    }
}

/// Puts the words of a line at the end of a row, a blank before each, and the line's end behind them.
fn put_words(row: &mut Text, report: &Report, topo: &Topology) -> Result<(), Memory>
    requires { IsNamed topo.now report.now }
    ensures { OnOk result (row.new ≡ row.old ++ 32 ∷ whole_line (labels_of topo.now) report.now) }
{
    push_line(row, report, topo)?;
    row.push(b'\n')?;
    Ok(())
}

/// The words of a line in a row, with the line's end behind them. From its second byte on it is the line.
fn row_text(alloc: Global, report: &Report, topo: &Topology) -> Result<Text, Memory>
    requires { IsNamed topo.now report.now }
    ensures { IfOk result (λ row. drop 1 row ≡ whole_line (labels_of topo.now) report.now) }
{
    let mut row = new_row(alloc)?;
    put_words(&mut row, report, topo)?;
    Ok(row)
}
