//! The lines of the filters are put into a page, and the page is written where it is full.

ghost use Rattle.std.specs.Prelude.{◌≡◌, ◌≢◌, ◌<◌, ◌++◌, length, Err, IfErr, OnOk, OnErr, IsErrOf};
ghost use Rattle.gr_filter.specs.Tree.{tree_of};
ghost use Rattle.gr_out.specs.declared.page.TheConstants.{PAGE_BYTES};
ghost use Rattle.gr_out.specs.Bytes.{with_more};
ghost use Rattle.gr_out.specs.Faults.{Rose};
ghost use Rattle.gr_out.specs.Page.{TakesBut, TakesFront};
ghost use Rattle.gr_cover.specs.Answer.{answer};
ghost use Rattle.gr_match_text.specs.Matching.{IsPutFault};
ghost use Rattle.gr_cover_text.specs.Covers.{verdict_text, cover_line, pair_line, lines_of, covered_text};
ghost use Rattle.gr_cover_text.specs.Putting.{PutKeeps};

use gr_cover::{Cover, covers};
use gr_filter::Filter;
use gr_match_text::FilterList;
use gr_out::{Page, RunFault, Sink};
use std::alloc::{AllocError, Global};

/// Writes to a sink, for each two different filters, one line that says whether the first covers the second, by the
/// place of the first and then of the second; many lines in one call of the sink.
///
/// `Memory` where memory is refused, and `Write` only where the sink failed in this call; no other fault comes. After a
/// fault the sink took a front of the text.
pub fn print_covers<K: Sink>(
    alloc: Global,
    filters: &FilterList,
    sink: &mut K,
) -> Result<(), RunFault>
    ensures printed { OnOk result (K.taken sink.new ≡ with_more (K.taken sink.old) (covered_text filters.now)) }
    ensures front { OnErr result (TakesFront (K.taken sink.old) (K.taken sink.new) (covered_text filters.now)) }
    ensures only { IfErr result IsPutFault }
    ensures write { IsErrOf result RunFault.Write → Rose (K.faults sink.old) (K.faults sink.new) }
    ensures same { result ≢ Err RunFault.Write → K.faults sink.new ≡ K.faults sink.old }
{
    let mut page = match Page::new(alloc) {
        Ok(page) => page,
        Err(_) => return Err(RunFault::Memory),
    };
    match put_all(alloc, filters, &mut page, sink) {
        Ok(()) => page.flush(sink),
        Err(fault) => Err(fault),
    }
}

/// Puts the lines of all filters in order. After `Memory` the page may end within a line.
fn put_all<K: Sink>(
    alloc: Global,
    filters: &FilterList,
    page: &mut Page,
    sink: &mut K,
) -> Result<(), RunFault>
    ensures ok { OnOk result (TakesBut (K.taken sink.old) (K.taken sink.new)
        (page.old.held ++ covered_text filters.now) page.new.held) }
    ensures front { OnErr result (TakesFront (K.taken sink.old) (K.taken sink.new)
        (page.old.held ++ covered_text filters.now)) }
    ensures keeps { PutKeeps (K.faults sink.old) (K.faults sink.new) result }
{
    'filters: for place in 0..filters.len() {
        match put_lines(alloc, filters, place, page, sink) {
            Ok(()) => {}
            Err(fault) => return Err(fault),
        }
    }
    Ok(())
}

/// Puts the lines of the filter at a place over all others.
fn put_lines<K: Sink>(
    alloc: Global,
    filters: &FilterList,
    wide: usize,
    page: &mut Page,
    sink: &mut K,
) -> Result<(), RunFault>
    requires { wide < length filters.now }
    ensures ok { OnOk result (TakesBut (K.taken sink.old) (K.taken sink.new)
        (page.old.held ++ lines_of filters.now wide) page.new.held) }
    ensures front { OnErr result (TakesFront (K.taken sink.old) (K.taken sink.new)
        (page.old.held ++ lines_of filters.now wide)) }
    ensures keeps { PutKeeps (K.faults sink.old) (K.faults sink.new) result }
{
    'filters: for narrow in 0..filters.len() {
        match put_pair(alloc, filters, wide, narrow, page, sink) {
            Ok(()) => {}
            Err(fault) => return Err(fault),
        }
    }
    Ok(())
}

/// Puts the line of the filters at two places.
fn put_pair<K: Sink>(
    alloc: Global,
    filters: &FilterList,
    wide: usize,
    narrow: usize,
    page: &mut Page,
    sink: &mut K,
) -> Result<(), RunFault>
    requires wide { wide < length filters.now }
    requires narrow { narrow < length filters.now }
    ensures ok { OnOk result (TakesBut (K.taken sink.old) (K.taken sink.new)
        (page.old.held ++ pair_line filters.now wide narrow) page.new.held) }
    ensures front { OnErr result (TakesFront (K.taken sink.old) (K.taken sink.new)
        (page.old.held ++ pair_line filters.now wide narrow)) }
    ensures keeps { PutKeeps (K.faults sink.old) (K.faults sink.new) result }
{
    if hold_pair(alloc, filters, wide, narrow, page).is_err() {
        return Err(RunFault::Memory);
    }
    if page.is_full() {
        return page.flush(sink);
    }
    Ok(())
}

/// Puts the line of the filters at two places into a page.
fn hold_pair(
    alloc: Global,
    filters: &FilterList,
    wide: usize,
    narrow: usize,
    page: &mut Page,
) -> Result<(), AllocError>
    requires wide { wide < length filters.now }
    requires narrow { narrow < length filters.now }
    ensures { OnOk result (page.new.held ≡ page.old.held ++ pair_line filters.now wide narrow) }
{
    if wide == narrow {
        return Ok(());
    }
    hold(filters.name(wide), page)?;
    hold(b" covers ", page)?;
    hold(filters.name(narrow), page)?;
    hold(b" ", page)?;
    hold_verdict(alloc, filters.filter(wide), filters.filter(narrow), page)?;
    hold(b"\n", page)
}

/// Puts into a page whether one filter covers another.
fn hold_verdict(
    alloc: Global,
    wide: &Filter,
    narrow: &Filter,
    page: &mut Page,
) -> Result<(), AllocError>
    ensures { OnOk result (page.new.held
        ≡ page.old.held ++ verdict_text (answer (tree_of wide.now) (tree_of narrow.now))) }
{
    match covers(alloc, wide, narrow)? {
        Cover::Yes => hold(b"yes", page),
        Cover::No { event } => {
            hold(b"no ", page)?;
            event.json_into(&mut page.held)
        }
        Cover::Unknown { parts } => {
            hold(b"unknown", page)?;
            page.held.append_number(b' ', parts)
        }
    }
}

/// Puts bytes into a page. At want of memory the page holds what it held.
fn hold(bytes: &[u8], page: &mut Page) -> Result<(), AllocError>
    ensures ok { OnOk result (page.new.held ≡ page.old.held ++ bytes.now) }
    ensures err { OnErr result (page.new.held ≡ page.old.held) }
{
    page.held.append(bytes)
}
