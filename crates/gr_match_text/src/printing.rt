//! The lines of the events are put into a page, and the page is written where it is full.

ghost use Rattle.std.specs.Prelude.{◌≡◌, ◌≢◌, ◌<◌, ◌++◌, length, Err, IfErr, OnOk, OnErr, IsErrOf};
ghost use Rattle.std.specs.List.{flat_map};
ghost use Rattle.gr_out.specs.declared.page.TheConstants.{PAGE_BYTES};
ghost use Rattle.gr_out.specs.Bytes.{with_more};
ghost use Rattle.gr_out.specs.Faults.{Rose};
ghost use Rattle.gr_out.specs.Page.{TakesBut, TakesFront};
ghost use Rattle.gr_match_text.specs.Matching.{names_at, behind_space, names_text, matched_line, matched_text};
ghost use Rattle.gr_match_text.specs.Matching.{IsPutFault};

use crate::filter_list::FilterList;
use gr_event::Event;
use gr_out::{Page, RunFault, Sink};
use std::alloc::{AllocError, Global};

/// Writes to a sink, for each event in order, one line with the names of the filters that match it, in their order and
/// with one space between two, or `-` where none does; many lines in one call of the sink.
///
/// `Memory` where memory is refused, and `Write` only where the sink failed in this call; no other fault comes. After a
/// fault the sink took a front of the text.
pub fn print_matches<K: Sink>(
    alloc: Global,
    filters: &FilterList,
    events: &[Event],
    sink: &mut K,
) -> Result<(), RunFault>
    ensures printed { OnOk result (K.taken sink.new
        ≡ with_more (K.taken sink.old) (matched_text filters.now events.now)) }
    ensures front { OnErr result (TakesFront (K.taken sink.old) (K.taken sink.new)
        (matched_text filters.now events.now)) }
    ensures only { IfErr result IsPutFault }
    ensures write { IsErrOf result RunFault.Write → Rose (K.faults sink.old) (K.faults sink.new) }
    ensures same { result ≢ Err RunFault.Write → K.faults sink.new ≡ K.faults sink.old }
{
    let mut page = match Page::new(alloc) {
        Ok(page) => page,
        Err(_) => return Err(RunFault::Memory),
    };
    match put_all(filters, events, &mut page, sink) {
        Ok(()) => page.flush(sink),
        Err(fault) => Err(fault),
    }
}

/// Puts the lines of events in order. After `Memory` the page may end within a line.
fn put_all<K: Sink>(
    filters: &FilterList,
    events: &[Event],
    page: &mut Page,
    sink: &mut K,
) -> Result<(), RunFault>
    ensures ok { OnOk result (TakesBut (K.taken sink.old) (K.taken sink.new)
        (page.old.held ++ matched_text filters.now events.now) page.new.held) }
    ensures front { OnErr result (TakesFront (K.taken sink.old) (K.taken sink.new)
        (page.old.held ++ matched_text filters.now events.now)) }
    ensures only { IfErr result IsPutFault }
    ensures write { IsErrOf result RunFault.Write → Rose (K.faults sink.old) (K.faults sink.new) }
    ensures same { result ≢ Err RunFault.Write → K.faults sink.new ≡ K.faults sink.old }
{
    'events: for event in events {
        match put_line(filters, event, page, sink) {
            Ok(()) => {}
            Err(fault) => return Err(fault),
        }
    }
    Ok(())
}

/// Puts the line of an event.
fn put_line<K: Sink>(
    filters: &FilterList,
    event: &Event,
    page: &mut Page,
    sink: &mut K,
) -> Result<(), RunFault>
    ensures ok { OnOk result (TakesBut (K.taken sink.old) (K.taken sink.new)
        (page.old.held ++ matched_line filters.now event.now) page.new.held) }
    ensures front { OnErr result (TakesFront (K.taken sink.old) (K.taken sink.new)
        (page.old.held ++ matched_line filters.now event.now)) }
    ensures room { OnOk result (length page.new.held < PAGE_BYTES) }
    ensures only { IfErr result IsPutFault }
    ensures write { IsErrOf result RunFault.Write → Rose (K.faults sink.old) (K.faults sink.new) }
    ensures same { result ≢ Err RunFault.Write → K.faults sink.new ≡ K.faults sink.old }
{
    if hold_line(filters, event, page).is_err() {
        return Err(RunFault::Memory);
    }
    if page.is_full() {
        return page.flush(sink);
    }
    Ok(())
}

/// Puts the line of an event into a page.
fn hold_line(filters: &FilterList, event: &Event, page: &mut Page) -> Result<(), AllocError>
    ensures { OnOk result (page.new.held ≡ page.old.held ++ matched_line filters.now event.now) }
{
    let places = filters.matches(event)?;
    hold_names(filters, places.as_slice(), page)?;
    hold(b"\n", page)
}

/// Puts the names of the filters at these places into a page.
fn hold_names(filters: &FilterList, places: &[u16], page: &mut Page) -> Result<(), AllocError>
    ensures { OnOk result (page.new.held ≡ page.old.held ++ names_text (names_at filters.now places.now)) }
{
    match places {
        [] => hold(b"-", page),
        [first, rest @ ..] => {
            hold(filters.name(usize::from(*first)), page)?;
            hold_more(filters, rest, page)
        }
    }
}

/// Puts the names of the filters at these places into a page, each behind a space.
fn hold_more(filters: &FilterList, places: &[u16], page: &mut Page) -> Result<(), AllocError>
    ensures { OnOk result (page.new.held ≡ page.old.held ++ flat_map behind_space (names_at filters.now places.now)) }
{
    'places: for place in places {
        hold(b" ", page)?;
        hold(filters.name(usize::from(*place)), page)?;
    }
    Ok(())
}

/// Puts bytes into a page. At want of memory the page holds what it held.
fn hold(bytes: &[u8], page: &mut Page) -> Result<(), AllocError>
    ensures ok { OnOk result (page.new.held ≡ page.old.held ++ bytes.now) }
    ensures err { OnErr result (page.new.held ≡ page.old.held) }
{
    match page.write(bytes) {
        Ok(_) => Ok(()),
        Err(_) => Err(AllocError),
    }
}
