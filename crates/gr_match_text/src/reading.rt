//! Reading what the bytes of a source ask.

ghost use Rattle.std.specs.Prelude.{◌≡◌, ℕ, ◌+◌, ◌-◌, ◌<◌, ◌≤◌, ◌^◌, [], length, IfOk, IfErr};
ghost use Rattle.gr_filter.specs.Tree.{tree_of};
ghost use Rattle.gr_sched.specs.declared.step.TheConstants.{MAX_INPUT_BYTES};
ghost use Rattle.gr_sched.specs.Text.{pieces_of, counted_after, counted_lines};
ghost use Rattle.gr_match_text.specs.Gives.{Gives};
ghost use Rattle.gr_match_text.specs.Reading.{filter_of, with_filter, filters_of, event_of, events_of, asked_of_events};
ghost use Rattle.gr_match_text.specs.Reading.{asked_of_parts, asked_by, IsTooLarge};

use crate::asked::Asked;
use crate::event_list::EventList;
use crate::fault::MatchFault;
use crate::filter_list::{FilterList, MAX_FILTERS};
use crate::refusals::line_of;
use gr_event::{Event, EventFault};
use gr_filter::{Filter, FilterFault, parse};
use gr_sched::{
    MAX_INPUT_BYTES, MAX_STEPS, after_word, count, first_word, line_count, next_counted, split,
    trimmed,
};
use gr_topo::is_name;
use std::alloc::{AllocError, Global};

/// Reads the bytes of a source: first how many bytes and how many events there are, then the filters, then the events.
/// That there are too many of either is answered without memory.
pub fn read(alloc: Global, bytes: &[u8]) -> Result<Asked, AllocError>
    ensures asked { IfOk result (λ asked. asked ≡ asked_by bytes.now) }
    ensures large_at_once { IfErr result (λ refused. IsTooLarge (asked_by bytes.now) → ⊥) }
{
    if bytes.len() > MAX_INPUT_BYTES {
        return Ok(Asked::TooManyBytes);
    }
    let (front, back) = split(bytes);
    if count(back) > MAX_STEPS {
        return Ok(Asked::TooManyLines);
    }
    read_parts(alloc, front, back)
}

/// Reads the two parts of a match text: the filters, and then the events.
fn read_parts(alloc: Global, front: &[u8], back: &[u8]) -> Result<Asked, AllocError>
    requires short { length front.now + length back.now ≤ MAX_INPUT_BYTES }
    ensures { IfOk result (λ asked. asked ≡ asked_of_parts front.now back.now) }
{
    match read_filters(alloc, front) {
        Ok(filters) => read_behind(alloc, filters, line_count(front) + 1, back),
        Err(fault) => Ok(Asked::Refused(line_of(alloc, fault)?)),
    }
}

/// Reads the events behind filters that were read, and behind so many lines.
fn read_behind(
    alloc: Global,
    filters: FilterList,
    above: u64,
    back: &[u8],
) -> Result<Asked, AllocError>
    requires short { above + length back.now < 2 ^ 64 }
    ensures { let lines = counted_after above (pieces_of back.now) in
        IfOk result (λ asked. asked ≡ asked_of_events filters (events_of [] lines)) }
{
    match read_events(alloc, above, back) {
        Ok(events) => Ok(Asked::Matching { filters, events }),
        Err(fault) => Ok(Asked::Refused(line_of(alloc, fault)?)),
    }
}

/// The filters of the counted lines, in order.
fn read_filters(alloc: Global, front: &[u8]) -> Result<FilterList, MatchFault>
    requires short { length front.now ≤ MAX_INPUT_BYTES }
    ensures { Gives (λ filters. filters) result (filters_of [] (counted_lines front.now)) }
{
    let mut filters = FilterList::new(alloc);
    let mut before = 0;
    let mut rest = front;
    'lines: while let Some(counted) = next_counted(before, rest) {
        match put_filter(alloc, &mut filters, counted.number, counted.line) {
            Ok(()) => {}
            Err(fault) => return Err(fault),
        }
        before = counted.number;
        rest = counted.rest;
    }
    Ok(filters)
}

/// Puts the filter of a line behind those that were read.
fn put_filter(
    alloc: Global,
    filters: &mut FilterList,
    number: u64,
    line: &[u8],
) -> Result<(), MatchFault>
    ensures { Gives (λ _. filters.new) result (with_filter filters.old number line.now) }
{
    if filters.len() >= MAX_FILTERS {
        return Err(MatchFault::TooMany { line: number });
    }
    let text = trimmed(line);
    let name = first_word(text);
    if !is_name(name) {
        return Err(MatchFault::BadName { line: number });
    }
    if filters.has(name) {
        return Err(MatchFault::Twice { line: number });
    }
    let filter = filter_of(alloc, number, after_word(text))?;
    filters.push(alloc, name, &filter)?;
    Ok(())
}

/// The filter that a text is, in this line.
#[tactic(auto, using(crate::proofs::Faults::filter_fault))]
fn filter_of(alloc: Global, number: u64, text: &[u8]) -> Result<Filter, MatchFault>
    ensures { Gives tree_of result (filter_of number text.now) }
{
    match parse(alloc, text) {
        Ok(filter) => Ok(filter),
        Err(FilterFault::Memory) => Err(MatchFault::Memory),
        Err(fault) => Err(MatchFault::BadFilter {
            line: number,
            fault,
        }),
    }
}

/// The events of the counted lines behind so many lines, in order.
fn read_events(alloc: Global, above: u64, back: &[u8]) -> Result<EventList, MatchFault>
    requires short { above + length back.now < 2 ^ 64 }
    ensures { Gives (λ events. events) result (events_of [] (counted_after above (pieces_of back.now))) }
{
    let mut events = EventList::new(alloc);
    let mut before = above;
    let mut rest = back;
    'lines: while let Some(counted) = next_counted(before, rest) {
        match event_of(alloc, counted.number, counted.line) {
            Ok(event) => events.push(event)?,
            Err(fault) => return Err(fault),
        }
        before = counted.number;
        rest = counted.rest;
    }
    Ok(events)
}

/// The event that a line is.
#[tactic(auto, using(crate::proofs::Faults::event_fault))]
fn event_of(alloc: Global, number: u64, line: &[u8]) -> Result<Event, MatchFault>
    ensures { Gives (λ e. e) result (event_of number line.now) }
{
    match Event::from_text(alloc, line) {
        Ok(event) => Ok(event),
        Err(EventFault::Memory) => Err(MatchFault::Memory),
        Err(fault) => Err(MatchFault::BadEvent {
            line: number,
            fault,
        }),
    }
}
