//! Reading what the bytes of a source ask.

ghost use Rattle.std.specs.Prelude.{◌≡◌, ◌≤◌, [], length, IfOk, IfErr};
ghost use Rattle.gr_sched.specs.declared.step.TheConstants.{MAX_INPUT_BYTES};
ghost use Rattle.gr_sched.specs.Text.{pieces_of, before_separator, after_separator};
ghost use Rattle.gr_match_text.specs.Reading.{event_lines};
ghost use Rattle.gr_cover_text.specs.Reading.{first_number, event_refusal, asked_of_filters, asked_by, IsTooLarge};

use crate::asked::Asked;
use gr_event::Text;
use gr_match_text::{Asked as AskedOfMatchText, FilterList};
use gr_sched::{line_count, next_counted, split};
use std::alloc::{AllocError, Global};

/// How many filters may be compared.
pub(crate) const MAX_COMPARED: usize = 64;

/// Reads the bytes of a source: as a match text, whose refusals come first; then how many filters it has, and whether
/// an event stands behind them. That there are too many bytes or counted lines is answered without memory.
pub fn read(alloc: Global, bytes: &[u8]) -> Result<Asked, AllocError>
    ensures asked { IfOk result (λ asked. asked ≡ asked_by bytes.now) }
    ensures large_at_once { IfErr result (λ refused. IsTooLarge (asked_by bytes.now) → ⊥) }
{
    match gr_match_text::read(alloc, bytes) {
        Ok(AskedOfMatchText::TooManyBytes) => Ok(Asked::TooManyBytes),
        Ok(AskedOfMatchText::TooManyLines) => Ok(Asked::TooManyLines),
        Ok(AskedOfMatchText::Refused(line)) => Ok(Asked::Refused(line)),
        Ok(AskedOfMatchText::Matching { filters, events }) => {
            drop(events);
            read_filters(alloc, filters, bytes)
        }
        Err(refused) => Err(refused),
    }
}

/// What filters ask that were read from these bytes.
fn read_filters(alloc: Global, filters: FilterList, bytes: &[u8]) -> Result<Asked, AllocError>
    requires { length bytes.now ≤ MAX_INPUT_BYTES }
    ensures { IfOk result (λ asked. asked ≡ asked_of_filters filters
        (event_lines (before_separator (pieces_of bytes.now)) (after_separator (pieces_of bytes.now)))) }
{
    if filters.len() > MAX_COMPARED {
        return Ok(Asked::Refused(Text::from_slice(alloc, b"cover 1 too-many")?));
    }
    match first_event(bytes) {
        Some(line) => Ok(Asked::Refused(event_line(alloc, line)?)),
        None => Ok(Asked::Covering { filters }),
    }
}

/// The number of the first counted line behind the separator, from 1 at the first line of the whole text.
fn first_event(bytes: &[u8]) -> Option<u64>
    requires { length bytes.now ≤ MAX_INPUT_BYTES }
    ensures { first_number (event_lines (before_separator (pieces_of bytes.now)) (after_separator (pieces_of bytes.now)))
        ≡ result }
{
    let (front, back) = split(bytes);
    match next_counted(line_count(front) + 1, back) {
        Some(counted) => Some(counted.number),
        None => None,
    }
}

/// The line that refuses an event.
fn event_line(alloc: Global, number: u64) -> Result<Text, AllocError>
    ensures { IfOk result (λ t. t ≡ event_refusal number) }
{
    let text = format!(in alloc; "cover 2 event line {number}")?;
    Text::from_slice(alloc, text.as_bytes())
}
