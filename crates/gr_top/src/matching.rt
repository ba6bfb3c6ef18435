//! The command `match`.

ghost use Rattle.std.specs.Prelude.{◌≡◌, ◌≢◌};
ghost use Rattle.gr_out.specs.Bytes.{with_more};
ghost use Rattle.gr_out.specs.Page.{TakesFront};
ghost use Rattle.gr_match_text.specs.Matching.{matched_text};
ghost use Rattle.gr_match_text.specs.Reading.{asked_by, IsTooLarge};
ghost use Rattle.gr_top.specs.Answers.{match_answer};
ghost use Rattle.gr_top.specs.Top.{IsAnswered, IsWhole, IsCut};
ghost use Rattle.gr_top.specs.Status.{SinkStatus, WholeOrCut, DoneOrCut};

use crate::printing::{print, print_line};
use gr_event::Event;
use gr_match_text::{Asked, FilterList, print_matches, read};
use gr_out::{RunFault, Sink};
use std::alloc::Global;

/// Answers the bytes of a match text: its events are matched. Gives the status.
pub(crate) fn match_bytes<K: Sink>(alloc: Global, bytes: &[u8], sink: &mut K) -> u8
    ensures answered { IsWhole result →
        IsAnswered result (K.taken sink.old) (K.taken sink.new) (match_answer (asked_by bytes.now)) }
    ensures front { IsCut result →
        TakesFront (K.taken sink.old) (K.taken sink.new) (match_answer (asked_by bytes.now)).text }
    ensures large_at_once { IsTooLarge (asked_by bytes.now) → result ≢ 7 }
    ensures known { result ≢ 1 }
    ensures sink { SinkStatus result (K.faults sink.old) (K.faults sink.new) }
    ensures complete { WholeOrCut result }
{
    match read(alloc, bytes) {
        Ok(Asked::TooManyBytes) => print(sink, b"too-large bytes\n", 9),
        Ok(Asked::TooManyLines) => print(sink, b"too-large steps\n", 9),
        Ok(Asked::Refused(line)) => print_line(line, sink),
        Ok(Asked::Matching { filters, events }) => {
            match_events(alloc, &filters, events.as_slice(), sink)
        }
        Err(_) => 7,
    }
}

/// Prints for each event the names of the filters that match it. Gives the status.
fn match_events<K: Sink>(alloc: Global, filters: &FilterList, events: &[Event], sink: &mut K) -> u8
    ensures printed { result ≡ 0 →
        K.taken sink.new ≡ with_more (K.taken sink.old) (matched_text filters.now events.now) }
    ensures front { IsCut result →
        TakesFront (K.taken sink.old) (K.taken sink.new) (matched_text filters.now events.now) }
    ensures sink { SinkStatus result (K.faults sink.old) (K.faults sink.new) }
    ensures complete { DoneOrCut result }
{
    match print_matches(alloc, filters, events, sink) {
        Ok(()) => 0,
        Err(RunFault::Write) => 4,
        Err(RunFault::Memory) => 7,
        Err(RunFault::Disk | RunFault::Damaged { .. } | RunFault::Post) => unreachable!(),
    }
}
