//! The command `cover`.

ghost use Rattle.std.specs.Prelude.{◌≡◌, ◌≢◌};
ghost use Rattle.gr_out.specs.Bytes.{with_more};
ghost use Rattle.gr_out.specs.Page.{TakesFront};
ghost use Rattle.gr_cover_text.specs.Covers.{covered_text};
ghost use Rattle.gr_cover_text.specs.Reading.{asked_by, IsTooLarge};
ghost use Rattle.gr_top.specs.Answers.{cover_answer};
ghost use Rattle.gr_top.specs.Top.{IsAnswered, IsWhole, IsCut};
ghost use Rattle.gr_top.specs.Status.{SinkStatus, WholeOrCut, DoneOrCut};

use crate::printing::{print, print_line};
use gr_cover_text::{Asked, print_covers, read};
use gr_match_text::FilterList;
use gr_out::{RunFault, Sink};
use std::alloc::Global;

/// Answers the bytes of a match text of filters alone: these are compared. Gives the status.
pub(crate) fn cover_bytes<K: Sink>(alloc: Global, bytes: &[u8], sink: &mut K) -> u8
    ensures answered { IsWhole result →
        IsAnswered result (K.taken sink.old) (K.taken sink.new) (cover_answer (asked_by bytes.now)) }
    ensures front { IsCut result →
        TakesFront (K.taken sink.old) (K.taken sink.new) (cover_answer (asked_by bytes.now)).text }
    ensures large_at_once { IsTooLarge (asked_by bytes.now) → result ≢ 7 }
    ensures known { result ≢ 1 }
    ensures sink { SinkStatus result (K.faults sink.old) (K.faults sink.new) }
    ensures complete { WholeOrCut result }
{
    match read(alloc, bytes) {
        Ok(Asked::TooManyBytes) => print(sink, b"too-large bytes\n", 9),
        Ok(Asked::TooManyLines) => print(sink, b"too-large steps\n", 9),
        Ok(Asked::Refused(line)) => print_line(line, sink),
        Ok(Asked::Covering { filters }) => compare_filters(alloc, &filters, sink),
        Err(_) => 7,
    }
}

/// Prints for each two of the filters whether the one covers the other. Gives the status.
fn compare_filters<K: Sink>(alloc: Global, filters: &FilterList, sink: &mut K) -> u8
    ensures printed { result ≡ 0 →
        K.taken sink.new ≡ with_more (K.taken sink.old) (covered_text filters.now) }
    ensures front { IsCut result →
        TakesFront (K.taken sink.old) (K.taken sink.new) (covered_text filters.now) }
    ensures sink { SinkStatus result (K.faults sink.old) (K.faults sink.new) }
    ensures complete { DoneOrCut result }
{
    match print_covers(alloc, filters, sink) {
        Ok(()) => 0,
        Err(RunFault::Write) => 4,
        Err(RunFault::Memory) => 7,
        Err(RunFault::Disk | RunFault::Damaged { .. } | RunFault::Post) => unreachable!(),
    }
}
