//! Copies of report lines.

ghost use Rattle.std.specs.Prelude.{◌≡◌, IfOk};

use crate::fault::Memory;
use gr_event::Bytes;
use gr_model::{Report, Reports};
use gr_tick::Lattice;
use std::alloc::Global;

/// A line of the same kind: numbers as they are, and behind the semicolon a copy of what owns memory.
macro_rules! same_line {
    ($line:expr; $($kind:ident { $($number:ident),* $(; $($owned:ident: $copy:expr),*)? })*) => {
        match $line {
            $(Report::$kind { $($number,)* $($($owned,)*)? } => {
                Ok(Report::$kind { $($number: *$number,)* $($($owned: $copy,)*)? })
            })*
        }
    };
}

/// The same line.
fn copy_report(alloc: Global, line: &Report) -> Result<Report, Memory>
    ensures { IfOk result (λ copy. copy ≡ line.now) }
{
    same_line!(line;
        Opened { publisher, last, settled, cut }
        Logged { publisher, number, tick }
        Already { publisher, number }
        Gap { publisher, number, next }
        Exhausted { publisher, number }
        Joined { subscriber, publisher, tick }
        AlreadyJoined { subscriber, publisher }
        ExhaustedJoin { subscriber, publisher }
        Kept { publisher, number, tick }
        Lost { publisher, number, tick }
        Mark { publisher, tick }
        Cut { publisher, tick }
        Reclaimed { publisher, generation }
        Got { subscriber, publisher, tick; event: event.share() }
        Horizon { subscriber, publisher, tick }
        Ordered { subscriber, publisher, tick; event: event.share() }
        SentKnow { number, from, to, publisher; runs: runs.copy()?, joins: joins.share() }
        SentWant { number, from, to, publisher; runs: runs.copy()? }
        SentExpect { number, from, to, publisher, tick }
        Crashed { broker }
        Swept { moment }
        RefusedHosts { line, broker }
        RefusedFrame { line, frame, sent }
        RefusedClock { line, moment }
        DroppedNotFrame { broker, fault, at }
        DroppedStray { broker, from, to, publisher }
        DroppedSplit { broker, at, kept, came }
        DroppedClash { broker, tick; kept: kept.share(), came: came.share() }
        DroppedBadNote { broker, fault, at }
        DroppedStrayNote { broker, publisher }
        Damaged { publisher, at }
        Frames { count }
        LogOf { publisher, last, settled, cut, kept }
        Doubt { broker, publisher, tick }
        BytesOf { frame; bytes: Bytes::from_slice(alloc, bytes.as_slice())? }
    )
}

/// The same lines.
pub(crate) fn copy_reports(alloc: Global, lines: &Reports) -> Result<Reports, Memory>
    ensures { IfOk result (λ copy. copy ≡ lines.now) }
{
    let mut copy = Reports::new(alloc);
    for line in lines.as_slice() {
        copy.push(copy_report(alloc, line)?)?;
    }
    Ok(copy)
}
