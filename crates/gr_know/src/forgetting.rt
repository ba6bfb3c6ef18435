//! Forgetting: the least ticks with an event are made unknown, run by run.
ghost use Rattle.std.specs.Prelude.{◌≡◌, ℕ, ◌-◌, ◌+◌, ◌^◌, ◌<◌, ◌≤◌, ◌&&◌, true, nat_le, take, drop, ◌++◌, length};
ghost use Rattle.gr_know.specs.Values.{known_at, is_D};
ghost use Rattle.gr_know.specs.Forget.{data_count, lower_data, NoDataBelow};

use crate::events::is_data;
use crate::values::K;
use gr_tick::{Piece, Run, Stream};

/// Whether a run has an event at a tick up to a given one.
fn may_lower(run: &Run<K>, upto: u64) -> bool
    ensures { result ≡ (is_D run.now.value && nat_le run.now.first upto) }
{
    is_data(run) && run.first <= upto
}

/// The least tick with an event, or 2^64 - 1 where there is none. It looks at no run that ends below a tick below which
/// there is none.
pub(crate) fn first_data(stream: &Stream<K>, from: u64) -> u64
    requires none { NoDataBelow from stream.now.runs }
    ensures none { NoDataBelow result stream.now.runs }
    ensures event { result < 2 ^ 64 - 1 → is_D (known_at stream.now.runs result) ≡ true }
{
    // Proof only: the runs are canonical.
    let _ = stream.len();
    for i in stream.seek(from)..stream.len() {
        let run = stream.run(i);
        if is_data(run) {
            return run.first;
        }
    }
    u64::MAX
}

/// The least tick of a piece with an event, or 2^64 - 1 where there is none.
pub(crate) fn first_data_of(piece: &Piece<K>) -> u64
    ensures none { NoDataBelow result piece.now }
    ensures event { result < 2 ^ 64 - 1 → is_D (known_at piece.now result) ≡ true }
{
    for i in 0..piece.len() {
        let run = piece.run(i);
        if is_data(run) {
            return run.first;
        }
    }
    u64::MAX
}

/// Makes so many ticks with an event unknown, the least ones first and none past a tick, and answers how many are left
/// to do, since no more have an event up to there. None below `from` has one. It looks at no run that ends below it, at
/// none where there are none to do, and at one past `upto` at most.
pub(crate) fn forget_data(stream: &mut Stream<K>, from: u64, count: u64, upto: u64) -> u64
    requires none { NoDataBelow from stream.old.runs }
    ensures lowered { stream.new.runs ≡ lower_data count upto stream.old.runs }
    ensures fewer { result ≤ count }
    ensures counted { data_count stream.new.runs + (count - result) ≡ data_count stream.old.runs }
{
    // Proof only: the runs are canonical.
    let _ = stream.len();
    let mut left = count;
    let mut i = stream.seek(from);
    while left > 0 && i < stream.len() && stream.run(i).first <= upto {
        (i, left) = lower_run(stream, i, left, upto);
    }
    // Proof only: the runs are canonical.
    let _ = stream.len();
    left
}

/// Lowers what is to be lowered of the run at a place, and answers the place to go on at, and how many ticks are left
/// to lower.
fn lower_run(stream: &mut Stream<K>, i: usize, left: u64, upto: u64) -> (usize, u64)
    requires within { i < length stream.old.runs }
    requires some { 0 < left }
    ensures within { result.0 ≤ length stream.new.runs }
    ensures smaller { length stream.new.runs - result.0 < length stream.old.runs - i }
    ensures fewer { result.1 ≤ left }
    ensures counted { data_count stream.new.runs + (left - result.1) ≡ data_count stream.old.runs }
    ensures lowered { take result.0 stream.new.runs ++ lower_data result.1 upto (drop result.0 stream.new.runs)
        ≡ take i stream.old.runs ++ lower_data left upto (drop i stream.old.runs) }
{
    // Proof only: the runs are canonical.
    let _ = stream.len();
    let run = stream.run(i);
    if !may_lower(run, upto) {
        return (i + 1, left);
    }
    let first = run.first;
    let last = run.last;
    let ticks = left.min(last.min(upto) - first + 1);
    let end = first + (ticks - 1);
    stream.lower_front(i, end);
    if end == last {
        return (i, left - ticks);
    }
    (i + 1, left - ticks)
}
