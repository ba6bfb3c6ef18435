//! The text of a lane, read.

ghost use Rattle.std.specs.Prelude.{◌≡◌, ◌+◌, ◌-◌, ◌^◌, ◌≤◌, ◌<◌, ◌==◌, ◌&&◌, [], length, drop};
ghost use Rattle.std.specs.Prelude.{IfOk, MatchResult, Ok, true, nat_le};
ghost use Rattle.std.specs.Int.{w16, w32, w64};
ghost use Rattle.gr_event.specs.Joins.{last_join_tick};
ghost use Rattle.gr_event.specs.declared.limits.TheConstants.{MAX_JOINS};
ghost use Rattle.gr_publog.specs.State.{max_tick, may_settle, may_cut, may_enter, is_new, held_by};
ghost use Rattle.gr_publog.specs.State.{empty_state, IsState};
ghost use Rattle.gr_publog.specs.Text.{field_in, number_in, event_in, logged_in, mark_in, cut_in, join_in, record_in};
ghost use Rattle.gr_publog.specs.Text.{records_in, is_generation, may_begin, joins_in, base_in, placed, placed_in};
ghost use Rattle.gr_publog.specs.Gives.{Fails};
ghost use Rattle.gr_publog.specs.Uses.{IsHeldFor};

use crate::entries::{Entries, note_record};
use crate::footing::{Footing, is_new};
use crate::head::Standing;
use crate::numbers::{are_bytes, eight, four, two};
use crate::record::{Base, LogFault, MAX_TICK, Record, State};
use gr_event::{Event, EventFault, Join, Joins, MAX_EVENT_BYTES, MAX_JOINS};
use std::alloc::Global;
use std::collections::VecDeque;

/// A field of so many bytes, and what is left behind it.
fn field_in(total: usize, len: usize, rest: &[u8]) -> Result<(&[u8], &[u8]), LogFault>
    ensures gives { let read = field_in total len rest.now in
        MatchResult result (λ x. read ≡ Ok (x.0.now, x.1.now)) (λ e. Fails e read) }
    ensures len { IfOk result (λ x. length x.0.now ≡ len) }
    ensures within { IfOk result (λ x. len + length x.1.now ≡ length rest.now) }
{
    if len <= rest.len() {
        Ok(rest.split_at(len))
    } else {
        Err(LogFault::Damaged { at: total as u64 })
    }
}

/// The place of what is left, in a lane of so many bytes.
fn place(total: usize, rest: &[u8]) -> u64
    requires { length rest.now ≤ total }
    ensures { result ≡ total - length rest.now }
{
    (total - rest.len()) as u64
}

/// The tick of an Event, a Mark or a Join.
fn settling_in<'a>(total: usize, state: &State, rest: &'a [u8]) -> Result<(u64, &'a [u8]), LogFault>
    requires { length rest.now ≤ total }
    ensures gives { let read = number_in total 8 w64 (may_settle state.now) rest.now in
        MatchResult result (λ x. read ≡ Ok (x.0, x.1.now)) (λ e. Fails e read) }
    ensures within { IfOk result (λ x. 8 + length x.1.now ≡ length rest.now) }
{
    let (field, left) = field_in(total, 8, rest)?;
    let tick = eight(field);
    if !state.may_settle(tick) {
        return Err(LogFault::Damaged {
            at: place(total, rest),
        });
    }
    Ok((tick, left))
}

/// The tick of a Cut.
fn cutting_in<'a>(total: usize, state: &State, rest: &'a [u8]) -> Result<(u64, &'a [u8]), LogFault>
    requires { length rest.now ≤ total }
    ensures gives { let read = number_in total 8 w64 (may_cut state.now) rest.now in
        MatchResult result (λ x. read ≡ Ok (x.0, x.1.now)) (λ e. Fails e read) }
    ensures within { IfOk result (λ x. 8 + length x.1.now ≡ length rest.now) }
{
    let (field, left) = field_in(total, 8, rest)?;
    let tick = eight(field);
    if !state.may_cut(tick) {
        return Err(LogFault::Damaged {
            at: place(total, rest),
        });
    }
    Ok((tick, left))
}

/// The number of an Event.
fn next_in<'a>(total: usize, last: u64, rest: &'a [u8]) -> Result<(u64, &'a [u8]), LogFault>
    requires { length rest.now ≤ total }
    ensures gives { let read = number_in total 8 w64 (λ x. x == last + 1) rest.now in
        MatchResult result (λ x. read ≡ Ok (x.0, x.1.now)) (λ e. Fails e read) }
    ensures within { IfOk result (λ x. 8 + length x.1.now ≡ length rest.now) }
{
    let (field, left) = field_in(total, 8, rest)?;
    let number = eight(field);
    if number == 0 || number - 1 != last {
        return Err(LogFault::Damaged {
            at: place(total, rest),
        });
    }
    Ok((number, left))
}

/// The subscriber of a Join.
fn entering_in<'a>(
    total: usize,
    footing: &Footing,
    rest: &'a [u8],
) -> Result<(u16, &'a [u8]), LogFault>
    requires { length rest.now ≤ total }
    ensures gives { let read = number_in total 2 w16 (may_enter footing.now) rest.now in
        MatchResult result (λ x. read ≡ Ok (x.0, x.1.now)) (λ e. Fails e read) }
    ensures within { IfOk result (λ x. 2 + length x.1.now ≡ length rest.now) }
{
    let (field, left) = field_in(total, 2, rest)?;
    let subscriber = two(field);
    if !footing.may_enter(subscriber) {
        return Err(LogFault::Damaged {
            at: place(total, rest),
        });
    }
    Ok((subscriber, left))
}

/// The size of an event.
fn size_in(total: usize, rest: &[u8]) -> Result<(usize, &[u8]), LogFault>
    requires { length rest.now ≤ total }
    ensures gives { let read = number_in total 4 w32 (λ x. nat_le x MAX_EVENT_BYTES) rest.now in
        MatchResult result (λ x. read ≡ Ok (x.0, x.1.now)) (λ e. Fails e read) }
    ensures within { IfOk result (λ x. 4 + length x.1.now ≡ length rest.now) }
{
    let (field, left) = field_in(total, 4, rest)?;
    let size = four(field) as usize;
    if size > MAX_EVENT_BYTES {
        return Err(LogFault::Damaged {
            at: place(total, rest),
        });
    }
    Ok((size, left))
}

/// An event of so many bytes.
#[tactic(auto, unfolding(crate::specs::Text::event_in))]
fn event_in<'a>(
    alloc: Global,
    total: usize,
    size: usize,
    rest: &'a [u8],
) -> Result<(Event, &'a [u8]), LogFault>
    requires { length rest.now ≤ total }
    ensures gives { let read = event_in total size rest.now in
        MatchResult result (λ x. read ≡ Ok (x.0, x.1.now)) (λ e. Fails e read) }
    ensures within { IfOk result (λ x. length x.1.now ≤ length rest.now) }
{
    let (field, left) = field_in(total, size, rest)?;
    match Event::decode(alloc, field) {
        Ok(event) => Ok((event, left)),
        Err(EventFault::Memory) => Err(LogFault::Memory),
        Err(_) => Err(LogFault::Damaged {
            at: place(total, rest),
        }),
    }
}

/// An Event behind its kind.
#[tactic(auto, unfolding(crate::specs::Text::logged_in))]
fn logged_in<'a>(
    alloc: Global,
    total: usize,
    state: &State,
    rest: &'a [u8],
) -> Result<(Record, &'a [u8]), LogFault>
    requires { length rest.now ≤ total }
    ensures gives { let read = logged_in total state.now rest.now in
        MatchResult result (λ x. read ≡ Ok (x.0, x.1.now)) (λ e. Fails e read) }
    ensures within { IfOk result (λ x. length x.1.now ≤ length rest.now) }
{
    let (tick, behind_tick) = settling_in(total, state, rest)?;
    let (number, behind_number) = next_in(total, state.last, behind_tick)?;
    let (size, behind_size) = size_in(total, behind_number)?;
    let (event, left) = event_in(alloc, total, size, behind_size)?;
    Ok((
        Record::Event {
            tick,
            number,
            event,
        },
        left,
    ))
}

/// A Mark behind its kind.
#[tactic(auto, unfolding(crate::specs::Text::mark_in))]
fn mark_in<'a>(total: usize, state: &State, rest: &'a [u8]) -> Result<(Record, &'a [u8]), LogFault>
    requires { length rest.now ≤ total }
    ensures gives { let read = mark_in total state.now rest.now in
        MatchResult result (λ x. read ≡ Ok (x.0, x.1.now)) (λ e. Fails e read) }
    ensures within { IfOk result (λ x. length x.1.now ≤ length rest.now) }
{
    let (tick, left) = settling_in(total, state, rest)?;
    Ok((Record::Mark { tick }, left))
}

/// A Cut behind its kind.
#[tactic(auto, unfolding(crate::specs::Text::cut_in))]
fn cut_in<'a>(total: usize, state: &State, rest: &'a [u8]) -> Result<(Record, &'a [u8]), LogFault>
    requires { length rest.now ≤ total }
    ensures gives { let read = cut_in total state.now rest.now in
        MatchResult result (λ x. read ≡ Ok (x.0, x.1.now)) (λ e. Fails e read) }
    ensures within { IfOk result (λ x. length x.1.now ≤ length rest.now) }
{
    let (tick, left) = cutting_in(total, state, rest)?;
    Ok((Record::Cut { tick }, left))
}

/// A Join behind its kind.
#[tactic(auto, unfolding(crate::specs::Text::join_in))]
fn join_in<'a>(
    total: usize,
    footing: &Footing,
    rest: &'a [u8],
) -> Result<(Record, &'a [u8]), LogFault>
    requires { length rest.now ≤ total }
    ensures gives { let read = join_in total footing.now rest.now in
        MatchResult result (λ x. read ≡ Ok (x.0, x.1.now)) (λ e. Fails e read) }
    ensures within { IfOk result (λ x. length x.1.now ≤ length rest.now) }
{
    let (tick, behind_tick) = settling_in(total, footing.state(), rest)?;
    let (subscriber, left) = entering_in(total, footing, behind_tick)?;
    Ok((Record::Join { tick, subscriber }, left))
}

/// A record, and what is left behind it.
#[tactic(auto, unfolding(crate::specs::Text::record_in))]
fn record_in<'a>(
    alloc: Global,
    total: usize,
    footing: &Footing,
    rest: &'a [u8],
) -> Result<(Record, &'a [u8]), LogFault>
    requires { length rest.now ≤ total }
    ensures gives { let read = record_in total footing.now rest.now in
        MatchResult result (λ x. read ≡ Ok (x.0, x.1.now)) (λ e. Fails e read) }
    ensures within { IfOk result (λ x. length x.1.now < length rest.now) }
{
    match rest {
        [] => Err(LogFault::Damaged { at: total as u64 }),
        [1, behind @ ..] => logged_in(alloc, total, footing.state(), behind),
        [2, behind @ ..] => mark_in(total, footing.state(), behind),
        [3, behind @ ..] => cut_in(total, footing.state(), behind),
        [4, behind @ ..] => join_in(total, footing, behind),
        _ => Err(LogFault::Damaged {
            at: place(total, rest),
        }),
    }
}

/// The generation of a lane.
fn generation_in(total: usize, rest: &[u8]) -> Result<(u64, &[u8]), LogFault>
    requires { length rest.now ≤ total }
    ensures gives { let read = number_in total 8 w64 is_generation rest.now in
        MatchResult result (λ x. read ≡ Ok (x.0, x.1.now)) (λ e. Fails e read) }
    ensures within { IfOk result (λ x. 8 + length x.1.now ≡ length rest.now) }
{
    let (field, left) = field_in(total, 8, rest)?;
    let generation = eight(field);
    if generation < 1 || generation > MAX_TICK {
        return Err(LogFault::Damaged {
            at: place(total, rest),
        });
    }
    Ok((generation, left))
}

/// The number of the last event before a lane's first record.
fn base_last_in(total: usize, rest: &[u8]) -> Result<(u64, &[u8]), LogFault>
    requires { length rest.now ≤ total }
    ensures gives { let read = number_in total 8 w64 (λ x. nat_le x max_tick) rest.now in
        MatchResult result (λ x. read ≡ Ok (x.0, x.1.now)) (λ e. Fails e read) }
    ensures within { IfOk result (λ x. 8 + length x.1.now ≡ length rest.now) }
{
    let (field, left) = field_in(total, 8, rest)?;
    let last = eight(field);
    if last > MAX_TICK {
        return Err(LogFault::Damaged {
            at: place(total, rest),
        });
    }
    Ok((last, left))
}

/// The cut before a lane's first record.
fn base_cut_in(total: usize, last: u64, rest: &[u8]) -> Result<(u64, &[u8]), LogFault>
    requires { length rest.now ≤ total }
    ensures gives { let read = number_in total 8 w64 (λ x. nat_le last x && nat_le x max_tick) rest.now in
        MatchResult result (λ x. read ≡ Ok (x.0, x.1.now)) (λ e. Fails e read) }
    ensures within { IfOk result (λ x. 8 + length x.1.now ≡ length rest.now) }
{
    let (field, left) = field_in(total, 8, rest)?;
    let cut = eight(field);
    if cut < last || cut > MAX_TICK {
        return Err(LogFault::Damaged {
            at: place(total, rest),
        });
    }
    Ok((cut, left))
}

/// The number of joins before a lane's first record.
fn count_in(total: usize, rest: &[u8]) -> Result<(u16, &[u8]), LogFault>
    requires { length rest.now ≤ total }
    ensures gives { let read = number_in total 2 w16 (λ x. nat_le x MAX_JOINS) rest.now in
        MatchResult result (λ x. read ≡ Ok (x.0, x.1.now)) (λ e. Fails e read) }
    ensures within { IfOk result (λ x. 2 + length x.1.now ≡ length rest.now) }
{
    let (field, left) = field_in(total, 2, rest)?;
    let count = two(field);
    if usize::from(count) > MAX_JOINS {
        return Err(LogFault::Damaged {
            at: place(total, rest),
        });
    }
    Ok((count, left))
}

/// The subscriber of a join before a lane's first record, behind these joins.
fn entrant_in<'a>(
    total: usize,
    late: &[u16],
    joins: &Joins,
    rest: &'a [u8],
) -> Result<(u16, &'a [u8]), LogFault>
    requires { length rest.now ≤ total }
    ensures gives { let read = number_in total 2 w16 (is_new late.now joins.now) rest.now in
        MatchResult result (λ x. read ≡ Ok (x.0, x.1.now)) (λ e. Fails e read) }
    ensures new { IfOk result (λ x. is_new late.now joins.now x.0 ≡ true) }
    ensures small { IfOk result (λ x. x.0 < 2 ^ 16) }
    ensures within { IfOk result (λ x. 2 + length x.1.now ≡ length rest.now) }
{
    let (field, left) = field_in(total, 2, rest)?;
    let subscriber = two(field);
    if !is_new(late, joins, subscriber) {
        return Err(LogFault::Damaged {
            at: place(total, rest),
        });
    }
    Ok((subscriber, left))
}

/// The tick of the last of some joins, 0 where there is none.
pub(crate) fn last_tick(joins: &[Join]) -> u64
    ensures { result ≡ last_join_tick joins.now }
{
    match joins {
        [] => 0,
        [.., last] => last.tick,
    }
}

/// The tick of a join before a lane's first record, behind these joins.
fn beginning_in<'a>(
    total: usize,
    joins: &Joins,
    cut: u64,
    rest: &'a [u8],
) -> Result<(u64, &'a [u8]), LogFault>
    requires { length rest.now ≤ total }
    ensures gives { let read = number_in total 8 w64 (may_begin joins.now cut) rest.now in
        MatchResult result (λ x. read ≡ Ok (x.0, x.1.now)) (λ e. Fails e read) }
    ensures begins { IfOk result (λ x. may_begin joins.now cut x.0 ≡ true) }
    ensures within { IfOk result (λ x. 8 + length x.1.now ≡ length rest.now) }
{
    let (field, left) = field_in(total, 8, rest)?;
    let tick = eight(field);
    if tick <= last_tick(joins.as_slice()) || tick > cut {
        return Err(LogFault::Damaged {
            at: place(total, rest),
        });
    }
    Ok((tick, left))
}

/// So many joins before a lane's first record.
fn joins_in<'a>(
    alloc: Global,
    total: usize,
    late: &[u16],
    count: u16,
    cut: u64,
    rest: &'a [u8],
) -> Result<(Joins, &'a [u8]), LogFault>
    requires within { length rest.now ≤ total }
    requires late { length late.now ≤ MAX_JOINS }
    requires cut { cut ≤ max_tick }
    ensures gives { let read = joins_in count total late.now cut [] rest.now in
        MatchResult result (λ x. read ≡ Ok (x.0, x.1.now)) (λ e. Fails e read) }
    ensures within { IfOk result (λ x. length x.1.now ≤ length rest.now) }
{
    let mut joins = Joins::new(alloc);
    let mut left = rest;
    let mut more = count;
    'joins: while more > 0 {
        let (subscriber, behind_subscriber) = entrant_in(total, late, &joins, left)?;
        let (tick, behind_tick) = beginning_in(total, &joins, cut, behind_subscriber)?;
        joins = joins.with(Join { subscriber, tick })?;
        left = behind_tick;
        more -= 1;
    }
    Ok((joins, left))
}

/// With what a lane begins, of what stands from place 6 on.
#[tactic(auto, unfolding(crate::specs::Text::base_in))]
fn base_in<'a>(
    alloc: Global,
    total: usize,
    late: &[u16],
    rest: &'a [u8],
) -> Result<(Base, &'a [u8]), LogFault>
    requires within { length rest.now ≤ total }
    requires late { length late.now ≤ MAX_JOINS }
    ensures gives { let read = base_in total late.now rest.now in
        MatchResult result (λ x. read ≡ Ok (x.0, x.1.now)) (λ e. Fails e read) }
    ensures within { IfOk result (λ x. length x.1.now ≤ length rest.now) }
{
    let (generation, behind_generation) = generation_in(total, rest)?;
    let (last, behind_last) = base_last_in(total, behind_generation)?;
    let (cut, behind_cut) = base_cut_in(total, last, behind_last)?;
    let (count, behind_count) = count_in(total, behind_cut)?;
    let (joins, left) = joins_in(alloc, total, late, count, cut, behind_count)?;
    Ok((
        Base {
            generation,
            last,
            cut,
            joins,
        },
        left,
    ))
}

/// What a lane holds.
#[derive(Drop)]
pub struct Held {
    /// Its numbers and its joins, and the subscribers that may join.
    pub footing: Footing,
    /// The events past the cut.
    pub events: Entries,
    /// How many bytes stand before the closed gate.
    pub gate: usize,
}

/// Gates and records in turn, up to a closed gate, in a lane of so many bytes.
fn records_in(alloc: Global, total: usize, begun: Footing, bytes: &[u8]) -> Result<Held, LogFault>
    requires within { length bytes.now ≤ total }
    requires state { IsState (held_by begun []) }
    ensures gives { let read = placed total (records_in (total + 1) total (held_by begun []) bytes.now) in
        MatchResult result (λ x. read ≡ Ok (held_by x.footing x.events, x.gate)) (λ e. Fails e read) }
    ensures state { IfOk result (λ x. IsState (held_by x.footing x.events)) }
    ensures late { IfOk result (λ x. x.footing.late ≡ begun.late) }
    ensures inside { IfOk result (λ x. x.gate ≤ total) }
{
    let mut footing = begun;
    let mut entries = VecDeque::new(alloc);
    let mut rest = bytes;
    'gates: loop {
        if rest.is_empty() {
            return Err(LogFault::Damaged { at: total as u64 });
        }
        if rest[0] != 1 {
            return Ok(Held {
                footing,
                events: Entries { entries },
                gate: total - rest.len(),
            });
        }
        // Proof only: each of them is a byte.
        are_bytes(&rest[1..]);
        match record_in(alloc, total, &footing, &rest[1..]) {
            Ok((entry, left)) => {
                entries.reserve(1)?;
                let joins = footing.joins_with(&entry)?;
                note_record(&mut entries, &entry);
                footing.note(&entry, joins);
                drop(entry);
                rest = left;
            }
            Err(fault) => return Err(fault),
        }
    }
}

/// What a lane of the second version holds, where these subscribers may join.
#[tactic(auto, unfolding(crate::specs::Text::text_in))]
fn new_text_in(alloc: Global, late: &[u16], generation: u64, bytes: &[u8]) -> Result<Held, LogFault>
    requires long { 6 ≤ length bytes.now }
    requires late { length late.now ≤ MAX_JOINS }
    ensures gives { let read = placed_in late.now (Standing.New generation) bytes.now in
        MatchResult result (λ x. read ≡ Ok (held_by x.footing x.events, x.gate)) (λ e. Fails e read) }
    ensures held { IfOk result (IsHeldFor late.now) }
    ensures inside { IfOk result (λ x. x.gate ≤ length bytes.now) }
{
    // Proof only: each of them is a byte.
    are_bytes(&bytes[6..]);
    let (base, left) = base_in(alloc, bytes.len(), late, &bytes[6..])?;
    let footing = Footing::new(alloc, base.numbers(), base.joins.share(), late)?;
    records_in(alloc, bytes.len(), footing, left)
}

/// What a lane of the first version holds, where these subscribers may join.
#[tactic(auto, unfolding(crate::specs::Text::text_in))]
fn old_text_in(alloc: Global, late: &[u16], bytes: &[u8]) -> Result<Held, LogFault>
    requires long { 6 ≤ length bytes.now }
    requires late { length late.now ≤ MAX_JOINS }
    ensures gives { let read = placed_in late.now Standing.Old bytes.now in
        MatchResult result (λ x. read ≡ Ok (held_by x.footing x.events, x.gate)) (λ e. Fails e read) }
    ensures held { IfOk result (IsHeldFor late.now) }
    ensures inside { IfOk result (λ x. x.gate ≤ length bytes.now) }
{
    let footing = Footing::first(alloc, late)?;
    records_in(alloc, bytes.len(), footing, &bytes[5..])
}

/// What a lane of no record holds.
fn nothing_in(alloc: Global, late: &[u16], gate: usize) -> Result<Held, LogFault>
    requires { length late.now ≤ MAX_JOINS }
    ensures gives { IfOk result (λ x. (held_by x.footing x.events ≡ empty_state late.now) × (x.gate ≡ gate)) }
    ensures fails { MatchResult result (λ _. Unit {0}) (λ e. e ≡ LogFault.Memory) }
{
    Ok(Held {
        footing: Footing::first(alloc, late)?,
        events: Entries::new(alloc),
        gate,
    })
}

/// What a lane holds whose head is one of a lane that stands so, where these subscribers may join. Of one that is shut
/// nothing is read.
#[tactic(auto, unfolding(crate::specs::Text::text_in))]
pub(crate) fn text_in(
    alloc: Global,
    late: &[u16],
    standing: Standing,
    bytes: &[u8],
) -> Result<Held, LogFault>
    requires long { 6 ≤ length bytes.now }
    requires late { length late.now ≤ MAX_JOINS }
    ensures gives { let read = placed_in late.now standing bytes.now in
        MatchResult result (λ x. read ≡ Ok (held_by x.footing x.events, x.gate)) (λ e. Fails e read) }
    ensures held { IfOk result (IsHeldFor late.now) }
    ensures inside { IfOk result (λ x. x.gate ≤ length bytes.now) }
{
    match standing {
        Standing::Shut => nothing_in(alloc, late, bytes.len()),
        Standing::Old => old_text_in(alloc, late, bytes),
        Standing::New(generation) => new_text_in(alloc, late, generation, bytes),
    }
}
