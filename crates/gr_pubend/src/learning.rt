//! What becomes known with a record.

ghost use Rattle.std.specs.Prelude.{◌≡◌, ℕ, ◌+◌, ◌-◌, ◌≤◌, [], ◌∷◌, if◌then◌else◌, IfOk, OnOk};
ghost use Rattle.gr_tick.specs.declared.TheConstants.{MAX_TICK};
ghost use Rattle.gr_tick.specs.Stored.{within, RunsGive, EndBefore, needed};
ghost use Rattle.gr_know.specs.Values.{known_at, join_K};
ghost use Rattle.gr_know.specs.declared.values.K.TheVariants.{Q, S, D, F};
ghost use Rattle.gr_pubend.specs.Log.{said, log_at, log_know, silence};
ghost use Rattle.gr_pubend.specs.Opening.{last_tick, EntriesRise, seen};

use gr_event::Event;
use gr_know::{K, Know};
use gr_publog::{Entries, Log, Memory};
use gr_tick::{Piece, Run};
use std::alloc::{AllocError, Global};

/// Silence on a range of ticks. A range that ends before it begins has none.
pub(crate) fn fresh_silence(alloc: Global, first: u64, last: u64) -> Result<Piece<K>, Memory>
    requires from_one { 1 ≤ first }
    requires upto { last ≤ MAX_TICK }
    ensures { IfOk result (λ piece. piece ≡ silence first last []) }
{
    let mut piece = Piece::new(alloc);
    if first <= last {
        piece.push(Run {
            first,
            last,
            value: K::S,
        })?;
    }
    Ok(piece)
}

/// Silence from one tick on, and an event at another, at or past it.
pub(crate) fn fresh_event(
    alloc: Global,
    first: u64,
    tick: u64,
    event: &Event,
) -> Result<Piece<K>, Memory>
    requires from_one { 1 ≤ first }
    requires ordered { first ≤ tick }
    requires upto { tick ≤ MAX_TICK }
    ensures { IfOk result (λ piece.
        piece ≡ silence first (tick - 1) (record { first = tick; last = tick; value = D event.now } ∷ [])) }
{
    let mut piece = fresh_silence(alloc, first, tick - 1)?;
    piece.push(Run {
        first: tick,
        last: tick,
        value: K::D(event.share()),
    })?;
    Ok(piece)
}

/// Makes room for a piece to be joined. It fails only where memory is refused; what is known stays in any case.
pub fn make_room(know: &mut Know, piece: &Piece<K>) -> Result<(), Memory>
    ensures runs { know.new.runs ≡ know.old.runs }
    ensures room { OnOk result (needed know.new.runs piece.now ≤ know.new.spare) }
{
    let Some(room) = know.room_for(piece) else {
        return Err(AllocError);
    };
    know.reserve(room)
}

/// Makes all up to a tick final; nothing for 0.
fn make_final(know: &mut Know, upto: u64) -> Result<(), Memory>
    requires { upto ≤ MAX_TICK }
    ensures { OnOk result (RunsGive Q know.new.runs (λ t. if within 1 upto t then F else known_at know.old.runs t)) }
{
    if upto == 0 {
        let _ = know.len();
        return Ok(());
    }
    know.finish(1, upto)
}

/// How many runs are gathered before they are joined to what is known.
const GATHERED: usize = 256;

/// Puts silence from a tick on, and an event at another, at or past it, behind what a piece has.
fn put_event(piece: &mut Piece<K>, first: u64, tick: u64, event: &Event) -> Result<(), Memory>
    requires from_one { 1 ≤ first }
    requires ordered { first ≤ tick }
    requires upto { tick ≤ MAX_TICK }
    requires past { EndBefore piece.old first }
    ensures values { OnOk result ((t : ℕ) → known_at piece.new t
        ≡ (if within first (tick - 1) t then S else if within tick tick t then D event.now else known_at piece.old t)) }
    ensures past { OnOk result (EndBefore piece.new (tick + 1)) }
{
    if first < tick {
        piece.push(Run {
            first,
            last: tick - 1,
            value: K::S,
        })?;
    }
    piece.push(Run {
        first: tick,
        last: tick,
        value: K::D(event.share()),
    })
}

/// Joins a piece that was gathered.
fn take_in(know: &mut Know, piece: &Piece<K>) -> Result<(), Memory>
    ensures { OnOk result (RunsGive Q know.new.runs
        (λ t. join_K (known_at know.old.runs t) (known_at piece.now t))) }
{
    make_room(know, piece)?;
    know.join(piece);
    Ok(())
}

/// Learns events behind a cut, with the silence between them, and answers the last tick that is known then. Many are
/// gathered in a piece before they are joined.
fn learn_events(alloc: Global, know: &mut Know, cut: u64, events: &Entries) -> Result<u64, Memory>
    requires known { RunsGive Q know.old.runs (log_at (seen cut [])) }
    requires rise { EntriesRise cut events.now }
    requires upto { last_tick cut events.now ≤ MAX_TICK }
    ensures last { IfOk result (λ last. last ≡ last_tick cut events.now) }
    ensures known { OnOk result (RunsGive Q know.new.runs (log_at (seen cut events.now))) }
{
    let mut last = cut;
    let mut piece = Piece::new(alloc);
    'entries: for i in 0..events.len() {
        let entry = events.get(i);
        put_event(&mut piece, last + 1, entry.tick, &entry.event)?;
        last = entry.tick;
        if GATHERED <= piece.len() {
            take_in(know, &piece)?;
            piece = Piece::new(alloc);
        }
    }
    take_in(know, &piece)?;
    Ok(last)
}

/// What is known by a log: up to its cut all is final, then the logged events are known with silence between them up to
/// the last settled tick, and nothing past that. It fails only where memory is refused.
pub fn known_by(alloc: Global, log: &Log) -> Result<Know, Memory>
    ensures known { IfOk result (λ know. know.runs ≡ log_know (said log.now)) }
    ensures each { IfOk result (λ know. RunsGive Q know.runs (log_at (said log.now))) }
{
    let _ = log.is_broken();
    let cut = log.cut();
    let settled = log.settled();
    let mut know = Know::new(alloc);
    make_final(&mut know, cut)?;
    let events = log.events();
    let last = learn_events(alloc, &mut know, cut, events)?;
    let silence = fresh_silence(alloc, last + 1, settled)?;
    make_room(&mut know, &silence)?;
    know.join(&silence);
    Ok(know)
}
