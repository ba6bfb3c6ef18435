//! The horizon of the subscribers at a broker, for one publisher.

ghost use Rattle.std.specs.Prelude.{◌≡◌, ◌≢◌, ◌⊎◌, ℕ, suc, ◌+◌, ◌-◌, ◌<◌, ◌≤◌, ◌++◌, true, None, map, IfOk, OnOk};
ghost use Rattle.std.specs.Prelude.{OnErr};
ghost use Rattle.gr_tick.specs.declared.TheConstants.{MAX_TICK};
ghost use Rattle.gr_tick.specs.Stored.{IsRun, RunsGive};
ghost use Rattle.gr_know.specs.Values.{Known, known_at, join_K};
ghost use Rattle.gr_know.specs.declared.values.K.TheVariants.{Q};
ghost use Rattle.gr_subend.specs.Horizon.{horizon_after, numbers_from, data_of_run, data_ticks, LiesWithin};
ghost use Rattle.gr_subend.specs.Said.{said_at, TicksRise, event_of};
ghost use Rattle.gr_subend.specs.Deliveries.{items};

use crate::delivery::{Deliveries, Delivery};
use gr_event::{Event, Memory};
use gr_know::{K, Know};
use gr_tick::{Piece, Run};
use std::alloc::Global;
use std::marker::Model;

/// How far the subscribers at a broker have heard one publisher, seen as its horizon: the last tick up to which nothing
/// is in doubt. It starts at 0, never goes back, and is at most 2^62.
#[derive(Drop)]
pub struct Subend {
    horizon: u64,
}

impl Model for Subend {
    ghost use Rattle.std.specs.Prelude.{ℕ, ◌≤◌};
    ghost use Rattle.gr_tick.specs.declared.TheConstants.{MAX_TICK};

    ghost Value = { ℕ };

    ghost view = { λ s. s.horizon };

    ghost invariant = { λ s. s.horizon ≤ MAX_TICK };
}

impl Subend {
    /// Nothing was heard yet. Takes no memory.
    pub fn new() -> Subend
        ensures { result ≡ 0 }
    {
        Subend { horizon: 0 }
    }

    /// Moves the horizon to the last tick before the next unknown one, and gives every event that it passed, tick by
    /// tick. An event that stands at many ticks is given at each of them. The filters of the subscribers are for the
    /// caller. `Memory` leaves the horizon as it was.
    pub fn advance(&mut self, alloc: Global, know: &Know) -> Result<Deliveries, Memory>
        ensures horizon { OnOk result (self.new ≡ horizon_after true self.old know.now.runs) }
        ensures forward { self.old ≤ self.new }
        ensures known { OnOk result ((t : ℕ) → self.old < t → t ≤ self.new → known_at know.now.runs t ≢ Q) }
        ensures greatest { OnOk result (known_at know.now.runs (self.new + 1) ≡ Q) }
        ensures delivered { IfOk result (λ ds. items ds ≡ data_ticks self.old self.new know.now.runs) }
        ensures rise { IfOk result (λ ds. TicksRise self.old (items ds)) }
        ensures each { IfOk result (λ ds. (t : ℕ) → self.old < t → t ≤ self.new
            → said_at (items ds) t ≡ event_of (known_at know.now.runs t)) }
        ensures no_other { IfOk result (λ ds. (t : ℕ) → (t ≤ self.old) ⊎ (self.new < t) → said_at (items ds) t ≡ None) }
        ensures err { OnErr result (self.new ≡ self.old) }
    {
        let _ = know.len();
        let horizon = know.horizon_from(self.horizon);
        if horizon == self.horizon {
            return Ok(Deliveries::new(alloc));
        }
        let passed = know.piece(self.horizon + 1, horizon)?;
        let deliveries = events_in(alloc, &passed)?;
        self.horizon = horizon;
        Ok(deliveries)
    }

    /// What `advance` will give once a piece is joined to what is known: for a caller that takes all memory before it
    /// changes anything. `move_on` then moves the horizon. It looks at the ticks that are passed and no others.
    pub fn coming(&self, alloc: Global, know: &Know, piece: &Piece<K>) -> Result<Deliveries, Memory>
        ensures { IfOk result (λ ds. (joined : Known)
            → RunsGive Q joined (λ t. join_K (known_at know.now.runs t) (known_at piece.now t))
            → items ds ≡ data_ticks self.now (horizon_after true self.now joined) joined) }
    {
        // Proof only: the horizon is a tick.
        let _ = self.horizon();
        let horizon = know.horizon_with(piece, self.horizon);
        let deliveries = self.coming_upto(alloc, know, piece, horizon)?;
        Ok(deliveries)
    }

    /// The events that a move of the horizon to a tick passes, once a piece is joined to what is known: for a caller
    /// that knows that tick. It looks at the ticks that are passed and no others.
    pub fn coming_upto(
        &self,
        alloc: Global,
        know: &Know,
        piece: &Piece<K>,
        horizon: u64,
    ) -> Result<Deliveries, Memory>
        requires forward { self.now ≤ horizon }
        requires inside { horizon ≤ MAX_TICK }
        ensures { IfOk result (λ ds. (joined : Known)
            → RunsGive Q joined (λ t. join_K (known_at know.now.runs t) (known_at piece.now t))
            → items ds ≡ data_ticks self.now horizon joined) }
    {
        if horizon == self.horizon {
            return Ok(Deliveries::new(alloc));
        }
        // Most pieces follow all that is known, and are passed whole. Proof only: the runs are canonical.
        let _ = piece.len();
        if know.top() <= self.horizon && lies_within(piece, self.horizon, horizon) {
            let deliveries = events_in(alloc, piece)?;
            return Ok(deliveries);
        }
        let passed = know.piece_with(piece, self.horizon + 1, horizon)?;
        let deliveries = events_in(alloc, &passed)?;
        Ok(deliveries)
    }

    /// Moves the horizon as `advance` does, and gives no events. Takes no memory, and never fails.
    pub fn move_on(&mut self, know: &Know)
        ensures horizon { self.new ≡ horizon_after true self.old know.now.runs }
        ensures forward { self.old ≤ self.new }
    {
        self.horizon = know.horizon_from(self.horizon);
    }

    /// Moves the horizon to a tick that is not below it, for a caller that knows where it is to stand. Takes no memory.
    pub fn move_to(&mut self, tick: u64)
        requires forward { self.old ≤ tick }
        requires inside { tick ≤ MAX_TICK }
        ensures { self.new ≡ tick }
    {
        self.horizon = tick;
    }

    /// The horizon. Takes no memory.
    pub fn horizon(&self) -> u64
        ensures horizon { result ≡ self.now }
        ensures inside { result ≤ MAX_TICK }
    {
        self.horizon
    }

    /// An endpoint with the same horizon. Takes no memory.
    pub fn copy(&self) -> Subend
        ensures { result ≡ self.now }
    {
        Subend {
            horizon: self.horizon,
        }
    }
}

/// Whether all runs of a piece, of which it has some, lie past one tick and go up to another at most.
fn lies_within(piece: &Piece<K>, past: u64, upto: u64) -> bool
    requires { upto ≤ MAX_TICK }
    ensures { result ≡ true → LiesWithin past upto piece.now }
{
    let count = piece.len();
    if count == 0 {
        return false;
    }
    let first = piece.run(0);
    let last = piece.run(count - 1);
    past < first.first && last.last <= upto
}

/// The events of a piece, at each of their ticks.
fn events_in(alloc: Global, piece: &Piece<K>) -> Result<Deliveries, Memory>
    ensures { IfOk result (λ ds. items ds ≡ data_ticks 0 MAX_TICK piece.now) }
{
    let mut deliveries = Deliveries::new(alloc);
    for i in 0..piece.len() {
        put_run(&mut deliveries, piece.run(i))?;
    }
    Ok(deliveries)
}

/// Puts the event of a run at the end, once for each of its ticks. A run without an event gives nothing.
fn put_run(deliveries: &mut Deliveries, run: &Run<K>) -> Result<(), Memory>
    requires { IsRun Q run.now }
    ensures { OnOk result (items deliveries.new ≡ items deliveries.old ++ data_of_run 0 MAX_TICK run.now) }
{
    match &run.value {
        K::D(event) => put_each(deliveries, event, run.first, run.last),
        K::Q | K::S | K::F => Ok(()),
    }
}

/// Puts an event at the end, once for each tick of a range.
fn put_each(deliveries: &mut Deliveries, event: &Event, first: u64, last: u64) -> Result<(), Memory>
    requires ordered { first ≤ last }
    requires upto { last ≤ MAX_TICK }
    ensures { OnOk result (items deliveries.new ≡ items deliveries.old
        ++ map (λ t. (t, event.now)) (numbers_from first (suc last - first))) }
{
    for tick in first..last + 1 {
        deliveries.push(Delivery {
            tick,
            event: event.share(),
        })?;
    }
    Ok(())
}
