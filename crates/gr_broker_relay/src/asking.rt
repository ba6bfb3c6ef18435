//! A broker below the host asks for what is wanted and tells what is consolidated, when it is woken and when it is
//! told what to expect.

ghost use Rattle.std.specs.Prelude.{◌≡◌, ℕ, ◌+◌, ◌-◌, ◌*◌, ◌<◌, ◌≤◌, ◌&&◌, ◌||◌, [], ◌∷◌, get_or, true, false, min};
ghost use Rattle.std.specs.Prelude.{max, length, drop, if◌then◌else◌, IfOk, OnOk};
ghost use Rattle.gr_tick.specs.declared.TheConstants.{MAX_TICK};
ghost use Rattle.gr_tick.specs.Runs.{top_of};
ghost use Rattle.gr_tick.specs.Stored.{within, RunsGive};
ghost use Rattle.gr_know.specs.Values.{known_at, is_Q};
ghost use Rattle.gr_know.specs.declared.values.K.TheVariants.{Q};
ghost use Rattle.gr_curio.specs.Values.{wanted_at, asked_at, is_A, is_C};
ghost use Rattle.gr_curio.specs.Due.{due_of};
ghost use Rattle.gr_curio.specs.Wants.{any_C, runs_of, wants_of};
ghost use Rattle.gr_curio.specs.declared.values.Q3.TheVariants.{N, C, A};
ghost use Rattle.gr_pubend.specs.Log.{Log};
ghost use Rattle.gr_topo.specs.Topology.{children_of};
ghost use Rattle.gr_model.specs.Net.{Net, is_host, keeps_horizon};
ghost use Rattle.gr_model.specs.NetOf.{net_of};
ghost use Rattle.gr_model.specs.Broker.{Outcome as MachineOutcome, is_consolidated_by, consolidated, upward, up_frames};
ghost use Rattle.gr_model.specs.Broker.{noted, kept_view, wake_below, expect, expect_frame, expect_frames, covers};
ghost use Rattle.gr_broker_relay.specs.Kept.{IsKept};
ghost use Rattle.gr_broker_relay.specs.Keeps.{KeepsPart, LeavesKept};
ghost use Rattle.gr_broker_relay.specs.Held.{held_view, shown_net, IsSite};
ghost use Rattle.gr_broker_relay.specs.Told.{Tells, AddsFrames, IsBlank};

use crate::held::Held;
use crate::learning::forget_below;
use crate::outcome::{Memory, Outcome};
use crate::sending::send_up;
use crate::site::Site;
use gr_broker_walks::{unknown_of, wanted_on, whole_of};
use gr_curio::{Q3, Wants};
use gr_frame::{Body, Frame, Head};
use gr_outbox::Outbox;
use gr_tick::{Piece, Stream};
use std::alloc::{AllocError, Global};

/// The tick up to which a wake at the moment `now` wants all above the horizon: what is idle, and what is a gap's time
/// below something known. It is 0 where no horizon is kept.
fn wake_end(site: &Site<'_>, held: &Held, now: u64) -> u64
    requires { IsSite site.now }
    ensures end { let net : Net = net_of site.now.topo.now in result
        ≡ (if keeps_horizon net site.now.publisher site.now.broker
        then max (now - net.idle) (min (now - net.gap) (top_of held.now.know.runs - 1)) else 0) }
    ensures upto { result ≤ now }
{
    if !site.position.keeps {
        return 0;
    }
    let settings = site.topo.settings();
    let below_known = held.know.top().saturating_sub(1);
    let waited = now.saturating_sub(settings.gap).min(below_known);
    now.saturating_sub(settings.idle).max(waited)
}

/// The tick up to which an expected tick makes all above the horizon wanted. It is 0 where no horizon is kept.
fn expect_end(site: &Site<'_>, tick: u64) -> u64
    requires { IsSite site.now }
    ensures end { let net : Net = net_of site.now.topo.now in result
        ≡ (if keeps_horizon net site.now.publisher site.now.broker then tick else 0) }
    ensures upto { result ≤ tick }
{
    if !site.position.keeps {
        return 0;
    }
    tick
}

/// C at each tick that some child asks for, and at each from above the horizon up to the last one.
fn wanted_upto(site: &Site<'_>, held: &Held, last: u64) -> Result<Piece<Q3>, Memory>
    requires { last ≤ MAX_TICK }
    ensures { IfOk result (λ piece. RunsGive N piece
        (λ t. if any_C (runs_of held.now.wants) t || within (held.now.horizon + 1) last t then C else N)) }
{
    let curious = held.wants.curious()?;
    wanted_on(site.alloc, &curious, held.horizon.horizon() + 1, last)
}

/// Acknowledged at the ticks that are consolidated.
fn consolidated_piece(site: &Site<'_>, held: &Held) -> Result<Piece<Q3>, Memory>
    requires site { IsSite site.now }
    requires kept { IsKept (net_of site.now.topo.now) site.now.publisher site.now.broker (held_view held.now) }
    ensures { let keeps = keeps_horizon (net_of site.now.topo.now) site.now.publisher site.now.broker in
        IfOk result (λ done. RunsGive N done
        (λ t. if is_consolidated_by keeps held.now.horizon (runs_of held.now.wants) t then A else N)) }
{
    if site.position.keeps {
        return held.wants.consolidate(Some(held.horizon.horizon()));
    }
    held.wants.consolidate(None)
}

/// What goes up: acknowledged where all is consolidated, and else what is asked.
fn upward_of(alloc: Global, done: &Piece<Q3>, asked: &Piece<Q3>) -> Result<Piece<Q3>, AllocError>
    requires { (t : ℕ) → is_C (wanted_at done.now t) ≡ false }
    ensures { IfOk result (λ piece. RunsGive N piece
        (λ t. if is_A (wanted_at done.now t) then A else wanted_at asked.now t)) }
{
    let mut stream = Stream::new(alloc);
    stream.join_piece(done)?;
    stream.join_piece(asked)?;
    whole_of(&stream)
}

/// Sends up what is consolidated, and asks for the ticks that are wanted and unknown, and of which no ask is
/// outstanding. Answers what is asked.
fn asked_upward(
    site: &Site<'_>,
    held: &Held,
    wanted: &Piece<Q3>,
    now: u64,
    into: &mut Outbox,
) -> Result<Piece<Q3>, Memory>
    requires site { IsSite site.now }
    requires kept { IsKept (net_of site.now.topo.now) site.now.publisher site.now.broker (held_view held.now) }
    ensures asked { let net : Net = net_of site.now.topo.now in
        IfOk result (λ asked. RunsGive N asked (λ t. due_of (asked_at held.now.asks.runs t)
        (if is_C (wanted_at wanted.now t) && is_Q (known_at held.now.know.runs t) then C else N) now net.retry)) }
    ensures frames { let net : Net = net_of site.now.topo.now in
        let keeps = keeps_horizon net site.now.publisher site.now.broker in
        IfOk result (λ asked. AddsFrames (up_frames net site.now.publisher site.now.broker
        (upward (consolidated keeps held.now.horizon (runs_of held.now.wants)) asked)) into.old into.new) }
{
    let unknown = unknown_of(site.alloc, wanted, &held.know)?;
    let retry = site.topo.settings().retry;
    let asked = held.asks.due(&unknown, now, retry)?;
    let done = consolidated_piece(site, held)?;
    let upward = upward_of(site.alloc, &done, &asked)?;
    send_up(site, upward, into)?;
    Ok(asked)
}

/// Takes the room to note what is asked.
fn reserve_asks(held: &mut Held, asked: &Piece<Q3>) -> Result<(), Memory>
    ensures view { held_view held.new ≡ held_view held.old }
    ensures log { held.new.log ≡ held.old.log }
    ensures room { OnOk result (length asked.now * 2 ≤ held.new.asks.spare) }
{
    let Some(room) = asked.len().checked_mul(2) else {
        return Err(AllocError);
    };
    held.asks.reserve(room)
}

/// Notes what is asked, where there is room for it, and forgets what a broker below the host does not keep.
fn note_asked(site: &Site<'_>, held: &mut Held, asked: &Piece<Q3>, now: u64)
    requires site { IsSite site.now }
    requires below { is_host (net_of site.now.topo.now) site.now.publisher site.now.broker ≡ false }
    requires kept { IsKept (net_of site.now.topo.now) site.now.publisher site.now.broker (held_view held.old) }
    requires unknown { (t : ℕ) → is_C (wanted_at asked.now t) ≡ true → known_at held.old.know.runs t ≡ Q }
    requires room { length asked.now * 2 ≤ held.old.asks.spare }
    ensures view { let net : Net = shown_net site.now.topo.now held.old in held_view held.new
        ≡ kept_view net site.now.publisher site.now.broker (record {
          know = held.old.know.runs;
          wants = runs_of held.old.wants;
          asks = noted now held.old.asks.runs asked.now;
          horizon = held.old.horizon;
          joins = held.old.joins;
        }) }
    ensures part { LeavesKept site.now held.old held.new }
{
    // Proof only: the runs are canonical.
    let _ = held.know.len();
    let _ = held.asks.len();
    let _ = asked.len();
    held.asks.asked_ready(asked, now);
    let horizon = held.horizon.horizon();
    forget_below(site, &mut held.know, horizon);
}

/// Wakes a broker that is not the host, at the moment `now` in milliseconds. At want of memory all is as it was.
pub fn wake_below(site: &Site<'_>, held: &mut Held, now: u64) -> Result<Outcome, Memory>
    requires site { IsSite site.now }
    requires below { is_host (net_of site.now.topo.now) site.now.publisher site.now.broker ≡ false }
    requires now { now ≤ MAX_TICK }
    requires kept { IsKept (net_of site.now.topo.now) site.now.publisher site.now.broker (held_view held.old) }
    ensures told { let net : Net = shown_net site.now.topo.now held.old in IfOk result (λ told. (log : Log) →
        Tells (wake_below net site.now.publisher site.now.broker now (held_view held.old) log) told) }
    ensures view { let net : Net = shown_net site.now.topo.now held.old in OnOk result ((log : Log) →
        let o : MachineOutcome = wake_below net site.now.publisher site.now.broker now (held_view held.old) log in
        held_view held.new ≡ o.view) }
    ensures part { KeepsPart site.now held.old held.new result }
{
    let wanted = wanted_upto(site, held, wake_end(site, held, now))?;
    let mut told = Outcome::new(site.alloc);
    let asked = asked_upward(site, held, &wanted, now, &mut told.frames)?;
    reserve_asks(held, &asked)?;
    note_asked(site, held, &asked, now);
    Ok(told)
}

/// Takes the tick that is to be expected, from upstream, at the moment `now` in milliseconds. What that sends is put
/// into an outcome that told nothing before. At want of memory all else is as it was.
pub fn take_expect(
    site: &Site<'_>,
    held: &mut Held,
    tick: u64,
    now: u64,
    into: &mut Outcome,
) -> Result<(), Memory>
    requires site { IsSite site.now }
    requires below { is_host (net_of site.now.topo.now) site.now.publisher site.now.broker ≡ false }
    requires from_one { 1 ≤ tick }
    requires upto { tick ≤ MAX_TICK }
    requires kept { IsKept (net_of site.now.topo.now) site.now.publisher site.now.broker (held_view held.old) }
    requires blank { IsBlank into.old }
    ensures told { let net : Net = shown_net site.now.topo.now held.old in OnOk result ((log : Log) →
        Tells (expect net site.now.publisher site.now.broker now tick (held_view held.old) log) into.new) }
    ensures view { let net : Net = shown_net site.now.topo.now held.old in OnOk result ((log : Log) →
        let o : MachineOutcome = expect net site.now.publisher site.now.broker now tick (held_view held.old) log in
        held_view held.new ≡ o.view) }
    ensures part { KeepsPart site.now held.old held.new result }
{
    let wanted = wanted_upto(site, held, expect_end(site, tick))?;
    let asked = asked_upward(site, held, &wanted, now, &mut into.frames)?;
    expect_children(site, &held.wants, tick, &mut into.frames)?;
    reserve_asks(held, &asked)?;
    note_asked(site, held, &asked, now);
    Ok(())
}

/// Tells each child that has not acknowledged all up to a tick to expect it. At want of memory some may be told.
pub fn expect_children(
    site: &Site<'_>,
    wants: &Wants,
    tick: u64,
    into: &mut Outbox,
) -> Result<(), Memory>
    requires site { IsSite site.now }
    requires from_one { 1 ≤ tick }
    requires upto { tick ≤ MAX_TICK }
    ensures { OnOk result (AddsFrames (expect_frames site.now.publisher site.now.broker tick
        (children_of site.now.topo.now site.now.publisher site.now.broker) (runs_of wants.now)) into.old into.new) }
{
    let count = site.position.children.len().min(wants.children());
    for i in 0..count {
        expect_one(site, wants, i, tick, into)?;
    }
    Ok(())
}

/// Tells the child at a place to expect a tick, unless it has acknowledged all up to it.
fn expect_one(
    site: &Site<'_>,
    wants: &Wants,
    i: usize,
    tick: u64,
    into: &mut Outbox,
) -> Result<(), Memory>
    requires site { IsSite site.now }
    requires child { i < length site.now.position.now.children.items }
    requires wants { i < length wants.now }
    requires from_one { 1 ≤ tick }
    requires upto { tick ≤ MAX_TICK }
    ensures { let child = get_or (children_of site.now.topo.now site.now.publisher site.now.broker) i 0 in
        let done = covers (wants_of (runs_of wants.now) i) tick in
        OnOk result (AddsFrames (if done then [] else expect_frame site.now.broker child site.now.publisher tick ∷ [])
        into.old into.new) }
{
    if wants.covers(i, tick) {
        return Ok(());
    }
    let head = Head {
        from: site.broker,
        to: site.position.children[i].number,
        publisher: site.publisher,
    };
    let frame = Frame {
        head,
        body: Body::Expect(tick),
    };
    into.push(site.alloc, frame)
}
