//! New ticks come to a broker: they are handed over, forwarded, consolidated.

ghost use Rattle.std.specs.Prelude.{if◌then◌else◌, ◌≡◌, ◌⊎◌, ℕ, ◌+◌, ◌*◌, ◌<◌, ◌≤◌, true, false, not, ◌&&◌};
ghost use Rattle.std.specs.Prelude.{nat_lt, nat_le, [], ◌++◌, length, get_or, set, slice_index_or, IfOk, OnOk};
ghost use Rattle.std.specs.Prelude.{◌==◌, ◌≢◌, IsTrue};
ghost use Rattle.std.specs.List.{flat_map};
ghost use Rattle.std.specs.Option.{option_map};
ghost use Rattle.gr_tick.specs.declared.TheConstants.{MAX_TICK};
ghost use Rattle.gr_filter.specs.Tree.{tree_of};
ghost use Rattle.gr_tick.specs.Runs.{is_in, AreRuns};
ghost use Rattle.gr_tick.specs.Stored.{within, IsRun, EndBefore, RunsGive, is_told, needed};
ghost use Rattle.gr_know.specs.Values.{known_at, is_Q, new_K, join_K, clash_K};
ghost use Rattle.gr_know.specs.declared.values.K.TheVariants.{Q, F};
ghost use Rattle.gr_curio.specs.declared.asks.Moment.TheVariants.{Never};
ghost use Rattle.gr_curio.specs.declared.values.Q3.TheVariants.{N, C, A};
ghost use Rattle.gr_curio.specs.Values.{wanted_at, asked_at, is_A, is_C};
ghost use Rattle.gr_curio.specs.Wants.{runs_of, wants_of, spare_of, all_A};
ghost use Rattle.gr_edge.specs.Pass.{pass};
ghost use Rattle.gr_pubend.specs.Log.{Log};
ghost use Rattle.gr_subend.specs.Deliveries.{items};
ghost use Rattle.gr_topo.specs.Topology.{passes_filter};
ghost use Rattle.gr_model.specs.Net.{Net, is_host, keeps_horizon};
ghost use Rattle.gr_model.specs.NetOf.{net_of};
ghost use Rattle.gr_model.specs.Broker.{Outcome as MachineOutcome, is_F, forgotten, max_tick};
ghost use Rattle.gr_model.specs.Broker.{forward, forward_frames, got_line, know_frames, learn, new_ticks};
ghost use Rattle.gr_broker_relay.specs.Kept.{IsKept};
ghost use Rattle.gr_broker_relay.specs.Keeps.{KeepsPart, LeavesKept};
ghost use Rattle.gr_broker_relay.specs.Held.{held_view, shown_net, IsSite};
ghost use Rattle.gr_broker_relay.specs.Handed.{got_by, got_in_time, got_late, told_to, lines_to};
ghost use Rattle.gr_broker_relay.specs.Told.{Tells, Adds, AddsFrames, IsBlank};
ghost use Rattle.gr_broker_relay.specs.Changes.{AreChanges, HasRoom, AreTaken, reached, learned, sent_to};

use crate::held::Held;
use crate::outcome::{Memory, Outcome};
use crate::sending::send_down;
use crate::site::Site;
use gr_broker_walks::{is_acknowledged, is_untouched, quenched, unacknowledged};
use gr_curio::{Asks, Q3, Wants};
use gr_edge::Edge;
use gr_event::{Event, Joins};
use gr_filter::{Filter, Kleene, truth};
use gr_know::{K, Know};
use gr_model::{Report, Reports};
use gr_outbox::Outbox;
use gr_subend::{Delivery, Subend};
use gr_tick::{MAX_TICK, Piece, Run};
use std::alloc::{AllocError, Global};

/// What learning a piece changes besides what is known.
#[derive(Drop)]
pub struct Changes {
    /// Where the horizon moves to.
    pub to: u64,
    /// For each child what it asked and is now sent.
    pub quenched: Vec<Piece<Q3>>,
    /// The ticks that are consolidated only now.
    pub completed: Piece<Q3>,
}

/// What learning a piece tells and sends, put at the end of an outcome, and what it changes. Nothing has changed yet.
/// At want of memory the outcome may have some of it.
pub fn plan_learning(
    site: &Site<'_>,
    held: &Held,
    piece: &Piece<K>,
    into: &mut Outcome,
) -> Result<Changes, Memory>
    requires site { IsSite site.now }
    requires kept { IsKept (net_of site.now.topo.now) site.now.publisher site.now.broker (held_view held.now) }
    ensures adds { OnOk result ((log : Log) →
        let net : Net = shown_net site.now.topo.now held.now in
        let o : MachineOutcome = learn net site.now.publisher site.now.broker piece.now (held_view held.now) log in
        Adds o.lines o.frames into.old into.new) }
    ensures changes { let net : Net = shown_net site.now.topo.now held.now in IfOk result (λ changes.
        AreChanges net site.now.publisher site.now.broker (held_view held.now) piece.now changes) }
{
    let to = horizon_with(site, held, piece);
    deliver(site, held, piece, to, &mut into.reports)?;
    let quenched = forward_news(site, held, piece, &mut into.frames)?;
    let completed = completed_by(site.alloc, held, to)?;
    Ok(Changes {
        to,
        quenched,
        completed,
    })
}

/// Where the horizon is once a piece is joined; one that is not kept stays.
fn horizon_with(site: &Site<'_>, held: &Held, piece: &Piece<K>) -> u64
    requires { IsSite site.now }
    ensures reached { result
        ≡ reached (net_of site.now.topo.now) site.now.publisher site.now.broker (held_view held.now) piece.now }
    ensures forward { held.now.horizon ≤ result }
    ensures inside { result ≤ MAX_TICK }
{
    // Proof only: the runs of both are canonical.
    let _ = held.know.len();
    let _ = piece.len();
    let horizon = held.horizon.horizon();
    if !site.position.keeps {
        return horizon;
    }
    held.know.horizon_with(piece, horizon)
}

/// Reports to each local subscriber the events that the advancing horizon passes.
fn deliver(
    site: &Site<'_>,
    held: &Held,
    piece: &Piece<K>,
    to: u64,
    reports: &mut Reports,
) -> Result<(), Memory>
    requires site { IsSite site.now }
    requires to { to
        ≡ reached (net_of site.now.topo.now) site.now.publisher site.now.broker (held_view held.now) piece.now }
    requires later { held.now.horizon ≤ to }
    requires inside { to ≤ MAX_TICK }
    ensures { OnOk result (reports.new ≡ reports.old
        ++ lines_to (shown_net site.now.topo.now held.now) site.now.publisher site.now.broker held.now.horizon to
        (learned held.now.know.runs piece.now)) }
{
    // Proof only: the runs of both are canonical.
    let _ = held.know.len();
    let _ = piece.len();
    if to == held.horizon.horizon() {
        return Ok(());
    }
    let deliveries = held.horizon.coming_upto(site.alloc, &held.know, piece, to)?;
    hand_over(site, held, deliveries.as_slice(), to, reports)
}

/// Tells each subscriber here the events that it wants, and the horizon.
fn hand_over(
    site: &Site<'_>,
    held: &Held,
    deliveries: &[Delivery],
    to: u64,
    reports: &mut Reports,
) -> Result<(), Memory>
    requires { IsSite site.now }
    ensures { let net : Net = shown_net site.now.topo.now held.now in OnOk result (reports.new ≡ reports.old
        ++ flat_map (told_to net site.now.publisher to (items deliveries.now)) site.now.here.now) }
{
    'here: for subscriber in site.here {
        hand_to(site, held, *subscriber, deliveries, to, reports)?;
    }
    Ok(())
}

/// Tells one subscriber the events that it wants, and the horizon.
fn hand_to(
    site: &Site<'_>,
    held: &Held,
    subscriber: u16,
    deliveries: &[Delivery],
    to: u64,
    reports: &mut Reports,
) -> Result<(), Memory>
    requires { subscriber < length site.now.topo.now.subscribers }
    ensures { let net : Net = shown_net site.now.topo.now held.now in OnOk result (reports.new
        ≡ reports.old ++ told_to net site.now.publisher to (items deliveries.now) subscriber) }
{
    hand_wanted(site, &held.joins, subscriber, deliveries, reports)?;
    reports.push(Report::Horizon {
        subscriber,
        publisher: site.publisher,
        tick: to,
    })
}

/// Tells one subscriber the events that it wants: one in time those that its filter passes, a late one those of them
/// that are past its join.
fn hand_wanted(
    site: &Site<'_>,
    joins: &Joins,
    subscriber: u16,
    deliveries: &[Delivery],
    reports: &mut Reports,
) -> Result<(), Memory>
    requires { subscriber < length site.now.topo.now.subscribers }
    ensures { OnOk result (reports.new ≡ reports.old
        ++ got_by site.now.topo.now joins.now site.now.publisher (items deliveries.now) subscriber) }
{
    if site.topo.late(subscriber) {
        return hand_late(site, joins, subscriber, deliveries, reports);
    }
    hand_in_time(site, subscriber, deliveries, reports)
}

/// Tells a subscriber in time the events that its filter passes.
fn hand_in_time(
    site: &Site<'_>,
    subscriber: u16,
    deliveries: &[Delivery],
    reports: &mut Reports,
) -> Result<(), Memory>
    requires { subscriber < length site.now.topo.now.subscribers }
    ensures { OnOk result (reports.new
        ≡ reports.old ++ got_in_time site.now.topo.now site.now.publisher (items deliveries.now) subscriber) }
{
    let filter = site.topo.filter(subscriber);
    'deliveries: for delivery in deliveries {
        if passes(filter, &delivery.event) {
            reports.push(got(site, subscriber, delivery))?;
        }
    }
    Ok(())
}

/// Tells a late subscriber the events past its join that its filter passes. One that has not joined is told of none.
fn hand_late(
    site: &Site<'_>,
    joins: &Joins,
    subscriber: u16,
    deliveries: &[Delivery],
    reports: &mut Reports,
) -> Result<(), Memory>
    requires { subscriber < length site.now.topo.now.subscribers }
    ensures { OnOk result (reports.new ≡ reports.old
        ++ got_late site.now.topo.now joins.now site.now.publisher (items deliveries.now) subscriber) }
{
    // Proof only: no subscriber joins twice.
    let _ = joins.len();
    let Some(join) = joins.tick_of(subscriber) else {
        return Ok(());
    };
    let filter = site.topo.filter(subscriber);
    'deliveries: for delivery in deliveries {
        if join < delivery.tick && passes(filter, &delivery.event) {
            reports.push(got(site, subscriber, delivery))?;
        }
    }
    Ok(())
}

/// The line of an event that a subscriber gets.
fn got(site: &Site<'_>, subscriber: u16, delivery: &Delivery) -> Report
    ensures { result ≡ got_line subscriber site.now.publisher (delivery.now.tick, delivery.now.event) }
{
    Report::Got {
        subscriber,
        publisher: site.publisher,
        tick: delivery.tick,
        event: delivery.event.share(),
    }
}

/// Whether a filter passes an event; where there is none every event passes.
fn passes(filter: Option<&Filter>, event: &Event) -> bool
    ensures { result ≡ passes_filter (option_map (λ f. tree_of f.now) filter.entry) event.now }
{
    match filter {
        None => true,
        Some(filter) => truth(filter, event) == Kleene::True,
    }
}

/// Sends each child what is new of a piece, as far as it passes the edge to it and was not acknowledged, and gives for
/// each child the ticks that it asked and is sent. Without children nothing is searched, and a piece that is new as a
/// whole is not copied.
fn forward_news(
    site: &Site<'_>,
    held: &Held,
    piece: &Piece<K>,
    into: &mut Outbox,
) -> Result<Vec<Piece<Q3>>, Memory>
    requires site { IsSite site.now }
    requires wants { length held.now.wants ≡ length site.now.position.now.children.items }
    ensures adds { let net : Net = shown_net site.now.topo.now held.now in
        OnOk result (AddsFrames (forward_frames held.now.joins net site.now.publisher site.now.broker
        (new_ticks held.now.know.runs piece.now) (net.children site.now.publisher site.now.broker)
        (runs_of held.now.wants)) into.old into.new) }
    ensures each { let net : Net = shown_net site.now.topo.now held.now in
        IfOk result (λ quenched. (i : ℕ) → i < length (runs_of held.now.wants) →
        RunsGive N (slice_index_or quenched.items i []) (λ t. if not (is_Q (known_at
        (sent_to net site.now.publisher site.now.broker (held_view held.now) piece.now i) t))
        && is_C (wanted_at (wants_of (runs_of held.now.wants) i) t) then C else N)) }
{
    if site.position.children.is_empty() {
        return Ok(Vec::new(site.alloc));
    }
    // Proof only: the runs of both are canonical.
    let _ = held.know.len();
    let _ = piece.len();
    if is_past(&held.know, piece) {
        return forward(site, held, piece, into);
    }
    let fresh = held.know.news(piece)?;
    forward(site, held, &fresh, into)
}

/// Whether a piece begins past all that is known: then all of it is new.
fn is_past(know: &Know, piece: &Piece<K>) -> bool
    ensures { IsTrue result → (t : ℕ) → known_at piece.now t
        ≡ new_K (known_at know.now.runs t) (known_at piece.now t) }
{
    // Proof only: the runs are canonical.
    let _ = piece.len();
    if piece.is_empty() {
        return false;
    }
    know.top() < piece.run(0).first
}

/// Sends each child the new ticks that it has not acknowledged, as far as they pass the edge to it, and gives for each
/// child the ticks that it asked and is sent.
fn forward(
    site: &Site<'_>,
    held: &Held,
    fresh: &Piece<K>,
    into: &mut Outbox,
) -> Result<Vec<Piece<Q3>>, Memory>
    requires site { IsSite site.now }
    requires wants { length held.now.wants ≡ length site.now.position.now.children.items }
    ensures adds { let net : Net = shown_net site.now.topo.now held.now in
        OnOk result (AddsFrames (forward_frames held.now.joins net site.now.publisher site.now.broker fresh.now
        (net.children site.now.publisher site.now.broker) (runs_of held.now.wants)) into.old into.new) }
    ensures each { let net : Net = shown_net site.now.topo.now held.now in
        IfOk result (λ quenched. (i : ℕ) → i < length held.now.wants →
        RunsGive N (slice_index_or quenched.items i []) (λ t. if not (is_Q (known_at (forward net site.now.publisher
        (get_or (net.children site.now.publisher site.now.broker) i 0) (wants_of (runs_of held.now.wants) i) fresh.now)
        t)) && is_C (wanted_at (wants_of (runs_of held.now.wants) i) t) then C else N)) }
{
    let mut all = Vec::new(site.alloc);
    for i in 0..site.position.children.len() {
        let quenched = forward_to(site, held, i, fresh, into)?;
        put_at(site.alloc, &mut all, i, quenched)?;
    }
    Ok(all)
}

/// Puts the piece of the child at place `i` behind those of the children before it, some of which may have none. An
/// empty one is left out: a child past the list has an empty piece.
fn put_at(
    alloc: Global,
    pieces: &mut Vec<Piece<Q3>>,
    i: usize,
    piece: Piece<Q3>,
) -> Result<(), Memory>
    requires { length pieces.old.items ≤ i }
    ensures many { OnOk result (length pieces.new.items ≤ i + 1) }
    ensures each { OnOk result ((k : ℕ) → slice_index_or pieces.new.items k []
        ≡ (if k == i then piece else slice_index_or pieces.old.items k [])) }
{
    if piece.is_empty() {
        drop(piece);
        return Ok(());
    }
    'blanks: while pieces.len() < i {
        match pieces.push(Piece::new(alloc)) {
            Ok(()) => {}
            Err(_) => return Err(AllocError),
        }
    }
    pieces.push(piece)?;
    Ok(())
}

/// Sends one child the new ticks that it has not acknowledged, as far as they pass the edge to it, and gives the ticks
/// that it asked and is sent. Where it neither asked nor acknowledged any of them, they are sent as they are.
fn forward_to(
    site: &Site<'_>,
    held: &Held,
    i: usize,
    fresh: &Piece<K>,
    into: &mut Outbox,
) -> Result<Piece<Q3>, Memory>
    requires site { IsSite site.now }
    requires child { i < length site.now.position.now.children.items }
    requires wants { i < length held.now.wants }
    ensures adds { let net : Net = shown_net site.now.topo.now held.now in
        let c : ℕ = get_or (net.children site.now.publisher site.now.broker) i 0 in
        OnOk result (AddsFrames (know_frames held.now.joins site.now.broker c site.now.publisher
        (forward net site.now.publisher c (wants_of (runs_of held.now.wants) i) fresh.now)) into.old into.new) }
    ensures quenched { let net : Net = shown_net site.now.topo.now held.now in
        let c : ℕ = get_or (net.children site.now.publisher site.now.broker) i 0 in
        IfOk result (λ quenched. RunsGive N quenched (λ t.
        if not (is_Q (known_at (forward net site.now.publisher c (wants_of (runs_of held.now.wants) i) fresh.now) t))
        && is_C (wanted_at (wants_of (runs_of held.now.wants) i) t) then C else N)) }
{
    // Proof only: the runs are canonical.
    let _ = fresh.len();
    let _ = held.wants.len(i);
    let child = site.position.children[i];
    let passed = pass_edge(site.edges, child.edge, fresh, &held.joins)?;
    if is_untouched(&passed, &held.wants, i) {
        send_down(site, &held.joins, child.number, passed, into)?;
        return Ok(Piece::new(site.alloc));
    }
    let sent = unacknowledged(site.alloc, &passed, &held.wants, i)?;
    let answered = quenched(site.alloc, &sent, &held.wants, i)?;
    send_down(site, &held.joins, child.number, sent, into)?;
    Ok(answered)
}

/// What an edge passes of a piece, where these are the joins.
fn pass_edge(edges: &[Edge], i: usize, piece: &Piece<K>, joins: &Joins) -> Result<Piece<K>, Memory>
    requires { i < length edges.now }
    ensures { IfOk result (λ passed. RunsGive Q passed
        (λ t. pass (slice_index_or edges.now i []) joins.now t (known_at piece.now t))) }
{
    let edge = &edges[i];
    edge.pass(piece, joins)
}

/// The ticks that a horizon passes and all children have acknowledged, with `A`: all that it passes where there is no
/// child.
fn completed_by(alloc: Global, held: &Held, to: u64) -> Result<Piece<Q3>, Memory>
    requires forward { held.now.horizon ≤ to }
    requires inside { to ≤ MAX_TICK }
    ensures { IfOk result (λ completed. RunsGive N completed (λ t.
        if nat_lt held.now.horizon t && nat_le t to && all_A (runs_of held.now.wants) t then A else N)) }
{
    let passed = passed_ticks(alloc, held.horizon.horizon(), to)?;
    if held.wants.children() == 0 {
        // Proof only: the runs are canonical.
        let _ = passed.len();
        return Ok(passed);
    }
    held.wants.completed(None, &passed, to)
}

/// The ticks past one tick and up to another, with `A`.
fn passed_ticks(alloc: Global, from: u64, to: u64) -> Result<Piece<Q3>, Memory>
    requires forward { from ≤ to }
    requires inside { to ≤ MAX_TICK }
    ensures { IfOk result (λ passed. (t : ℕ) → wanted_at passed t ≡ (if nat_lt from t && nat_le t to then A else N)) }
{
    let mut passed = Piece::new(alloc);
    if from == to {
        return Ok(passed);
    }
    passed.push(Run {
        first: from + 1,
        last: to,
        value: Q3::A,
    })?;
    Ok(passed)
}

/// Takes the room for what learning a piece changes. What is kept stays as it was, also at want of memory.
pub fn reserve_learning(
    site: &Site<'_>,
    held: &mut Held,
    piece: &Piece<K>,
    changes: &Changes,
) -> Result<(), Memory>
    ensures view { held_view held.new ≡ held_view held.old }
    ensures log { held.new.log ≡ held.old.log }
    ensures room { OnOk result (HasRoom (not site.now.position.now.host) held.new piece.now changes.now) }
{
    let Some(joined) = held.know.room_for(piece) else {
        return Err(AllocError);
    };
    let Some(finished) = changes.completed.len().checked_mul(2) else {
        return Err(AllocError);
    };
    let Some(room) = joined.checked_add(finished) else {
        return Err(AllocError);
    };
    held.know.reserve(room)?;
    reserve_wants(&mut held.wants, &changes.quenched)?;
    if site.position.host {
        return Ok(());
    }
    let Some(dropped) = piece.len().checked_add(changes.completed.len()) else {
        return Err(AllocError);
    };
    held.asks.reserve(dropped)
}

/// Takes the room to take a piece out of what each child wants.
fn reserve_wants(wants: &mut Wants, pieces: &[Piece<Q3>]) -> Result<(), Memory>
    ensures runs { runs_of wants.new ≡ runs_of wants.old }
    ensures spare { OnOk result ((i : ℕ) → i < length wants.old →
        length (slice_index_or pieces.now i []) ≤ spare_of wants.new i) }
{
    for i in 0..wants.children().min(pieces.len()) {
        wants.reserve(i, pieces[i].len())?;
    }
    Ok(())
}

/// Learns a piece as it was planned, where the room for it is there. Below the host the piece may not clash with what
/// is known. It takes no memory.
pub fn apply_learning(site: &Site<'_>, held: &mut Held, piece: &Piece<K>, changes: &Changes)
    requires site { IsSite site.now }
    requires kept { IsKept (net_of site.now.topo.now) site.now.publisher site.now.broker (held_view held.old) }
    requires changes { let net : Net = shown_net site.now.topo.now held.old in
        AreChanges net site.now.publisher site.now.broker (held_view held.old) piece.now changes.now }
    requires room { HasRoom (not site.now.position.now.host) held.old piece.now changes.now }
    requires goes { (is_host (net_of site.now.topo.now) site.now.publisher site.now.broker ≡ true)
        ⊎ ((t : ℕ) → clash_K (known_at held.old.know.runs t) (known_at piece.now t) ≡ false) }
    ensures view { (log : Log) → let net : Net = shown_net site.now.topo.now held.old in
        let o : MachineOutcome = learn net site.now.publisher site.now.broker piece.now (held_view held.old) log in
        held_view held.new ≡ o.view }
    ensures part { LeavesKept site.now held.old held.new }
{
    // Proof only: the runs are canonical.
    let _ = held.know.len();
    let _ = piece.len();
    let _ = held.asks.len();
    take_in(&mut held.know, piece, &changes.completed);
    held.horizon.move_to(changes.to);
    quench(&mut held.wants, &changes.quenched);
    if site.position.host {
        return;
    }
    drop_final(&mut held.asks, piece);
    drop_each(&mut held.asks, &changes.completed);
    forget_below(site, &mut held.know, held.horizon.horizon());
}

/// Joins a piece to what is known, and makes final each tick that is acknowledged. Where these are all ticks of the
/// piece, it is not joined first.
fn take_in(know: &mut Know, piece: &Piece<K>, done: &Piece<Q3>)
    requires { needed know.old.runs piece.now + 2 * length done.now ≤ know.old.spare }
    ensures { RunsGive Q know.new.runs (λ t. if is_A (wanted_at done.now t) then F
        else join_K (known_at know.old.runs t) (known_at piece.now t)) }
{
    if is_whole(piece, done) {
        finish_each(know, done);
        return;
    }
    know.join(piece);
    finish_each(know, done);
}

/// Whether a piece is not empty and lies within one run of acknowledged ticks.
fn is_whole(piece: &Piece<K>, done: &Piece<Q3>) -> bool
    ensures { result ≡ true → (t : ℕ) → is_A (wanted_at done.now t) ≡ false → known_at piece.now t ≡ Q }
{
    let count = piece.len();
    if count == 0 || done.len() != 1 {
        return false;
    }
    let run = done.run(0);
    let first = piece.run(0);
    let last = piece.run(count - 1);
    if !is_acknowledged(run.value) {
        return false;
    }
    run.first <= first.first && last.last <= run.last
}

/// Takes a piece out of what each child wants. It takes no memory.
fn quench(wants: &mut Wants, pieces: &[Piece<Q3>])
    requires { (i : ℕ) → i < length wants.old → length (slice_index_or pieces.now i []) ≤ spare_of wants.old i }
    ensures { AreTaken (runs_of wants.old) pieces.now (runs_of wants.new) }
{
    for i in 0..wants.children() {
        take_at(wants, pieces, i);
    }
}

/// Takes what the child at place `i` asked and is now sent out of what it wants. A child past the list has an empty
/// piece.
fn take_at(wants: &mut Wants, pieces: &[Piece<Q3>], i: usize)
    requires child { i < length wants.old }
    requires room { length (slice_index_or pieces.now i []) ≤ spare_of wants.old i }
    ensures canonical { AreRuns N (wants_of (runs_of wants.old) i) }
    ensures taken { RunsGive N (wants_of (runs_of wants.new) i)
        (λ t. if is_told (slice_index_or pieces.now i []) t then N else wanted_at (wants_of (runs_of wants.old) i) t) }
    ensures others { runs_of wants.new ≡ set (runs_of wants.old) i (wants_of (runs_of wants.new) i) }
    ensures other_spares { (k : ℕ) → k ≢ i → spare_of wants.new k ≡ spare_of wants.old k }
{
    // Proof only: the runs are canonical.
    let _ = wants.len(i);
    if pieces.len() <= i {
        return;
    }
    wants.take_out(i, &pieces[i]);
}

/// Makes final each tick that a piece acknowledges. It takes no memory.
pub(crate) fn finish_each(know: &mut Know, done: &Piece<Q3>)
    requires { 2 * length done.now ≤ know.old.spare }
    ensures finished { RunsGive Q know.new.runs
        (λ t. if is_A (wanted_at done.now t) then F else known_at know.old.runs t) }
    ensures spare { know.old.spare ≤ know.new.spare + 2 * length done.now }
{
    for i in 0..done.len() {
        finish_run(know, done.run(i));
    }
    // Proof only: the runs are canonical.
    let _ = know.len();
}

/// Makes final each tick of a run that is acknowledged.
fn finish_run(know: &mut Know, run: &Run<Q3>)
    requires alone { IsRun N run.now }
    requires room { 2 ≤ know.old.spare }
    ensures values { (t : ℕ) → known_at know.new.runs t
        ≡ (if is_in t run.now && is_A run.now.value then F else known_at know.old.runs t) }
    ensures spare { know.old.spare ≤ know.new.spare + 2 }
{
    if is_acknowledged(run.value) {
        know.finish_ready(run.first, run.last);
    }
}

/// Whether a value is that of a final tick.
fn is_final(value: &K) -> bool
    ensures { result ≡ is_F value.now }
{
    matches!(value, K::F)
}

/// Keeps no moment of the ticks that a piece acknowledges. It takes no memory.
pub(crate) fn drop_each(asks: &mut Asks, done: &Piece<Q3>)
    requires { length done.now ≤ asks.old.spare }
    ensures dropped { RunsGive Never asks.new.runs
        (λ t. if is_A (wanted_at done.now t) then Never else asked_at asks.old.runs t) }
    ensures spare { asks.old.spare ≤ asks.new.spare + length done.now }
{
    for i in 0..done.len() {
        let run = done.run(i);
        drop_run(asks, is_acknowledged(run.value), run.first, run.last);
    }
    // Proof only: the runs are canonical.
    let _ = asks.len();
}

/// Keeps no moment of the ticks that a piece makes final. It takes no memory.
fn drop_final(asks: &mut Asks, piece: &Piece<K>)
    requires { length piece.now ≤ asks.old.spare }
    ensures dropped { RunsGive Never asks.new.runs
        (λ t. if is_F (known_at piece.now t) then Never else asked_at asks.old.runs t) }
    ensures spare { asks.old.spare ≤ asks.new.spare + length piece.now }
{
    for i in 0..piece.len() {
        let run = piece.run(i);
        drop_run(asks, is_final(&run.value), run.first, run.last);
    }
    // Proof only: the runs are canonical.
    let _ = asks.len();
}

/// Keeps no moment of the ticks of a range, if the test says so.
fn drop_run(asks: &mut Asks, drops: bool, first: u64, last: u64)
    requires from_one { 1 ≤ first }
    requires ordered { first ≤ last }
    requires upto { last ≤ MAX_TICK }
    requires room { 1 ≤ asks.old.spare }
    ensures values { (t : ℕ) → asked_at asks.new.runs t
        ≡ (if within first last t && drops then Never else asked_at asks.old.runs t) }
    ensures spare { asks.old.spare ≤ asks.new.spare + 1 }
{
    if !drops {
        return;
    }
    match asks.forget(first, last) {
        Ok(()) => {}
        Err(_) => unreachable!(),
    }
}

/// Forgets events, as a broker below the host does: none past a horizon that is kept. It takes no memory.
pub(crate) fn forget_below(site: &Site<'_>, know: &mut Know, horizon: u64)
    requires { IsSite site.now }
    ensures forgotten { let net : Net = net_of site.now.topo.now in
        let upto : ℕ = if keeps_horizon net site.now.publisher site.now.broker then horizon else max_tick in
        know.new.runs ≡ forgotten net.cache upto know.old.runs }
    ensures keeps_final { (t : ℕ) → is_F (known_at know.new.runs t) ≡ is_F (known_at know.old.runs t) }
    ensures canonical { AreRuns Q know.new.runs }
    ensures in_range { EndBefore know.new.runs (MAX_TICK + 1) }
{
    let upto = if site.position.keeps {
        horizon
    } else {
        MAX_TICK
    };
    match know.forget(site.topo.settings().cache, upto) {
        Ok(()) => {}
        Err(_) => unreachable!(),
    }
}

/// Learns a piece that does not clash with what is known. What that tells and sends is put into an outcome that told
/// nothing before. At want of memory all else is as it was.
pub fn learn(
    site: &Site<'_>,
    held: &mut Held,
    piece: &Piece<K>,
    into: &mut Outcome,
) -> Result<(), Memory>
    requires site { IsSite site.now }
    requires kept { IsKept (net_of site.now.topo.now) site.now.publisher site.now.broker (held_view held.old) }
    requires goes { (is_host (net_of site.now.topo.now) site.now.publisher site.now.broker ≡ true)
        ⊎ ((t : ℕ) → clash_K (known_at held.old.know.runs t) (known_at piece.now t) ≡ false) }
    requires blank { IsBlank into.old }
    ensures told { let net : Net = shown_net site.now.topo.now held.old in OnOk result ((log : Log) →
        Tells (learn net site.now.publisher site.now.broker piece.now (held_view held.old) log) into.new) }
    ensures view { let net : Net = shown_net site.now.topo.now held.old in OnOk result ((log : Log) →
        let o : MachineOutcome = learn net site.now.publisher site.now.broker piece.now (held_view held.old) log in
        held_view held.new ≡ o.view) }
    ensures part { KeepsPart site.now held.old held.new result }
{
    let changes = plan_learning(site, held, piece, into)?;
    reserve_learning(site, held, piece, &changes)?;
    apply_learning(site, held, piece, &changes);
    Ok(())
}
