//! Curiosity comes from a child: it is answered from what is known, kept, and asked upstream where it is unknown.

ghost use Rattle.std.specs.Prelude.{◌≡◌, ℕ, ◌+◌, ◌<◌, ◌≤◌, true, false, not, [], ◌++◌, length, get_or};
ghost use Rattle.std.specs.Prelude.{IfOk, OnOk};
ghost use Rattle.gr_tick.specs.Stored.{RunsGive, needed};
ghost use Rattle.gr_curio.specs.Due.{due_of};
ghost use Rattle.gr_curio.specs.Values.{wanted_at, asked_at};
ghost use Rattle.gr_curio.specs.Wants.{runs_of, wants_of, spare_of};
ghost use Rattle.gr_curio.specs.declared.values.Q3.TheVariants.{N};
ghost use Rattle.gr_pubend.specs.Log.{Log};
ghost use Rattle.gr_topo.specs.Topology.{TopologyView, children_of};
ghost use Rattle.gr_model.specs.Net.{Net, is_host};
ghost use Rattle.gr_model.specs.NetOf.{net_of};
ghost use Rattle.gr_model.specs.Broker.{Outcome as MachineOutcome, curiosity, know_frames, up_frames};
ghost use Rattle.gr_broker_relay.specs.Branch.{wantings_below};
ghost use Rattle.gr_broker_relay.specs.Kept.{IsKept};
ghost use Rattle.gr_broker_relay.specs.Keeps.{IsChild, KeepsPart, LeavesKept};
ghost use Rattle.gr_broker_relay.specs.Held.{held_view, shown_net, IsSite};
ghost use Rattle.gr_broker_relay.specs.Told.{Tells, AddsFrames, IsBlank};
ghost use Rattle.gr_broker_relay.specs.Answers.{reply_to, last_completed, AreAnswers, HasAnswerRoom};

use crate::held::Held;
use crate::learning::{drop_each, finish_each, forget_below};
use crate::outcome::{Memory, Outcome};
use crate::sending::{send_down, send_up};
use crate::site::Site;
use gr_broker_walks::{left_of, quenched, said_of};
use gr_curio::{Q3, Wants};
use gr_edge::Edge;
use gr_know::K;
use gr_outbox::Outbox;
use gr_tick::{MAX_TICK, Piece};
use std::alloc::AllocError;

/// What a child's curiosity changes.
#[derive(Drop)]
pub(crate) struct Answers {
    /// What the child acknowledges, and what it asks and is not told.
    pub left: Piece<Q3>,
    /// What it asked before and is told now.
    pub answered: Piece<Q3>,
    /// The ticks that are consolidated only now.
    pub completed: Piece<Q3>,
    /// What is asked upstream.
    pub asked: Piece<Q3>,
}

/// Takes the curiosity of the child at place `i`, at the moment `now` in milliseconds. What that sends is put into an
/// outcome that told nothing before. At want of memory all else is as it was.
pub fn take_curiosity(
    site: &Site<'_>,
    held: &mut Held,
    i: usize,
    piece: &Piece<Q3>,
    now: u64,
    into: &mut Outcome,
) -> Result<(), Memory>
    requires site { IsSite site.now }
    requires child { IsChild site.now i }
    requires kept { IsKept (net_of site.now.topo.now) site.now.publisher site.now.broker (held_view held.old) }
    requires blank { IsBlank into.old }
    ensures told { let net : Net = shown_net site.now.topo.now held.old in OnOk result ((log : Log) →
        Tells (curiosity net site.now.publisher site.now.broker now
        (get_or (net.children site.now.publisher site.now.broker) i 0) i piece.now (held_view held.old) log) into.new) }
    ensures view { let net : Net = shown_net site.now.topo.now held.old in OnOk result ((log : Log) →
        let o : MachineOutcome = curiosity net site.now.publisher site.now.broker now
        (get_or (net.children site.now.publisher site.now.broker) i 0) i piece.now (held_view held.old) log in
        held_view held.new ≡ o.view) }
    ensures part { KeepsPart site.now held.old held.new result }
{
    let answers = plan_answers(site, held, i, piece, now, &mut into.frames)?;
    reserve_answers(site, held, i, &answers)?;
    apply_answers(site, held, i, piece, now, &answers);
    Ok(())
}

/// What the curiosity of the child at place `i` sends, put at the end of a list, and what it changes. Nothing has
/// changed yet.
fn plan_answers(
    site: &Site<'_>,
    held: &Held,
    i: usize,
    piece: &Piece<Q3>,
    now: u64,
    into: &mut Outbox,
) -> Result<Answers, Memory>
    requires site { IsSite site.now }
    requires child { IsChild site.now i }
    requires kept { IsKept (net_of site.now.topo.now) site.now.publisher site.now.broker (held_view held.now) }
    ensures adds { let net : Net = shown_net site.now.topo.now held.now in OnOk result ((log : Log) →
        let o : MachineOutcome = curiosity net site.now.publisher site.now.broker now
        (get_or (net.children site.now.publisher site.now.broker) i 0) i piece.now (held_view held.now) log in
        AddsFrames o.frames into.old into.new) }
    ensures answers { let net : Net = shown_net site.now.topo.now held.now in IfOk result (λ answers.
        AreAnswers net site.now.publisher site.now.broker now i piece.now (held_view held.now) answers) }
{
    // Proof only: the runs of all three are canonical.
    let _ = held.know.len();
    let _ = held.wants.len(i);
    let _ = piece.len();
    let reply = reply_of(site, held, i, piece)?;
    let left = left_of(site.alloc, piece, &reply)?;
    let answered = quenched(site.alloc, &reply, &held.wants, i)?;
    let completed = held
        .wants
        .completed(Some(i), &left, last_completed(site, held))?;
    let asked = asked_upstream(site, held, &left, now)?;
    send_answers(site, held, i, reply, &asked, into)?;
    Ok(Answers {
        left,
        answered,
        completed,
        asked,
    })
}

/// Puts the frames of a reply to the child at place `i`, and those of what is asked upstream, at the end of a list.
fn send_answers(
    site: &Site<'_>,
    held: &Held,
    i: usize,
    reply: Piece<K>,
    asked: &Piece<Q3>,
    into: &mut Outbox,
) -> Result<(), Memory>
    requires site { IsSite site.now }
    requires child { IsChild site.now i }
    ensures { let net : Net = net_of site.now.topo.now in
        let child : ℕ = get_or (net.children site.now.publisher site.now.broker) i 0 in
        OnOk result (AddsFrames (know_frames held.now.joins site.now.broker child site.now.publisher reply
        ++ up_frames net site.now.publisher site.now.broker asked.now) into.old into.new) }
{
    let child = site.position.children[i].number;
    send_down(site, &held.joins, child, reply, into)?;
    send_up(site, asked.copy()?, into)
}

/// What the child at place `i` is told: that a tick is final where it has acknowledged it, and else what passes the
/// edge to it.
fn reply_of(site: &Site<'_>, held: &Held, i: usize, piece: &Piece<Q3>) -> Result<Piece<K>, Memory>
    requires site { IsSite site.now }
    requires child { IsChild site.now i }
    requires wants { i < length held.now.wants }
    ensures { let net : Net = shown_net site.now.topo.now held.now in IfOk result (λ reply.
        reply ≡ reply_to net site.now.publisher site.now.broker i piece.now (held_view held.now)) }
{
    // Proof only: the runs of all three are canonical.
    let _ = held.know.len();
    let _ = held.wants.len(i);
    let _ = piece.len();
    let said = said_of(site.alloc, piece, &held.know, &held.wants, i)?;
    edge_to(site, i).pass(&said, &held.joins)
}

/// The edge to the child at place `i`.
fn edge_to<'a>(site: &Site<'a>, i: usize) -> &'a Edge
    requires site { IsSite site.now }
    requires child { IsChild site.now i }
    ensures { let t : TopologyView = site.now.topo.now in
        let child : ℕ = get_or (children_of t site.now.publisher site.now.broker) i 0 in
        result.now ≡ wantings_below t site.now.publisher child }
{
    &site.edges[site.position.children[i].edge]
}

/// The last tick that may be consolidated: the horizon, where one is kept.
fn last_completed(site: &Site<'_>, held: &Held) -> u64
    requires { IsSite site.now }
    ensures { result ≡ last_completed (net_of site.now.topo.now) site.now.publisher site.now.broker held.now.horizon }
{
    if site.position.keeps {
        held.horizon.horizon()
    } else {
        MAX_TICK
    }
}

/// What is asked upstream of what is left: what was not asked for the time of a retry. The host asks nobody.
fn asked_upstream(
    site: &Site<'_>,
    held: &Held,
    left: &Piece<Q3>,
    now: u64,
) -> Result<Piece<Q3>, Memory>
    requires { IsSite site.now }
    ensures host { is_host (net_of site.now.topo.now) site.now.publisher site.now.broker ≡ true
        → IfOk result (λ asked. asked ≡ []) }
    ensures below { let net : Net = net_of site.now.topo.now in is_host net site.now.publisher site.now.broker ≡ false
        → IfOk result (λ asked. RunsGive N asked
        (λ t. due_of (asked_at held.now.asks.runs t) (wanted_at left.now t) now net.retry)) }
{
    if site.position.host {
        return Ok(Piece::new(site.alloc));
    }
    held.asks.due(left, now, site.topo.settings().retry)
}

/// Takes the room for what a child's curiosity changes.
fn reserve_answers(
    site: &Site<'_>,
    held: &mut Held,
    i: usize,
    answers: &Answers,
) -> Result<(), Memory>
    requires { i < length held.old.wants }
    ensures view { held_view held.new ≡ held_view held.old }
    ensures log { held.new.log ≡ held.old.log }
    ensures room { OnOk result (HasAnswerRoom (not site.now.position.now.host) i held.new answers.now) }
{
    reserve_wants(&mut held.wants, i, answers)?;
    let Some(finished) = answers.completed.len().checked_mul(2) else {
        return Err(AllocError);
    };
    held.know.reserve(finished)?;
    if site.position.host {
        return Ok(());
    }
    let Some(noted) = answers.asked.len().checked_mul(2) else {
        return Err(AllocError);
    };
    let Some(moments) = noted.checked_add(answers.completed.len()) else {
        return Err(AllocError);
    };
    held.asks.reserve(moments)
}

/// Takes the room for what a child's curiosity changes of what it wants.
fn reserve_wants(wants: &mut Wants, i: usize, answers: &Answers) -> Result<(), Memory>
    requires { i < length wants.old }
    ensures runs { runs_of wants.new ≡ runs_of wants.old }
    ensures spare { OnOk result (needed (wants_of (runs_of wants.old) i) answers.now.left + length answers.now.answered
        ≤ spare_of wants.new i) }
{
    let Some(raised) = wants.room_for(i, &answers.left) else {
        return Err(AllocError);
    };
    let Some(room) = raised.checked_add(answers.answered.len()) else {
        return Err(AllocError);
    };
    wants.reserve(i, room)
}

/// Puts in place what a child's curiosity changes, where the room for it is there.
fn apply_answers(
    site: &Site<'_>,
    held: &mut Held,
    i: usize,
    piece: &Piece<Q3>,
    now: u64,
    answers: &Answers,
)
    requires site { IsSite site.now }
    requires child { IsChild site.now i }
    requires kept { IsKept (net_of site.now.topo.now) site.now.publisher site.now.broker (held_view held.old) }
    requires answers { let net : Net = shown_net site.now.topo.now held.old in
        AreAnswers net site.now.publisher site.now.broker now i piece.now (held_view held.old) answers.now }
    requires room { HasAnswerRoom (not site.now.position.now.host) i held.old answers.now }
    ensures view { let net : Net = shown_net site.now.topo.now held.old in (log : Log) →
        let o : MachineOutcome = curiosity net site.now.publisher site.now.broker now
        (get_or (net.children site.now.publisher site.now.broker) i 0) i piece.now (held_view held.old) log in
        held_view held.new ≡ o.view }
    ensures part { LeavesKept site.now held.old held.new }
{
    // Proof only: the runs of all are canonical.
    let _ = held.know.len();
    let _ = held.wants.len(i);
    let _ = held.asks.len();
    let _ = piece.len();
    held.wants.raise_ready(i, &answers.left);
    held.wants.take_out(i, &answers.answered);
    finish_each(&mut held.know, &answers.completed);
    if site.position.host {
        return;
    }
    held.asks.asked_ready(&answers.asked, now);
    drop_each(&mut held.asks, &answers.completed);
    forget_below(site, &mut held.know, held.horizon.horizon());
}
