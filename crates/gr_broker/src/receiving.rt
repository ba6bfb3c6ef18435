//! A datagram comes: it is decoded, then it must fit, then its joins must not split from those that are held, then it
//! must not clash with what is known.

ghost use Rattle.std.specs.Prelude.{◌≡◌, ◌≢◌, ℕ, ◌<◌, true, false, nat_eq, List, length, map, get_or, MatchOption};
ghost use Rattle.std.specs.Prelude.{None, Ok, is_some, IfOk, IfErr, OnOk, OnErr};
ghost use Rattle.std.specs.List.{list_any, list_all};
ghost use Rattle.gr_event.specs.Joins.{longer};
ghost use Rattle.gr_frame.specs.Decode.{frame_decoded};
ghost use Rattle.gr_frame.specs.Limits.{IsBody};
ghost use Rattle.gr_model.specs.NetOf.{net_of};
ghost use Rattle.gr_model.specs.Broker.{View, place_of};
ghost use Rattle.gr_model.specs.World.{blank_view};
ghost use Rattle.gr_model.specs.Net.{is_host, is_late, all_late};
ghost use Rattle.gr_model.specs.Arrivals.{fits_broker, joins_fit};
ghost use Rattle.gr_broker_relay.specs.Kept.{IsKept};
ghost use Rattle.gr_broker_relay.specs.Keeps.{KeepsPart};
ghost use Rattle.gr_broker_relay.specs.Held.{held_view, IsSeat, IsSite};
ghost use Rattle.gr_broker_relay.specs.Told.{IsBlank};
ghost use Rattle.gr_broker.specs.Seen.{logs_of, broker_at};
ghost use Rattle.gr_broker.specs.Of.{HoldJoins};
ghost use Rattle.gr_broker.specs.Receipt.{comes_over, receipt_of_piece, receipt_of_fit, view_after, receipt};
ghost use Rattle.gr_broker.specs.Receipt.{after_receipt, AnswersInto};

use crate::outcome::Dropped;
use gr_broker_relay::{
    Held, Memory, Outcome, Position, Seat, Site, learn, site_at, take_curiosity, take_expect,
};
use gr_event::{Join, Joins};
use gr_frame::{Body, Frame, FrameFault, FrameKind, decode};
use gr_know::K;
use gr_tick::Piece;
use gr_topo::Topology;
use std::alloc::{AllocError, Global};
use std::mem;

/// The place of the child with a number, or None where there is none.
fn child_at(position: &Position, number: u16) -> Option<usize>
    ensures { let numbers : List ℕ = map (λ c. c.number) position.now.children.items in
        MatchOption result (list_any (λ x. nat_eq x number) numbers ≡ false)
        (λ i. (i ≡ place_of number numbers) × (i < length numbers) × (list_any (λ x. nat_eq x number) numbers ≡ true)) }
{
    'children: for i in 0..position.children.len() {
        if position.children[i].number == number {
            return Some(i);
        }
    }
    None
}

/// Whether a frame comes over an edge: curiosity from a child, all else from the next broker towards the host.
pub(crate) fn comes_over(position: &Position, frame: &Frame) -> bool
    ensures { result ≡ comes_over position.now.up (map (λ c. c.number) position.now.children.items) frame.now }
{
    match &frame.body {
        Body::Curiosity(_) => child_at(position, frame.head.from).is_some(),
        Body::Knowledge { .. } | Body::Expect(_) => match position.up {
            Some(up) => up == frame.head.from,
            None => false,
        },
    }
}

/// Whether each join that a frame brings is of a late subscriber.
fn joins_fit(topo: &Topology, frame: &Frame) -> bool
    ensures { result ≡ joins_fit (net_of topo.now) frame.now }
{
    match &frame.body {
        Body::Knowledge { joins, .. } => are_late(topo, joins.as_slice()),
        Body::Curiosity(_) | Body::Expect(_) => true,
    }
}

/// Whether each of these joins is of a late subscriber.
fn are_late(topo: &Topology, joins: &[Join]) -> bool
    ensures { result ≡ list_all (λ j. is_late (net_of topo.now) j.subscriber) joins.now }
{
    let mut at = 0;
    'joins: while at < joins.len() {
        if !topo.late(joins[at].subscriber) {
            return false;
        }
        at += 1;
    }
    true
}

/// The longer of two lists of joins; of two that are as long the one that is held. Takes no memory.
fn longer(kept: &Joins, came: &Joins) -> Joins
    ensures { result ≡ longer kept.now came.now }
{
    if kept.len() < came.len() {
        came.share()
    } else {
        kept.share()
    }
}

/// Takes what is known of a frame whose joins do not split from those that are held, unless it clashes with what is
/// known: answers why it is dropped, or None where it is taken. Its joins are held, where they are more, before it is
/// learned. What that tells and sends is put into an outcome that told nothing before. At want of memory all else is as
/// it was, the held joins included.
fn take_knowledge(
    site: &Site<'_>,
    held: &mut Held,
    piece: &Piece<K>,
    joins: &Joins,
    into: &mut Outcome,
) -> Result<Option<Dropped>, Memory>
    requires site { IsSite site.now }
    requires late { all_late (net_of site.now.topo.now) joins.now ≡ true }
    requires kept { IsKept (net_of site.now.topo.now) site.now.publisher site.now.broker (held_view held.old) }
    requires blank { IsBlank into.old }
    ensures says { let v : View = held_view held.old in
        let r = receipt_of_piece (net_of site.now.topo.now) site.now.publisher site.now.broker v piece.now joins.now in
        IfOk result (λ dropped. AnswersInto into.new dropped r) }
    ensures view { let v : View = held_view held.old in
        let r = receipt_of_piece (net_of site.now.topo.now) site.now.publisher site.now.broker v piece.now joins.now in
        OnOk result (held_view held.new ≡ view_after r v) }
    ensures part { KeepsPart site.now held.old held.new result }
{
    // Proof only: the runs are canonical.
    let _ = held.know.len();
    let _ = piece.len();
    if let Some(clash) = held.know.clash(piece) {
        return Ok(Some(Dropped::Clash { clash }));
    }
    let more = longer(&held.joins, joins);
    let before = mem::replace(&mut held.joins, more);
    match learn(site, held, piece, into) {
        Ok(()) => {
            drop(before);
            Ok(None)
        }
        Err(refused) => {
            held.joins = before;
            Err(refused)
        }
    }
}

/// Takes a frame that fits, unless its joins split from those that are held, or it clashes with what is known: answers
/// why it is dropped, or None where it is taken. What it tells and sends is put into an outcome that told nothing
/// before. At want of memory all else is as it was.
pub(crate) fn take_frame(
    site: &Site<'_>,
    held: &mut Held,
    frame: &Frame,
    now: u64,
    into: &mut Outcome,
) -> Result<Option<Dropped>, Memory>
    requires site { IsSite site.now }
    requires to { frame.now.head.to ≡ site.now.broker }
    requires publisher { frame.now.head.publisher ≡ site.now.publisher }
    requires over { let place = site.now.position.now in
        comes_over place.up (map (λ c. c.number) place.children.items) frame.now ≡ true }
    requires late { joins_fit (net_of site.now.topo.now) frame.now ≡ true }
    requires body { IsBody frame.now.body }
    requires kept { IsKept (net_of site.now.topo.now) site.now.publisher site.now.broker (held_view held.old) }
    requires blank { IsBlank into.old }
    ensures says { let r = receipt_of_fit (net_of site.now.topo.now) now (held_view held.old) frame.now in
        IfOk result (λ dropped. AnswersInto into.new dropped r) }
    ensures view { let r = receipt_of_fit (net_of site.now.topo.now) now (held_view held.old) frame.now in
        OnOk result (held_view held.new ≡ view_after r (held_view held.old)) }
    ensures part { KeepsPart site.now held.old held.new result }
{
    match &frame.body {
        Body::Knowledge { piece, joins } => {
            if let Some(split) = held.joins.split_from(joins) {
                return Ok(Some(Dropped::Split {
                    at: split.at,
                    kept: split.kept,
                    came: split.came,
                }));
            }
            take_knowledge(site, held, piece, joins, into)
        }
        Body::Curiosity(piece) => {
            let Some(i) = child_at(site.position, frame.head.from) else {
                unreachable!()
            };
            match take_curiosity(site, held, i, piece, now, into) {
                Ok(()) => Ok(None),
                Err(refused) => Err(refused),
            }
        }
        Body::Expect(tick) => {
            // Proof only: the host of a topology has no next broker.
            let _ = site.topo.brokers();
            match take_expect(site, held, *tick, now, into) {
                Ok(()) => Ok(None),
                Err(refused) => Err(refused),
            }
        }
    }
}

/// Takes a datagram: answers why it is dropped, or None where it is taken. What a frame that is taken tells and sends
/// is put into an outcome that told nothing before. Every publisher's part stays as it was but for that of such a
/// frame.
pub(crate) fn receive(
    seat: &Seat<'_>,
    held: &mut Vec<Held>,
    bytes: &[u8],
    now: u64,
    into: &mut Outcome,
) -> Result<Option<Dropped>, Memory>
    requires seat { IsSeat seat.now }
    requires many { length held.old.items ≡ length seat.now.topo.now.publishers }
    requires kept { (p : ℕ) → p < length seat.now.topo.now.publishers
        → IsKept (net_of seat.now.topo.now) p seat.now.number (get_or (map held_view held.old.items) p blank_view) }
    requires hosted { (p : ℕ) → p < length seat.now.topo.now.publishers
        → is_some (get_or (logs_of held.old.items) p None) ≡ is_host (net_of seat.now.topo.now) p seat.now.number }
    requires joined { HoldJoins (map held_view held.old.items) (logs_of held.old.items) }
    requires blank { IsBlank into.old }
    ensures says { let b = broker_at seat.now held.old.items in
        IfOk result (λ dropped.
        AnswersInto into.new dropped (receipt (net_of seat.now.topo.now) now b (frame_decoded bytes.now))) }
    ensures after { let b = broker_at seat.now held.old.items in
        OnOk result (broker_at seat.now held.new.items
        ≡ after_receipt (frame_decoded bytes.now)
        (receipt (net_of seat.now.topo.now) now b (frame_decoded bytes.now)) b) }
    ensures err { OnErr result (map held_view held.new.items ≡ map held_view held.old.items) }
    ensures logs { map (λ h. h.log) held.new.items ≡ map (λ h. h.log) held.old.items }
    ensures kept { (p : ℕ) → p < length seat.now.topo.now.publishers
        → IsKept (net_of seat.now.topo.now) p seat.now.number (get_or (map held_view held.new.items) p blank_view) }
    ensures joined { HoldJoins (map held_view held.new.items) (logs_of held.new.items) }
{
    let frame = match read(seat.alloc, bytes)? {
        Ok(frame) => frame,
        Err(fault) => return Ok(Some(Dropped::NotFrame { fault })),
    };
    take_at(seat, held, &frame, now, into)
}

/// The frame that bytes spell, or why they spell none.
fn read(alloc: Global, bytes: &[u8]) -> Result<Result<Frame, FrameFault>, Memory>
    ensures read { IfOk result (λ read. read ≡ frame_decoded bytes.now) }
    ensures known { IfOk result (λ read. IfErr read (λ f. f.kind ≢ FrameKind.Memory)) }
    ensures body { IfOk result (λ read. IfOk read (λ frame. IsBody frame.body)) }
{
    match decode(alloc, bytes) {
        Ok(frame) => Ok(Ok(frame)),
        Err(fault) => match fault.kind {
            FrameKind::Memory => Err(AllocError),
            _ => Ok(Err(fault)),
        },
    }
}

/// The same of a frame.
fn take_at(
    seat: &Seat<'_>,
    held: &mut Vec<Held>,
    frame: &Frame,
    now: u64,
    into: &mut Outcome,
) -> Result<Option<Dropped>, Memory>
    requires seat { IsSeat seat.now }
    requires many { length held.old.items ≡ length seat.now.topo.now.publishers }
    requires kept { (p : ℕ) → p < length seat.now.topo.now.publishers
        → IsKept (net_of seat.now.topo.now) p seat.now.number (get_or (map held_view held.old.items) p blank_view) }
    requires hosted { (p : ℕ) → p < length seat.now.topo.now.publishers
        → is_some (get_or (logs_of held.old.items) p None) ≡ is_host (net_of seat.now.topo.now) p seat.now.number }
    requires joined { HoldJoins (map held_view held.old.items) (logs_of held.old.items) }
    requires body { IsBody frame.now.body }
    requires blank { IsBlank into.old }
    ensures says { let b = broker_at seat.now held.old.items in
        IfOk result (λ dropped.
        AnswersInto into.new dropped (receipt (net_of seat.now.topo.now) now b (Ok frame.now))) }
    ensures after { let b = broker_at seat.now held.old.items in
        OnOk result (broker_at seat.now held.new.items
        ≡ after_receipt (Ok frame.now) (receipt (net_of seat.now.topo.now) now b (Ok frame.now)) b) }
    ensures err { OnErr result (map held_view held.new.items ≡ map held_view held.old.items) }
    ensures logs { map (λ h. h.log) held.new.items ≡ map (λ h. h.log) held.old.items }
    ensures kept { (p : ℕ) → p < length seat.now.topo.now.publishers
        → IsKept (net_of seat.now.topo.now) p seat.now.number (get_or (map held_view held.new.items) p blank_view) }
    ensures joined { HoldJoins (map held_view held.new.items) (logs_of held.new.items) }
{
    // Proof only: the host of a topology has no next broker.
    let _ = seat.topo.brokers();
    if !fits(seat, frame) {
        return Ok(Some(Dropped::Stray { head: frame.head }));
    }
    let site = site_at(seat, frame.head.publisher);
    take_frame(
        &site,
        &mut held[frame.head.publisher as usize],
        frame,
        now,
        into,
    )
}

/// Whether a frame fits the broker: it is addressed to it, of a publisher that there is, comes over the right edge, and
/// each of its joins is of a late subscriber.
fn fits(seat: &Seat<'_>, frame: &Frame) -> bool
    requires { IsSeat seat.now }
    ensures { result ≡ fits_broker (net_of seat.now.topo.now) seat.now.number frame.now }
{
    if frame.head.to != seat.number || frame.head.publisher >= seat.topo.publishers() {
        return false;
    }
    comes_over(site_at(seat, frame.head.publisher).position, frame) && joins_fit(seat.topo, frame)
}
