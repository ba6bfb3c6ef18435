//! One broker of a topology.

ghost use Rattle.std.specs.Prelude.{◌≡◌, ◌≢◌, ◌↔◌, ◌⊎◌, ℕ, ◌<◌, ◌≤◌, true, length, Some, None};
ghost use Rattle.std.specs.Prelude.{Result, Err, IsSome, IfOk, OnOk, OnErr, IsErrOf};
ghost use Rattle.gr_frame.specs.Decode.{frame_decoded};
ghost use Rattle.gr_out.specs.Faults.{Rose};
ghost use Rattle.gr_out.specs.Stops.{StaysFaultless};
ghost use Rattle.gr_tick.specs.declared.TheConstants.{MAX_TICK};
ghost use Rattle.gr_topo.specs.Topology.{late_of};
ghost use Rattle.gr_publog.specs.Views.{lanes_at, AwayFrom};
ghost use Rattle.gr_publog.specs.Calls.{Tally, Leaves};
ghost use Rattle.gr_model.specs.Net.{is_host};
ghost use Rattle.gr_model.specs.NetOf.{net_of};
ghost use Rattle.gr_model.specs.Broker.{Outcome as MachineOutcome};
ghost use Rattle.gr_broker_relay.specs.Told.{Tells};
ghost use Rattle.gr_broker.specs.Lanes.{log_lane, either_stopped, AreUnset};
ghost use Rattle.gr_broker.specs.Seen.{view_in, log_in, machine_log, is_broken, broken_at, IsHosted};
ghost use Rattle.gr_broker.specs.Of.{IsBrokerOf, LogsStand};
ghost use Rattle.gr_broker.specs.Told.{log_answer};
ghost use Rattle.gr_broker.specs.Hosted.{publish_at, publish_logs_at, after_publish, join_at, join_logs_at, after_join};
ghost use Rattle.gr_broker.specs.Hosted.{wake_at, mark_logs_at, cut_at, after_mark, after_wake, AppendsAt, WakesAt};
ghost use Rattle.gr_broker.specs.Hosted.{WakeLeaves};
ghost use Rattle.gr_broker.specs.Receipt.{receipt, after_receipt, Answers};
ghost use Rattle.gr_broker.specs.Keeps.{UsesLaneOf};
ghost use Rattle.gr_broker.specs.Opened.{StartsOver, OpensLanes, LosesNothing, IsDamagedAt};

use crate::joining::join_in;
use crate::outcome::{BrokerFault, Received, Spare};
use crate::publishing::publish_in;
use crate::receiving::receive;
use crate::starting::{fault_at, open_publishers};
use crate::waking::wake;
use gr_broker_relay::{Held, Memory, Outcome, Position, Seat, positions_at};
use gr_edge::Edge;
use gr_event::{Event, Numbers};
use gr_frame::Frames;
use gr_model::Reports;
use gr_out::Disk;
use gr_outbox::Outbox;
use gr_publog::Log;
use gr_topo::Topology;
use std::alloc::{AllocError, Global};
use std::marker::Model;

/// A broker, seen as its number, the subscribers at it, where it stands in each publisher's tree, what it keeps of each
/// publisher, and the logs of the publishers that are here.
#[derive(Drop)]
pub struct Broker {
    alloc: Global,
    number: u16,
    here: Numbers,
    edges: Vec<Edge>,
    positions: Vec<Position>,
    held: Vec<Held>,
    spare: Spare,
}

impl Model for Broker {
    ghost use Rattle.std.specs.Prelude.{◌≡◌, map};
    ghost use Rattle.std.specs.List.{AllByRecursion};
    ghost use Rattle.std.specs.Coded.{codes};
    ghost use Rattle.gr_topo.specs.TreeCode.{tree_code};
    ghost use Rattle.gr_filter.specs.contracts.node.Operand as operand;
    ghost use Rattle.gr_filter.specs.contracts.node.Sign as sign;
    ghost use Rattle.gr_broker_relay.specs.Held.{held_view, seen_branch, HasEdges};
    ghost use Rattle.gr_broker.specs.Seen.{BrokerView};

    ghost Value = { BrokerView };

    ghost coded = { Prim.hlevel (codes, tree_code operand.the_row.coded sign.the_row.coded) };

    ghost view = { λ b. record {
      number = b.number;
      here = b.here;
      branches = map (seen_branch b.edges.items) b.positions.items;
      views = map held_view b.held.items;
      logs = map (λ h. h.log) b.held.items;
    } };

    ghost invariant = { λ b. AllByRecursion (HasEdges b.edges.items) b.positions.items };
}

/// A broker that has started, and what that tells.
#[derive(Drop)]
pub struct Started {
    /// The broker.
    pub broker: Broker,
    /// What its start tells; nothing is sent.
    pub outcome: Outcome,
}

impl Broker {
    /// Starts a broker: the logs of the publishers that are here are opened, publisher by publisher in order, publisher
    /// `p` on lanes `2 * p` and `2 * p + 1`. What is known is what the logs say; nothing is asked, and each horizon is
    /// 0. Where a publisher and a subscriber are both here, the horizon moves at once to what is settled, and the
    /// subscriber gets what its filter matches past the cut. Nothing is sent.
    ///
    /// `Damaged` names the first publisher that is here and whose lanes hold no log, and `Disk` comes only where the
    /// disk failed in this call. `Reopen` never comes. After a fault no lane has lost anything.
    pub fn start<D: Disk>(
        alloc: Global,
        topo: &Topology,
        number: u16,
        disk: &mut D,
    ) -> Result<Started, BrokerFault>
        requires { number < length topo.now.brokers }
        ensures starts { IfOk result (λ s. StartsOver topo.now number s.broker s.outcome) }
        ensures opens { D.tells → IfOk result (λ s.
            OpensLanes topo.now s.broker (D.lane_of disk.old) (D.lane_of disk.new)) }
        ensures damaged { D.tells → (p at : ℕ) → result ≡ Err (BrokerFault.Damaged p at)
            → IsDamagedAt topo.now number p at (D.lane_of disk.old) }
        ensures damaged_here { (p at : ℕ) → result ≡ Err (BrokerFault.Damaged p at)
            → (p < length topo.now.publishers) × (is_host (net_of topo.now) p number ≡ true) }
        ensures never_reopen { result ≢ Err BrokerFault.Reopen }
        ensures stands { D.tells → IfOk result (λ s. LogsStand (D.lane_of disk.new) s.broker) }
        // The lanes of publishers that are elsewhere stay as they are
        ensures others { D.tells → (n : ℕ)
            → ((p : ℕ) → p < length topo.now.publishers → is_host (net_of topo.now) p number ≡ true
            → AwayFrom (log_lane p) n)
            → D.lane_of disk.new n ≡ D.lane_of disk.old n }
        // At every moment a crash leaves of two lanes what it might have left before, or what reads as before
        ensures any_moment { D.tells → (p : ℕ) → p < length topo.now.publishers
            → is_host (net_of topo.now) p number ≡ true
            → LosesNothing topo.now.late (lanes_at (D.lane_of disk.old) (log_lane p))
            (lanes_at (D.lane_of disk.new) (log_lane p)) }
        ensures tally { let f = D.faults disk.old in let s = D.stops disk.old in
            Tally f s (D.faults disk.new) (D.stops disk.new) (log_answer result) }
        // The disk fails for a stop of a lane, or because the count of failures rose; on a faultless disk only a lane
        // that was stopped makes it fail
        ensures why { D.tells → IsErrOf result BrokerFault.Disk
            → ((p : ℕ) × (either_stopped (lanes_at (D.lane_of disk.new) (log_lane p)) ≡ true))
            ⊎ Rose (D.faults disk.old) (D.faults disk.new) }
        ensures by_stop { D.tells → D.faultless disk.old → IsErrOf result BrokerFault.Disk
            → (p : ℕ) × (either_stopped (lanes_at (D.lane_of disk.new) (log_lane p)) ≡ true) }
        // Where no stop was ordered on the lanes of the publishers that are here, the count of failures rose; nothing
        // makes a faultless disk fail then
        ensures rises { D.tells → ((p : ℕ) → p < length topo.now.publishers
            → is_host (net_of topo.now) p number ≡ true → AreUnset (lanes_at (D.lane_of disk.old) (log_lane p)))
            → IsErrOf result BrokerFault.Disk → Rose (D.faults disk.old) (D.faults disk.new) }
        ensures never_fails { D.tells → D.faultless disk.old
            → ((p : ℕ) → p < length topo.now.publishers → is_host (net_of topo.now) p number ≡ true
            → AreUnset (lanes_at (D.lane_of disk.old) (log_lane p)))
            → result ≢ Err BrokerFault.Disk }
        ensures faultless { let f = D.faults disk.old in
            StaysFaultless (D.faultless disk.old) (D.faultless disk.new) f (D.faults disk.new) }
    {
        let here = match topo.subscribers_at(alloc, number) {
            Ok(here) => here,
            Err(_) => return Err(BrokerFault::Memory),
        };
        let placed = match positions_at(alloc, topo, number) {
            Ok(placed) => placed,
            Err(_) => return Err(BrokerFault::Memory),
        };
        let late = match topo.lates(alloc) {
            Ok(late) => late,
            Err(_) => return Err(BrokerFault::Memory),
        };
        let (here_now, late_now) = (here.as_slice(), late.as_slice());
        let opened = match open_publishers(alloc, topo, number, here_now, late_now, &placed, disk) {
            Ok(opened) => opened,
            Err(fault) => return Err(fault),
        };
        Ok(Started {
            broker: Broker {
                alloc,
                number,
                here,
                edges: placed.edges,
                positions: placed.positions,
                held: opened.held,
                spare: Spare::new(alloc),
            },
            outcome: Outcome {
                reports: opened.lines,
                frames: Outbox::new(alloc),
            },
        })
    }

    /// Publishes an event under a number, at the moment `now` in milliseconds, for a publisher that is here: the
    /// machine's publish. The event is told and sent only once it is synced in the log.
    ///
    /// `Memory` leaves the broker and what the disk holds as they were. `Disk` comes only where the disk failed in this
    /// call; what is kept is as before, nothing was sent, and the log answers `Reopen` from then on to each call that
    /// would write to it. `Damaged` never comes.
    pub fn publish<D: Disk>(
        &mut self,
        topo: &Topology,
        disk: &mut D,
        p: u16,
        number: u64,
        event: &Event,
        now: u64,
    ) -> Result<Outcome, BrokerFault>
        requires fits { IsBrokerOf topo.now self.old }
        requires hosted { IsHosted self.old p }
        requires now { now ≤ MAX_TICK }
        requires stands { D.tells → LogsStand (D.lane_of disk.old) self.old }
        // What is told and sent, and what is kept: the machine's publish
        ensures told { IfOk result (λ told. Tells (publish_at topo.now self.old p now number event.now) told) }
        ensures leaves { let after = after_publish topo.now self.old p now number event.now in
            Leaves self.old after (broken_at self.old p) self.new (log_answer result) }
        ensures log { OnOk result (let o : MachineOutcome = publish_at topo.now self.old p now number event.now in
            machine_log self.new p ≡ o.log) }
        ensures fits { IsBrokerOf topo.now self.new }
        // The disk: one record, or none
        ensures lane { D.tells → AppendsAt self.old p (publish_logs_at self.old p now number event.now)
            (D.lane_of disk.old) (D.lane_of disk.new) (log_answer result) }
        ensures reopen { IsErrOf result BrokerFault.Reopen
            ↔ ((is_broken (log_in self.old p) ≡ true) × IsSome (publish_logs_at self.old p now number event.now)) }
        ensures untouched { publish_logs_at self.old p now number event.now ≡ None → disk.new ≡ disk.old }
        ensures uses { UsesLaneOf D.tells D.faultless D.lane_of D.faults D.stops p disk.old disk.new result }
        // so that the next call may be made
        ensures stands { D.tells → LogsStand (D.lane_of disk.new) self.new }
    {
        let seat = Seat {
            alloc: self.alloc,
            topo,
            number: self.number,
            here: self.here.as_slice(),
            edges: &self.edges,
            positions: &self.positions,
        };
        let mut told = self.spare.outcome(self.alloc);
        match publish_in(
            &seat,
            disk,
            &mut self.held,
            p,
            number,
            event,
            now,
            &mut told,
        ) {
            Ok(()) => {}
            Err(fault) => {
                drop(told);
                return Err(fault_at(p, fault));
            }
        }
        Ok(told)
    }

    /// Joins a late subscriber to a publisher that is here, at the moment `now` in milliseconds: the machine's join. Of
    /// the events past its tick the subscriber has those that its filter passes. Only once the join is synced in the
    /// log it is held and told, and the silence up to it is sent, with the joins.
    ///
    /// A subscriber that has joined this publisher before is told so, and so is one for which no tick is left; then
    /// nothing has changed. Faults are those of `publish`.
    pub fn join<D: Disk>(
        &mut self,
        topo: &Topology,
        disk: &mut D,
        p: u16,
        s: u16,
        now: u64,
    ) -> Result<Outcome, BrokerFault>
        requires fits { IsBrokerOf topo.now self.old }
        requires hosted { IsHosted self.old p }
        requires late { late_of topo.now s ≡ true }
        requires now { now ≤ MAX_TICK }
        requires stands { D.tells → LogsStand (D.lane_of disk.old) self.old }
        // What is told and sent, and what is kept: the machine's join
        ensures told { IfOk result (λ told. Tells (join_at topo.now self.old p s now) told) }
        ensures leaves { let after = after_join topo.now self.old p s now in
            Leaves self.old after (broken_at self.old p) self.new (log_answer result) }
        ensures log { OnOk result (let o : MachineOutcome = join_at topo.now self.old p s now in
            machine_log self.new p ≡ o.log) }
        ensures fits { IsBrokerOf topo.now self.new }
        // The disk: one record, or none
        ensures lane { D.tells → AppendsAt self.old p (join_logs_at self.old p s now)
            (D.lane_of disk.old) (D.lane_of disk.new) (log_answer result) }
        ensures reopen { IsErrOf result BrokerFault.Reopen
            ↔ ((is_broken (log_in self.old p) ≡ true) × IsSome (join_logs_at self.old p s now)) }
        ensures untouched { join_logs_at self.old p s now ≡ None → disk.new ≡ disk.old }
        ensures uses { UsesLaneOf D.tells D.faultless D.lane_of D.faults D.stops p disk.old disk.new result }
        // so that the next call may be made
        ensures stands { D.tells → LogsStand (D.lane_of disk.new) self.new }
    {
        let seat = Seat {
            alloc: self.alloc,
            topo,
            number: self.number,
            here: self.here.as_slice(),
            edges: &self.edges,
            positions: &self.positions,
        };
        let mut told = self.spare.outcome(self.alloc);
        match join_in(&seat, disk, &mut self.held, p, s, now, &mut told) {
            Ok(()) => {}
            Err(fault) => {
                drop(told);
                return Err(fault_at(p, fault));
            }
        }
        Ok(told)
    }

    /// Takes a datagram, at the moment `now`. First it is decoded, then it must fit, then its joins must not split from
    /// those that are held, then it must not clash; one that fails is dropped, and nothing has changed, the held joins
    /// included. One that is taken is the machine's receipt of its frame, whose joins are held, where they are more,
    /// before anything is learned. At want of memory the broker is as it was.
    pub fn receive(&mut self, topo: &Topology, bytes: &[u8], now: u64) -> Result<Received, Memory>
        requires fits { IsBrokerOf topo.now self.old }
        ensures says { let r = receipt (net_of topo.now) now self.old (frame_decoded bytes.now) in
            IfOk result (λ answer. Answers answer r) }
        ensures after { let r = receipt (net_of topo.now) now self.old (frame_decoded bytes.now) in
            OnOk result (self.new ≡ after_receipt (frame_decoded bytes.now) r self.old) }
        ensures err { OnErr result (self.new ≡ self.old) }
        ensures fits { IsBrokerOf topo.now self.new }
    {
        let seat = Seat {
            alloc: self.alloc,
            topo,
            number: self.number,
            here: self.here.as_slice(),
            edges: &self.edges,
            positions: &self.positions,
        };
        let mut told = self.spare.outcome(self.alloc);
        match receive(&seat, &mut self.held, bytes, now, &mut told)? {
            None => Ok(Received::Taken(told)),
            Some(dropped) => Ok(Received::Dropped(dropped)),
        }
    }

    /// Wakes the broker for a publisher, at the moment `now`: the machine's wake. Where the publisher is elsewhere, it
    /// asks for what is wanted and tells what is consolidated, and the disk is not called. Where the publisher is here,
    /// its log is marked where it was silent for long, then cut where more is consolidated than was cut, and the
    /// children are told what to expect.
    ///
    /// After `Memory` the mark may be logged, and nothing else has changed; nothing was sent. After `Disk` the mark may
    /// be logged, nothing was sent, and the log answers `Reopen` from then on to each call that would write to it.
    /// `Damaged` never comes.
    pub fn wake<D: Disk>(
        &mut self,
        topo: &Topology,
        disk: &mut D,
        p: u16,
        now: u64,
    ) -> Result<Outcome, BrokerFault>
        requires fits { IsBrokerOf topo.now self.old }
        requires publisher { p < length self.old.views }
        requires now { now ≤ MAX_TICK }
        requires stands { D.tells → LogsStand (D.lane_of disk.old) self.old }
        ensures told { IfOk result (λ told. Tells (wake_at topo.now self.old p now) told) }
        ensures leaves { let marked = after_mark topo.now self.old p now in
            let woken = after_wake topo.now self.old p now in
            WakeLeaves self.old marked woken (broken_at self.old p) (broken_at marked p) self.new (log_answer result) }
        ensures log { OnOk result (let o : MachineOutcome = wake_at topo.now self.old p now in
            machine_log self.new p ≡ o.log) }
        ensures fits { IsBrokerOf topo.now self.new }
        ensures lane { let mark = mark_logs_at topo.now self.old p now in
            let cut = cut_at topo.now self.old p now in let reclaim = topo.now.settings.reclaim in D.tells
            → WakesAt self.old p mark cut reclaim (D.lane_of disk.old) (D.lane_of disk.new) (log_answer result) }
        ensures reopen { IsErrOf result BrokerFault.Reopen ↔ ((is_broken (log_in self.old p) ≡ true)
            × (IsSome (mark_logs_at topo.now self.old p now) ⊎ IsSome (cut_at topo.now self.old p now))) }
        ensures below { log_in self.old p ≡ None → disk.new ≡ disk.old }
        // A log that the disk has failed is not written to any more
        ensures closed { is_broken (log_in self.old p) ≡ true → disk.new ≡ disk.old }
        ensures uses { UsesLaneOf D.tells D.faultless D.lane_of D.faults D.stops p disk.old disk.new result }
        ensures stands { D.tells → LogsStand (D.lane_of disk.new) self.new }
    {
        let seat = Seat {
            alloc: self.alloc,
            topo,
            number: self.number,
            here: self.here.as_slice(),
            edges: &self.edges,
            positions: &self.positions,
        };
        wake(&seat, disk, &mut self.held, p, now)
    }

    /// Takes lists back that an answer was made of: the next call tells and sends in their room, of which they are
    /// emptied. Nothing else changes.
    pub fn reuse(&mut self, reports: Reports, frames: Frames)
        ensures { self.new ≡ self.old }
    {
        self.spare = Spare { reports, frames };
    }

    /// How far the subscribers here have heard a publisher: 0 where the broker keeps no horizon. Takes no memory.
    pub fn horizon(&self, p: u16) -> u64
        requires { p < length self.now.views }
        ensures { result ≡ (view_in self.now p).horizon }
    {
        self.held[p as usize].horizon.horizon()
    }

    /// The log of a publisher that is here. Takes no memory.
    pub fn log(&self, p: u16) -> &Log
        requires { IsHosted self.now p }
        ensures { log_in self.now p ≡ Some result.now }
    {
        match &self.held[p as usize].log {
            Some(log) => log,
            None => unreachable!(),
        }
    }
}
