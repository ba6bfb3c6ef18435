//! A broker starts, publisher by publisher.

ghost use Rattle.std.specs.Prelude.{◌≡◌, ◌≢◌, ◌⊎◌, ℕ, ◌<◌, ◌++◌, [], true, false, length, map, Some, None, Err};
ghost use Rattle.std.specs.Prelude.{OnOk, IfOk, IsErrOf};
ghost use Rattle.std.specs.List.{AllByRecursion};
ghost use Rattle.gr_out.specs.Faults.{Rose};
ghost use Rattle.gr_out.specs.Stops.{StaysFaultless};
ghost use Rattle.gr_publog.specs.Views.{LogView, lanes_at, AwayFrom};
ghost use Rattle.gr_publog.specs.Calls.{Tally};
ghost use Rattle.gr_publog.specs.Opens.{Opens};
ghost use Rattle.gr_pubend.specs.Log.{said};
ghost use Rattle.gr_topo.specs.Topology.{subscribers_of};
ghost use Rattle.gr_model.specs.Net.{numbers, is_host};
ghost use Rattle.gr_model.specs.NetOf.{net_of};
ghost use Rattle.gr_model.specs.Opening.{reopened_line};
ghost use Rattle.gr_broker_relay.specs.Branch.{branch_of};
ghost use Rattle.gr_broker_relay.specs.Held.{held_view, seen_branch, HasEdges, IsSite};
ghost use Rattle.gr_broker.specs.Lanes.{log_lane, either_stopped, AreUnset};
ghost use Rattle.gr_broker.specs.Told.{log_answer};
ghost use Rattle.gr_broker.specs.Opened.{LosesNothing, found_at, IsDamagedAt};
ghost use Rattle.gr_broker.specs.Starting.{fault_of, fresh_view, is_here, IsStartedAt, lines_at, AreStarted, AreOpened};
ghost use Rattle.gr_broker.specs.Starting.{TouchesLanes};

use crate::lane::log_lane;
use crate::outcome::BrokerFault;
use gr_broker_relay::{Held, Memory, Outcome, Placed, Site, learn};
use gr_curio::{Asks, Wants};
use gr_event::Joins;
use gr_know::Know;
use gr_model::{Report, Reports};
use gr_out::Disk;
use gr_pubend::known_by;
use gr_publog::{Log, LogFault};
use gr_subend::Subend;
use gr_tick::Piece;
use gr_topo::Topology;
use std::alloc::Global;

/// What is kept of a publisher before anything was asked or handed over.
fn fresh_held(site: &Site<'_>, know: Know, joins: Joins, log: Option<Log>) -> Result<Held, Memory>
    requires { IsSite site.now }
    ensures view { IfOk result (λ held. held_view held
        ≡ fresh_view site.now.topo.now site.now.publisher site.now.broker know.runs joins) }
    ensures log { IfOk result (λ held. held.log ≡ log) }
{
    let wants = Wants::new(site.alloc, site.position.children.len())?;
    Ok(Held {
        know,
        wants,
        asks: Asks::new(site.alloc),
        horizon: Subend::new(),
        log,
        joins,
    })
}

/// The line of a log that was opened, where it is not empty.
fn tell_opened(log: &Log, p: u16, into: &mut Reports) -> Result<(), Memory>
    ensures { OnOk result (into.new ≡ into.old ++ reopened_line (said log.now) p) }
{
    let _ = log.is_broken();
    let settled = log.settled();
    if settled == 0 {
        return Ok(());
    }
    into.push(Report::Opened {
        publisher: p,
        last: log.last(),
        settled,
        cut: log.cut(),
    })
}

/// What is kept of a publisher that is here, over its log, whose joins are held.
fn held_over(site: &Site<'_>, log: Log, into: &mut Reports) -> Result<Held, Memory>
    requires site { IsSite site.now }
    requires here { is_here site.now ≡ true }
    requires lane { log.lane ≡ log_lane site.now.publisher }
    requires whole { log.broken ≡ false }
    requires late { log.state.late ≡ site.now.topo.now.late }
    ensures started { IfOk result (λ held. IsStartedAt site.now held) }
    ensures log { IfOk result (λ held. held.log ≡ Some log) }
    ensures lines { IfOk result (λ held. into.new ≡ into.old ++ lines_at site.now held) }
{
    // Proof only: what the log holds is in order.
    let _ = log.is_broken();
    let know = known_by(site.alloc, &log)?;
    tell_opened(&log, site.publisher, into)?;
    let joins = log.joins().share();
    let mut held = fresh_held(site, know, joins, Some(log))?;
    if site.here.is_empty() {
        return Ok(held);
    }
    let mut told = Outcome::new(site.alloc);
    learn(site, &mut held, &Piece::new(site.alloc), &mut told)?;
    into.append(&mut told.reports)?;
    Ok(held)
}

/// What is kept of a publisher that is elsewhere.
fn held_below(site: &Site<'_>) -> Result<Held, Memory>
    requires site { IsSite site.now }
    requires below { is_here site.now ≡ false }
    ensures started { IfOk result (λ held. IsStartedAt site.now held) }
    ensures log { IfOk result (λ held. held.log ≡ None) }
    ensures lines { IfOk result (λ held. lines_at site.now held ≡ []) }
{
    let held = fresh_held(site, Know::new(site.alloc), Joins::new(site.alloc), None)?;
    Ok(held)
}

/// A fault of the log of a publisher.
pub(crate) fn fault_at(p: u16, fault: LogFault) -> BrokerFault
    ensures { result ≡ fault_of p fault }
{
    match fault {
        LogFault::Memory => BrokerFault::Memory,
        LogFault::Disk => BrokerFault::Disk,
        LogFault::Reopen => BrokerFault::Reopen,
        LogFault::Damaged { at } => BrokerFault::Damaged { publisher: p, at },
    }
}

/// Starts a publisher: where it is here, its log is opened, and what that tells is put at the end of some lines.
fn open_publisher<D: Disk>(
    site: &Site<'_>,
    late: &[u16],
    disk: &mut D,
    into: &mut Reports,
) -> Result<Held, BrokerFault>
    requires site { IsSite site.now }
    requires late { late.now ≡ site.now.topo.now.late }
    ensures started { IfOk result (λ held. IsStartedAt site.now held) }
    ensures lines { IfOk result (λ held. into.new ≡ into.old ++ lines_at site.now held) }
    ensures opens { let lane = log_lane site.now.publisher in let before = lanes_at (D.lane_of disk.old) lane in
        let after = lanes_at (D.lane_of disk.new) lane in D.tells → IfOk result (λ held. (l : LogView)
        → held.log ≡ Some l → Opens site.now.topo.now.late lane before after (Ok l)) }
    ensures damaged { D.tells → (p at : ℕ) → result ≡ Err (BrokerFault.Damaged p at)
        → (p ≡ site.now.publisher) × (is_here site.now ≡ true)
        × (found_at site.now.topo.now (D.lane_of disk.old) site.now.publisher ≡ Err at) }
    ensures damaged_here { (p at : ℕ) → result ≡ Err (BrokerFault.Damaged p at)
        → (p ≡ site.now.publisher) × (is_here site.now ≡ true) }
    ensures never_reopen { result ≢ Err BrokerFault.Reopen }
    ensures below { is_here site.now ≡ false → disk.new ≡ disk.old }
    ensures others { let lane = log_lane site.now.publisher in
        D.tells → (n : ℕ) → AwayFrom lane n → D.lane_of disk.new n ≡ D.lane_of disk.old n }
    ensures any_moment { let lane = log_lane site.now.publisher in let before = lanes_at (D.lane_of disk.old) lane in
        let after = lanes_at (D.lane_of disk.new) lane in
        D.tells → is_here site.now ≡ true → LosesNothing site.now.topo.now.late before after }
    ensures tally { let f = D.faults disk.old in let s = D.stops disk.old in
        Tally f s (D.faults disk.new) (D.stops disk.new) (log_answer result) }
    ensures by_stop { D.tells → D.faultless disk.old → IsErrOf result BrokerFault.Disk
        → either_stopped (lanes_at (D.lane_of disk.new) (log_lane site.now.publisher)) ≡ true }
    ensures why { D.tells → IsErrOf result BrokerFault.Disk
        → (either_stopped (lanes_at (D.lane_of disk.new) (log_lane site.now.publisher)) ≡ true)
        ⊎ Rose (D.faults disk.old) (D.faults disk.new) }
    ensures unset { let lane = log_lane site.now.publisher in let before = lanes_at (D.lane_of disk.old) lane in
        D.tells → AreUnset before → AreUnset (lanes_at (D.lane_of disk.new) lane) }
    ensures disk_here { IsErrOf result BrokerFault.Disk → is_here site.now ≡ true }
    ensures faultless { let f = D.faults disk.old in
        StaysFaultless (D.faultless disk.old) (D.faultless disk.new) f (D.faults disk.new) }
{
    if !site.position.host {
        return match held_below(site) {
            Ok(held) => Ok(held),
            Err(_) => Err(BrokerFault::Memory),
        };
    }
    let _ = site.topo.publishers();
    let log = match Log::open(site.alloc, disk, log_lane(site.publisher), late) {
        Ok(log) => log,
        Err(fault) => return Err(fault_at(site.publisher, fault)),
    };
    match held_over(site, log, into) {
        Ok(held) => Ok(held),
        Err(_) => Err(BrokerFault::Memory),
    }
}

/// What is kept of each publisher, and what the start tells.
#[derive(Drop)]
pub(crate) struct Opened {
    pub held: Vec<Held>,
    pub lines: Reports,
}

/// Starts all publishers, in order.
pub(crate) fn open_publishers<D: Disk>(
    alloc: Global,
    topo: &Topology,
    b: u16,
    here: &[u16],
    late: &[u16],
    placed: &Placed,
    disk: &mut D,
) -> Result<Opened, BrokerFault>
    requires broker { b < length topo.now.brokers }
    requires here { here.now ≡ subscribers_of topo.now b }
    requires late { late.now ≡ topo.now.late }
    requires branches { map (seen_branch placed.now.edges.items) placed.now.positions.items
        ≡ map (branch_of topo.now b) (numbers (length topo.now.publishers)) }
    requires edges { AllByRecursion (HasEdges placed.now.edges.items) placed.now.positions.items }
    ensures started { IfOk result (λ opened. AreStarted topo.now b (length topo.now.publishers)
        (map held_view opened.held.items) (map (λ held. held.log) opened.held.items) opened.lines) }
    ensures opens { D.tells → IfOk result (λ opened.
        AreOpened topo.now (map (λ held. held.log) opened.held.items) (D.lane_of disk.old) (D.lane_of disk.new)) }
    ensures touches { let upto = length topo.now.publishers in
        D.tells → TouchesLanes topo.now b upto (D.lane_of disk.old) (D.lane_of disk.new) }
    ensures damaged { D.tells → (p at : ℕ) → result ≡ Err (BrokerFault.Damaged p at)
        → IsDamagedAt topo.now b p at (D.lane_of disk.old) }
    ensures damaged_here { (p at : ℕ) → result ≡ Err (BrokerFault.Damaged p at)
        → (p < length topo.now.publishers) × (is_host (net_of topo.now) p b ≡ true) }
    ensures never_reopen { result ≢ Err BrokerFault.Reopen }
    ensures tally { let f = D.faults disk.old in let s = D.stops disk.old in
        Tally f s (D.faults disk.new) (D.stops disk.new) (log_answer result) }
    ensures by_stop { D.tells → D.faultless disk.old → IsErrOf result BrokerFault.Disk
        → (p : ℕ) × (either_stopped (lanes_at (D.lane_of disk.new) (log_lane p)) ≡ true) }
    ensures why { D.tells → IsErrOf result BrokerFault.Disk
        → ((p : ℕ) × (either_stopped (lanes_at (D.lane_of disk.new) (log_lane p)) ≡ true))
        ⊎ Rose (D.faults disk.old) (D.faults disk.new) }
    ensures never_fails { D.tells → D.faultless disk.old
        → ((p : ℕ) → p < length topo.now.publishers → is_host (net_of topo.now) p b ≡ true
        → AreUnset (lanes_at (D.lane_of disk.old) (log_lane p)))
        → result ≢ Err BrokerFault.Disk }
    ensures rises { D.tells → ((p : ℕ) → p < length topo.now.publishers → is_host (net_of topo.now) p b ≡ true
        → AreUnset (lanes_at (D.lane_of disk.old) (log_lane p)))
        → IsErrOf result BrokerFault.Disk → Rose (D.faults disk.old) (D.faults disk.new) }
    ensures faultless { let f = D.faults disk.old in
        StaysFaultless (D.faultless disk.old) (D.faultless disk.new) f (D.faults disk.new) }
{
    let mut held = Vec::new(alloc);
    let mut lines = Reports::new(alloc);
    'publishers: for p in 0..topo.publishers() {
        let site = Site {
            alloc,
            topo,
            edges: &placed.edges,
            here,
            position: &placed.positions[p as usize],
            broker: b,
            publisher: p,
        };
        let opened = match open_publisher(&site, late, disk, &mut lines) {
            Ok(opened) => opened,
            Err(fault) => return Err(fault),
        };
        match held.push(opened) {
            Ok(()) => {}
            Err(_) => return Err(BrokerFault::Memory),
        }
    }
    Ok(Opened { held, lines })
}
