//! The brokers of a process run over what came to it.

ghost use Rattle.std.specs.Prelude.{◌≡◌, true, false, ◌++◌, Ok, IsOk, IfOk, OnOk};
ghost use Rattle.gr_model.specs.NetOf.{net_of};
ghost use Rattle.gr_model.specs.Arrivals.{requests_of};
ghost use Rattle.gr_journal.specs.Groups.{said_text};
ghost use Rattle.gr_journal.specs.Lines.{process_text};
ghost use Rattle.gr_node.specs.Seen.{seen};
ghost use Rattle.gr_node.specs.Keeps.{IsAsked};
ghost use Rattle.gr_trace.specs.Offered.{entries_of};
ghost use Rattle.gr_trace.specs.Traced.{outs_of};
ghost use Rattle.gr_audit.specs.Audited.{has_clients};
ghost use Rattle.gr_audit.specs.Coming.{AllComeTo};
ghost use Rattle.gr_audit.specs.Ran.{IsWhole, IsCut};
ghost use Rattle.gr_audit_theorems.specs.Behaves.{behaves};
ghost use Rattle.gr_audit_run.specs.Process.{left_of, GoesOn, IsReady, IsFresh, done_at, Came, Took, with_offers};

use crate::telling::tell;
use gr_audit::{Comparison, Given, Machine, Ran};
use gr_broker::frames_pass_the_log;
use gr_event::Text;
use gr_journal::{Arrival, process_text, push_datagram, push_quiet, push_said};
use gr_node::{Node, Site, next_after, next_request};
use gr_out::{MemDisk, RunFault};
use gr_sched::{Line, Steps};
use gr_topo::Topology;
use gr_trace::{Gathered, Offer, open, push_outs, take_datagram, take_quiet};
use std::alloc::{AllocError, Global};

/// Brokers of a topology, and the steps of its schedule.
#[derive(Drop)]
pub struct Brokers<'a> {
    /// The steps.
    pub steps: &'a Steps,
}

/// Brokers that have started, with what they told and is not compared yet.
#[derive(Drop)]
pub(crate) struct Process {
    pub node: Node,
    pub disk: MemDisk,
    pub gathered: Gathered,
    /// The place of the next request of the schedule.
    pub next: usize,
    /// The lines of the journal, as far as they are not told.
    pub text: Text,
}

/// Notes the offers of a process.
fn note_offers(alloc: Global, offers: &[Offer], given: &mut Given<'_>) -> Result<(), AllocError>
    ensures { OnOk result (given.new ≡ with_offers (entries_of offers.now) given.old) }
{
    'noted: for offer in offers {
        given.offers(alloc, offer.to, offer.bytes.as_slice())?;
    }
    Ok(())
}

/// What fails here stands in memory, so that a failure is want of memory.
fn in_memory(done: Result<(), RunFault>) -> Result<(), AllocError>
    ensures { OnOk result (IsOk done) }
{
    match done {
        Ok(()) => Ok(()),
        Err(_) => Err(AllocError),
    }
}

/// A process whose brokers start on empty logs. Its text is the line of the process.
fn start(site: &Site<'_>, steps: &[Line]) -> Result<Process, AllocError>
    requires { IsAsked site.now.topo.now site.now.hosted.now steps.now }
    ensures fresh { IfOk result (λ p. IsFresh site.now.topo.now site.now.hosted.now (seen p.node)) }
    ensures ready { IfOk result (IsReady site.now.topo.now site.now.hosted.now steps.now) }
    ensures text { IfOk result (λ p. p.text ≡ process_text site.now.topo.now site.now.hosted.now) }
    ensures left { IfOk result (λ p. left_of site.now.topo.now site.now.hosted.now steps.now p
        ≡ requests_of (net_of site.now.topo.now) site.now.hosted.now steps.now) }
{
    let mut node = Node::new(site.alloc, site.topo)?;
    let mut disk = MemDisk::new(site.alloc, &[])?;
    let mut gathered = Gathered::new(site.alloc)?;
    in_memory(open(site, &mut node, &mut disk, &mut gathered))?;
    gathered.clear();
    let text = process_text(site.alloc, site.topo, site.hosted)?;
    let next = next_request(site, steps, 0);
    Ok(Process {
        node,
        disk,
        gathered,
        next,
        text,
    })
}

/// A quiet moment comes to a process.
fn take_moment(
    site: &Site<'_>,
    steps: &[Line],
    moment: u64,
    process: &mut Process,
) -> Result<(), AllocError>
    requires asked { IsAsked site.now.topo.now site.now.hosted.now steps.now }
    requires ready { IsReady site.now.topo.now site.now.hosted.now steps.now process.old }
    ensures came { OnOk result (Came site.now.topo.now site.now.hosted.now steps.now
        (Arrival.Quiet moment) process.old process.new) }
    ensures goes_on { OnOk result (GoesOn site.now.topo.now site.now.hosted.now steps.now process.new) }
{
    push_quiet(moment, &mut process.text)?;
    in_memory(take_quiet(
        site,
        &mut process.node,
        steps,
        process.next,
        moment,
        &mut process.disk,
        &mut process.gathered,
    ))?;
    process.next = next_after(site, steps, process.next);
    Ok(())
}

/// A datagram comes to a broker of a process.
fn take_bytes(
    site: &Site<'_>,
    steps: &[Line],
    broker: u16,
    moment: u64,
    bytes: &[u8],
    process: &mut Process,
) -> Result<(), AllocError>
    requires ready { IsReady site.now.topo.now site.now.hosted.now steps.now process.old }
    ensures came { OnOk result (Came site.now.topo.now site.now.hosted.now steps.now
        (Arrival.Datagram broker moment bytes.now) process.old process.new) }
    ensures goes_on { OnOk result (GoesOn site.now.topo.now site.now.hosted.now steps.now process.new) }
{
    push_datagram(site.topo, broker, moment, bytes, &mut process.text)?;
    in_memory(take_datagram(
        site,
        &mut process.node,
        broker,
        bytes,
        moment,
        &mut process.disk,
        &mut process.gathered,
    ))?;
    let _ = steps;
    Ok(())
}

/// An arrival comes to a process. Its line is put into the text, and what it leads to is gathered.
fn take(
    site: &Site<'_>,
    steps: &[Line],
    arrival: &Arrival,
    process: &mut Process,
) -> Result<(), AllocError>
    requires asked { IsAsked site.now.topo.now site.now.hosted.now steps.now }
    requires ready { IsReady site.now.topo.now site.now.hosted.now steps.now process.old }
    ensures came { OnOk result (Came site.now.topo.now site.now.hosted.now steps.now
        arrival.now process.old process.new) }
    ensures goes_on { OnOk result (GoesOn site.now.topo.now site.now.hosted.now steps.now process.new) }
{
    match arrival {
        Arrival::Quiet { moment } => take_moment(site, steps, *moment, process),
        Arrival::Datagram {
            broker,
            moment,
            bytes,
        } => take_bytes(site, steps, *broker, *moment, bytes.as_slice(), process),
    }
}

/// Puts what was gathered behind the line of its arrival.
fn put_gathered(topo: &Topology, gathered: &Gathered, text: &mut Text) -> Result<(), AllocError>
    ensures { OnOk result (text.new ≡ text.old ++ (said_text true gathered.now.lines.held
        ++ outs_of topo.now (entries_of gathered.now.offers))) }
{
    push_said(gathered.lines.held.as_slice(), text)?;
    push_outs(topo, gathered.offers.as_slice(), text)
}

/// An arrival comes to a process: its group is put into the text, and its offers are noted.
fn take_group(
    site: &Site<'_>,
    steps: &[Line],
    arrival: &Arrival,
    process: &mut Process,
    given: &mut Given<'_>,
) -> Result<(), AllocError>
    requires asked { IsAsked site.now.topo.now site.now.hosted.now steps.now }
    requires ready { IsReady site.now.topo.now site.now.hosted.now steps.now process.old }
    ensures took { OnOk result (Took site.now.topo.now site.now.hosted.now steps.now
        arrival.now process.old process.new) }
    ensures noted { let d = done_at site.now.topo.now site.now.hosted.now steps.now process.old arrival.now in
        OnOk result (given.new ≡ with_offers d.entries given.old) }
    ensures ready { OnOk result (IsReady site.now.topo.now site.now.hosted.now steps.now process.new) }
{
    // Proof only: no name of a topology has the end of a line.
    let _ = site.topo.brokers();
    take(site, steps, arrival, process)?;
    put_gathered(site.topo, &process.gathered, &mut process.text)?;
    note_offers(site.alloc, process.gathered.offers.as_slice(), given)?;
    process.gathered.clear();
    Ok(())
}

/// Runs a process over what is still to come to it.
fn run_started(
    site: &Site<'_>,
    steps: &[Line],
    process: &mut Process,
    given: &mut Given<'_>,
    told: &mut Comparison<'_>,
) -> Result<Ran, AllocError>
    requires asked { IsAsked site.now.topo.now site.now.hosted.now steps.now }
    requires unheard { has_clients site.now.topo.now ≡ false }
    requires come { AllComeTo site.now.hosted.now given.old.left }
    requires fresh { IsFresh site.now.topo.now site.now.hosted.now (seen process.old.node) }
    requires ready { IsReady site.now.topo.now site.now.hosted.now steps.now process.old }
    requires text { process.old.text ≡ process_text site.now.topo.now site.now.hosted.now }
    requires left { left_of site.now.topo.now site.now.hosted.now steps.now process.old
        ≡ requests_of (net_of site.now.topo.now) site.now.hosted.now steps.now }
    ensures whole { result ≡ Ok Ran.Whole → IsWhole (behaves site.now.topo.now steps.now) site.now.topo.now
        site.now.hosted.now given.old given.new told.old told.new }
    ensures cut { result ≡ Ok Ran.Cut → IsCut (behaves site.now.topo.now steps.now) site.now.topo.now
        site.now.hosted.now given.old told.old told.new }
{
    // Proof only: the limits of a topology, and that no log has a part in what is received.
    let _ = site.topo.brokers();
    frames_pass_the_log();
    if !tell(told, process.text.as_slice()) {
        return Ok(Ran::Cut);
    }
    'arrivals: while let Some(came) = given.next(site.alloc)? {
        process.text.truncate(0);
        take_group(site, steps, &came.arrival, process, given)?;
        if !tell(told, process.text.as_slice()) {
            return Ok(Ran::Cut);
        }
    }
    Ok(Ran::Whole)
}

impl<'a> Machine for Brokers<'a> {
    ghost use Rattle.gr_scenario.specs.Steps.{AreStepsOf};
    ghost use Rattle.gr_audit_theorems.specs.Behaves.{behaves};

    ghost fits = { λ m t. AreStepsOf t m.steps.now };

    ghost behaves = { λ m t. behaves t m.steps.now };

    fn run(
        &self,
        alloc: Global,
        topo: &Topology,
        brokers: &[u16],
        given: &mut Given<'_>,
        told: &mut Comparison<'_>,
    ) -> Result<Ran, AllocError> {
        let site = Site {
            alloc,
            topo,
            hosted: brokers,
        };
        let steps = self.steps.as_slice();
        let mut process = start(&site, steps)?;
        run_started(&site, steps, &mut process, given, told)
    }
}
