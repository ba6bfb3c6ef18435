//! What brokers tell and offer at an arrival, gathered in memory.

ghost use Rattle.std.specs.Prelude.{◌≡◌, true, ◌++◌, List, [], drop, IfOk, IfErr, OnOk};
ghost use Rattle.gr_model.specs.NetOf.{net_of};
ghost use Rattle.gr_model.specs.Arrivals.{datagram, quiet, Request, requests_of};
ghost use Rattle.gr_model_theorems.specs.Served.{IsOfBytes};
ghost use Rattle.gr_node.specs.Seen.{seen, none_started};
ghost use Rattle.gr_node.specs.Of.{AreHosted};
ghost use Rattle.gr_node.specs.Keeps.{IsServing, IsAsked};
ghost use Rattle.gr_node.specs.Lasting.{ActsKeep};
ghost use Rattle.gr_node.specs.Plan.{led_to};
ghost use Rattle.gr_node.specs.Done.{at_arrival};
ghost use Rattle.gr_node.specs.Turns.{IsFirst};
ghost use Rattle.gr_node.specs.Went.{IsExact, IsCallFault};
ghost use Rattle.gr_trace.specs.Gathered.{IsEmpty, Gathers, Opens, DiskKeeps, OpenKeeps, Ends};

use crate::offers::OfferList;
use gr_node::{Node, Site, datagram_comes, open_hosted, quiet_comes, settle};
use gr_out::{Disk, Memory, Page, RunFault};
use gr_sched::Line;
use std::alloc::Global;

/// What brokers told and offered, and is not written yet.
#[derive(Drop)]
pub struct Gathered {
    /// Lines on their way; empty between two arrivals.
    pub page: Page,
    /// The lines that were told, each with its end.
    pub lines: Page,
    /// What was offered.
    pub offers: OfferList,
}

impl Gathered {
    /// Nothing was told.
    pub fn new(alloc: Global) -> Result<Gathered, Memory>
        ensures { IfOk result IsEmpty }
    {
        let page = Page::new(alloc)?;
        let lines = Page::new(alloc)?;
        Ok(Gathered {
            page,
            lines,
            offers: OfferList::new(alloc),
        })
    }

    /// What was told is written: nothing is left of it.
    pub fn clear(&mut self)
        ensures { IsEmpty self.new }
    {
        self.page.held.truncate(0);
        self.lines.held.truncate(0);
        self.offers.clear();
    }
}

/// Whether it is known what was done before this was answered.
pub(crate) fn is_known(done: &Result<(), RunFault>) -> bool
    ensures yes { result ≡ true → IsExact done.now }
{
    match done {
        Ok(()) => true,
        Err(RunFault::Memory) => false,
        Err(RunFault::Write) => false,
        Err(RunFault::Disk) => true,
        Err(RunFault::Damaged { .. }) => true,
        Err(RunFault::Post) => true,
    }
}

/// The lines on their way get to the others. A failure of their page is want of memory, since it stands in memory.
fn finish(done: Result<(), RunFault>, page: &mut Page, lines: &mut Page) -> Result<(), RunFault>
    ensures { Ends done result lines.old.held page.old.held lines.new.held page.new.held }
{
    if !is_known(&done) {
        return Err(RunFault::Memory);
    }
    match page.flush(lines) {
        Ok(()) => done,
        Err(_) => Err(RunFault::Memory),
    }
}

/// The hosted brokers start, and what is ready in one order then is told. Their lines may be on their way still.
fn start_and_settle<D: Disk>(
    site: &Site<'_>,
    node: &mut Node,
    disk: &mut D,
    page: &mut Page,
    lines: &mut Page,
) -> Result<(), RunFault>
    requires hosted { AreHosted site.now.topo.now site.now.hosted.now }
    requires none { seen node.old ≡ none_started site.now.topo.now }
    requires empty { (page.old.held ≡ []) × (lines.old.held ≡ []) }
    ensures opens { IsExact result → Opens site.now.topo.now site.now.hosted.now D.tells (seen node.new)
        (lines.new.held ++ page.new.held) (D.lane_of disk.old) result }
    ensures serving { OnOk result
        (IsServing site.now.topo.now site.now.hosted.now D.tells (D.lane_of disk.new) (seen node.new)) }
    ensures starts { OpenKeeps site.now.topo.now site.now.hosted.now D.tells D.lane_of D.faults D.stops
        disk.old disk.new result }
{
    match open_hosted(site, node, disk, page, lines) {
        Ok(()) => settle(site, node, page, lines),
        Err(fault) => {
            // What they told is among the lines.
            page.held.truncate(0);
            Err(fault)
        }
    }
}

/// The hosted brokers start, and what is ready in one order then is told.
///
/// `Damaged` names the first publisher whose lanes hold no log, and `Disk` comes only where the disk failed in this
/// call; the lines of the brokers before are told then. `Memory` where memory is refused.
pub fn open<D: Disk>(
    site: &Site<'_>,
    node: &mut Node,
    disk: &mut D,
    gathered: &mut Gathered,
) -> Result<(), RunFault>
    requires hosted { AreHosted site.now.topo.now site.now.hosted.now }
    requires none { seen node.old ≡ none_started site.now.topo.now }
    requires empty { IsEmpty gathered.old }
    ensures opens { IsExact result → Opens site.now.topo.now site.now.hosted.now D.tells (seen node.new)
        gathered.new.lines.held (D.lane_of disk.old) result }
    ensures offers { gathered.new.offers ≡ [] }
    ensures serving { OnOk result
        (IsServing site.now.topo.now site.now.hosted.now D.tells (D.lane_of disk.new) (seen node.new)) }
    ensures starts { OpenKeeps site.now.topo.now site.now.hosted.now D.tells D.lane_of D.faults D.stops
        disk.old disk.new result }
{
    let done = start_and_settle(site, node, disk, &mut gathered.page, &mut gathered.lines);
    finish(done, &mut gathered.page, &mut gathered.lines)
}

/// A datagram that has come is taken at its broker; one for a broker elsewhere is passed over.
///
/// `Disk` comes only where the disk failed in this call; what was done before is gathered then. `Memory` where memory
/// is refused.
pub fn take_datagram<D: Disk>(
    site: &Site<'_>,
    node: &mut Node,
    b: u16,
    bytes: &[u8],
    moment: u64,
    disk: &mut D,
    gathered: &mut Gathered,
) -> Result<(), RunFault>
    requires serving { IsServing site.now.topo.now site.now.hosted.now D.tells (D.lane_of disk.old) (seen node.old) }
    requires empty { IsEmpty gathered.old }
    ensures bytes { IsOfBytes (datagram b bytes.now moment) }
    ensures went { IsExact result → (left : List Request) → Gathers site.now.topo.now site.now.hosted.now
        (led_to (net_of site.now.topo.now) site.now.hosted.now left (datagram b bytes.now moment))
        (at_arrival site.now.hosted.now (seen node.old) (datagram b bytes.now moment)) (seen node.new)
        gathered.new.lines.held gathered.new.offers result }
    ensures serving { OnOk result
        (IsServing site.now.topo.now site.now.hosted.now D.tells (D.lane_of disk.new) (seen node.new)) }
    ensures keeps { DiskKeeps site.now.topo.now site.now.hosted.now D.tells D.lane_of D.faults D.stops
        disk.old disk.new result }
    ensures kept { D.tells → (left : List Request) → ActsKeep site.now.topo.now site.now.hosted.now
        (at_arrival site.now.hosted.now (seen node.old) (datagram b bytes.now moment))
        (led_to (net_of site.now.topo.now) site.now.hosted.now left (datagram b bytes.now moment))
        (D.lane_of disk.old) (D.lane_of disk.new) }
    ensures cause { IfErr result IsCallFault }
{
    let done = datagram_comes(
        site,
        node,
        b,
        bytes,
        moment,
        disk,
        &mut gathered.offers,
        &mut gathered.page,
        &mut gathered.lines,
    );
    finish(done, &mut gathered.page, &mut gathered.lines)
}

/// A quiet moment that has come: the request at the place `next` of the steps is carried out, and each hosted broker is
/// woken.
///
/// `Disk` comes only where the disk failed in this call; what was done before is gathered then. `Memory` where memory
/// is refused.
pub fn take_quiet<D: Disk>(
    site: &Site<'_>,
    node: &mut Node,
    steps: &[Line],
    next: usize,
    moment: u64,
    disk: &mut D,
    gathered: &mut Gathered,
) -> Result<(), RunFault>
    requires asked { IsAsked site.now.topo.now site.now.hosted.now steps.now }
    requires serving { IsServing site.now.topo.now site.now.hosted.now D.tells (D.lane_of disk.old) (seen node.old) }
    requires first { IsFirst (net_of site.now.topo.now) site.now.hosted.now (drop next steps.now) }
    requires empty { IsEmpty gathered.old }
    ensures went { IsExact result → Gathers site.now.topo.now site.now.hosted.now
        (led_to (net_of site.now.topo.now) site.now.hosted.now
        (requests_of (net_of site.now.topo.now) site.now.hosted.now (drop next steps.now)) (quiet moment))
        (at_arrival site.now.hosted.now (seen node.old) (quiet moment)) (seen node.new)
        gathered.new.lines.held gathered.new.offers result }
    ensures serving { OnOk result
        (IsServing site.now.topo.now site.now.hosted.now D.tells (D.lane_of disk.new) (seen node.new)) }
    ensures keeps { DiskKeeps site.now.topo.now site.now.hosted.now D.tells D.lane_of D.faults D.stops
        disk.old disk.new result }
    ensures kept { D.tells → ActsKeep site.now.topo.now site.now.hosted.now
        (at_arrival site.now.hosted.now (seen node.old) (quiet moment))
        (led_to (net_of site.now.topo.now) site.now.hosted.now
        (requests_of (net_of site.now.topo.now) site.now.hosted.now (drop next steps.now)) (quiet moment))
        (D.lane_of disk.old) (D.lane_of disk.new) }
    ensures cause { IfErr result IsCallFault }
{
    let done = quiet_comes(
        site,
        node,
        steps,
        next,
        moment,
        disk,
        &mut gathered.offers,
        &mut gathered.page,
        &mut gathered.lines,
    );
    finish(done, &mut gathered.page, &mut gathered.lines)
}
