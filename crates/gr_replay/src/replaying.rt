//! A schedule is carried out over a disk, and its report is written.

ghost use Rattle.std.specs.Prelude.{◌≡◌, ◌≢◌, ℕ, ◌++◌, true, [], take, Err, IfOk, IfErr, OnOk, OnErr, IsErrOf};
ghost use Rattle.gr_out.specs.Bytes.{with_more};
ghost use Rattle.gr_out.specs.Faults.{Rose};
ghost use Rattle.gr_out.specs.Stops.{StaysFaultless};
ghost use Rattle.gr_publog.specs.Crash.{EitherRose};
ghost use Rattle.gr_model.specs.NetOf.{net_of};
ghost use Rattle.gr_model.specs.Orders.{AreOrdersOf};
ghost use Rattle.gr_model.specs.Text.{labels_of, report_text};
ghost use Rattle.gr_model.specs.World.{next, start_by};
ghost use Rattle.gr_world.specs.Seen.{net_in, world_of};
ghost use Rattle.gr_world.specs.Of.{LanesFit};
ghost use Rattle.gr_world.specs.Opened.{NoStops, AreEmpty, IsFirstDamaged};
ghost use Rattle.gr_out.specs.Page.{TakesBut};
ghost use Rattle.gr_scenario.specs.Steps.{AreStepsOf, IsStepOf};
ghost use Rattle.gr_out.specs.Page.{TakesFront};
ghost use Rattle.gr_report.specs.Named.{AllNamed, IsPutFault};
ghost use Rattle.gr_replay.specs.Replayed.{replayed_text};
ghost use Rattle.gr_replay.specs.Going.{IsGoing, IsOpeningFault, IsRunFault, NotDamagedRun, DiskCounts, step_text};
ghost use Rattle.gr_replay.specs.Going.{SinkCounts, text_from, with_ready, left_behind};
ghost use Rattle.gr_replay.specs.Over.{IsOver, ReplaysOver, AtMostCut};

use crate::ordering::put_step;
use crate::stepping::step;
use gr_model::topologies::every_topology_is_a_tree;
use gr_order_lists::Orders;
use gr_out::{Page, RunFault, SimDisk, Sink};
use gr_sched::{Line, Steps};
use gr_topo::Topology;
use gr_world::{World, WorldFault};
use std::alloc::Global;
use std::mem::forget;

/// Carries out the steps of a schedule over a disk, and writes its report to a sink: what the opening of the logs
/// tells, and the lines of each step in order, many lines in one call of the sink. A step that is refused tells so in
/// its line. Behind the lines of the opening, and of each step, stands what each subscriber that gets one list over all
/// publishers is told in it then.
///
/// `Memory` where memory is refused. `Write` only where the sink failed in this call. `Disk` only where the disk failed
/// in this call, and no stop that a step orders is such a failure; the lines of all steps before are written then.
/// `Damaged` where at the start the lanes of a publisher hold no log: the first such publisher, broker by broker, and
/// the place of the first fault.
/// `Post` never comes. After each fault the sink took a front of the report.
///
/// What the world and the lists hold at the end is left to the end of the process, which gives all of it back at once:
/// event by event that takes three to five parts of a hundred of the whole replay.
pub fn replay<K: Sink, D: SimDisk>(
    alloc: Global,
    topology: Topology,
    steps: &Steps,
    disk: &mut D,
    sink: &mut K,
) -> Result<(), RunFault>
    requires steps { AreStepsOf topology steps.now }
    requires stops { NoStops (D.lane_of disk.old) }
    // The sink took what the opening of the logs that the lanes hold tells, and what the machine's steps tell from the
    // world that was opened; after a fault nothing, or a front of it
    ensures over { OnOk result
        (ReplaysOver topology steps.now (D.lane_of disk.old) (K.taken sink.old) (K.taken sink.new)) }
    ensures over_front { OnErr result
        (AtMostCut topology steps.now (D.lane_of disk.old) (K.taken sink.old) (K.taken sink.new)) }
    // Over empty lanes that is the report of the machine, and nothing else
    ensures report { AreEmpty topology (D.lane_of disk.old)
        → OnOk result (K.taken sink.new ≡ with_more (K.taken sink.old) (replayed_text topology steps.now)) }
    // after a fault a front of it
    ensures front { AreEmpty topology (D.lane_of disk.old)
        → OnErr result (TakesFront (K.taken sink.old) (K.taken sink.new) (replayed_text topology steps.now)) }
    // where the disk failed, the lines of all steps before
    ensures before { AreEmpty topology (D.lane_of disk.old) → IsErrOf result RunFault.Disk
        → (k : ℕ) × (let text = replayed_text topology (take k steps.now) in
        K.taken sink.new ≡ with_more (K.taken sink.old) text) }
    ensures write { IsErrOf result RunFault.Write → Rose (K.faults sink.old) (K.faults sink.new) }
    ensures sink_same { result ≢ Err RunFault.Write → K.faults sink.new ≡ K.faults sink.old }
    ensures disk { IsErrOf result RunFault.Disk
        → EitherRose (D.faults disk.old) (D.faults disk.new) (D.stops disk.old) (D.stops disk.new) }
    ensures never_fails { D.faultless disk.old → result ≢ Err RunFault.Disk }
    ensures damaged { (p at : ℕ) → result ≡ Err (RunFault.Damaged p at)
        → IsFirstDamaged topology p at (D.lane_of disk.old) }
    ensures never_damaged { AreEmpty topology (D.lane_of disk.old)
        → (p at : ℕ) → result ≢ Err (RunFault.Damaged p at) }
    ensures never_post { result ≢ Err RunFault.Post }
{
    let mut world = match opened(alloc, topology, disk) {
        Ok(world) => world,
        Err(fault) => return Err(fault),
    };
    let mut orders = match Orders::new(alloc, world.topology()) {
        Ok(orders) => orders,
        Err(_) => return Err(RunFault::Memory),
    };
    let mut page = match first_page(alloc, &world, &mut orders, sink) {
        Ok(page) => page,
        Err(fault) => return Err(fault),
    };
    let done = run(
        alloc,
        &mut world,
        steps.as_slice(),
        disk,
        &mut orders,
        &mut page,
        sink,
    );
    forget(orders);
    forget(world);
    done
}

/// Opens the world of a topology over a disk on whose lanes no stop is ordered: each broker starts over the logs that
/// its lanes hold. The world stands ready for `step`.
///
/// `Memory` where memory is refused, `Disk` only where the disk failed in this call, `Damaged` where the lanes of a
/// publisher hold no log: the first such publisher, broker by broker, and the place of the first fault. No other fault
/// comes.
pub fn opened<D: SimDisk>(
    alloc: Global,
    topology: Topology,
    disk: &mut D,
) -> Result<World, RunFault>
    requires stops { NoStops (D.lane_of disk.old) }
    ensures topology { IfOk result (λ w. w.topo ≡ topology) }
    ensures over { IfOk result (IsOver topology (D.lane_of disk.old)) }
    ensures going { IfOk result IsGoing }
    ensures named { IfOk result (λ w. AllNamed w.topo w.told) }
    ensures fresh { AreEmpty topology (D.lane_of disk.old)
        → IfOk result (λ w. (world_of w ≡ start_by true (net_of topology)) × (w.told ≡ [])) }
    ensures cause { IfErr result IsOpeningFault }
    ensures damaged { (p at : ℕ) → result ≡ Err (RunFault.Damaged p at)
        → IsFirstDamaged topology p at (D.lane_of disk.old) }
    ensures undamaged { AreEmpty topology (D.lane_of disk.old) → NotDamagedRun result }
    ensures counts { DiskCounts (D.faults disk.old) (D.stops disk.old) (D.faults disk.new) (D.stops disk.new) result }
    ensures faultless { StaysFaultless (D.faultless disk.old) (D.faultless disk.new)
        (D.faults disk.old) (D.faults disk.new) }
    ensures never_fails { D.faultless disk.old → result ≢ Err RunFault.Disk }
    ensures lanes { IfOk result (λ w. LanesFit (D.lane_of disk.new) w) }
{
    every_topology_is_a_tree(&topology);
    match World::new(alloc, topology, disk) {
        Ok(world) => Ok(world),
        Err(fault) => match fault {
            WorldFault::Memory => Err(RunFault::Memory),
            WorldFault::Disk => Err(RunFault::Disk),
            WorldFault::Damaged { publisher, at } => Err(RunFault::Damaged { publisher, at }),
            WorldFault::Reopen => unreachable!(),
            WorldFault::HostsSubscriber { .. } => unreachable!(),
            WorldFault::NoFrame { .. } => unreachable!(),
            WorldFault::ClockRange { .. } => unreachable!(),
        },
    }
}

/// A page with what the opening of the logs told, and behind it what is ready then in the lists.
fn first_page<K: Sink>(
    alloc: Global,
    world: &World,
    orders: &mut Orders,
    sink: &mut K,
) -> Result<Page, RunFault>
    requires named { AllNamed world.now.topo world.now.told }
    requires orders { AreOrdersOf world.now.topo orders.old }
    ensures ok { IfOk result (λ page. TakesBut (K.taken sink.old) (K.taken sink.new)
        (report_text (labels_of world.now.topo) (with_ready orders.old world.now.told)) page.held) }
    ensures front { OnErr result (TakesFront (K.taken sink.old) (K.taken sink.new)
        (report_text (labels_of world.now.topo) (with_ready orders.old world.now.told))) }
    ensures left { OnOk result (orders.new ≡ left_behind orders.old world.now.told) }
    ensures only { IfErr result IsPutFault }
    ensures sink { SinkCounts (K.faults sink.old) (K.faults sink.new) result }
{
    let mut page = match Page::new(alloc) {
        Ok(page) => page,
        Err(_) => return Err(RunFault::Memory),
    };
    let told = match world.opened() {
        Ok(told) => told,
        Err(_) => return Err(RunFault::Memory),
    };
    match put_step(world.topology(), told.as_slice(), orders, &mut page, sink) {
        Ok(()) => Ok(page),
        Err(fault) => Err(fault),
    }
}

/// Carries out a step, and puts the lines that it tells, and behind them what is ready then in the lists. Where the
/// step fails, what the page holds is written before it is answered.
fn turn<K: Sink, D: SimDisk>(
    alloc: Global,
    world: &mut World,
    line: &Line,
    disk: &mut D,
    orders: &mut Orders,
    page: &mut Page,
    sink: &mut K,
) -> Result<(), RunFault>
    requires going { IsGoing world.old }
    requires step { IsStepOf world.old.topo line.now.step }
    requires lanes { LanesFit (D.lane_of disk.old) world.old }
    requires orders { AreOrdersOf world.old.topo orders.old }
    ensures leads { OnOk result (world_of world.new
        ≡ (next (net_in world.old) (world_of world.old) line.now).world) }
    ensures put { OnOk result (TakesBut (K.taken sink.old) (K.taken sink.new)
        (page.old.held ++ step_text world.old orders.old line.now) page.new.held) }
    ensures left { OnOk result (orders.new
        ≡ left_behind orders.old (next (net_in world.old) (world_of world.old) line.now).lines) }
    ensures front { OnErr result (TakesFront (K.taken sink.old) (K.taken sink.new)
        (page.old.held ++ step_text world.old orders.old line.now)) }
    ensures before { IsErrOf result RunFault.Disk → K.taken sink.new ≡ with_more (K.taken sink.old) page.old.held }
    ensures topology { world.new.topo ≡ world.old.topo }
    ensures going { OnOk result (IsGoing world.new) }
    ensures cause { IfErr result IsRunFault }
    ensures counts { DiskCounts (D.faults disk.old) (D.stops disk.old) (D.faults disk.new) (D.stops disk.new) result }
    ensures faultless { StaysFaultless (D.faultless disk.old) (D.faultless disk.new)
        (D.faults disk.old) (D.faults disk.new) }
    ensures never_fails { D.faultless disk.old → result ≢ Err RunFault.Disk }
    ensures lanes { LanesFit (D.lane_of disk.new) world.new }
    ensures sink { SinkCounts (K.faults sink.old) (K.faults sink.new) result }
{
    match step(alloc, world, disk, line) {
        Ok(lines) => {
            let done = put_step(world.topology(), lines.as_slice(), orders, page, sink);
            world.reuse(lines);
            done
        }
        Err(fault) => match page.flush(sink) {
            Ok(()) => Err(fault),
            Err(unwritten) => Err(unwritten),
        },
    }
}

/// Carries out steps over a world, and puts what they tell, and what the lists tell behind each, behind what the page
/// holds. At the end all is written.
fn run<K: Sink, D: SimDisk>(
    alloc: Global,
    world: &mut World,
    steps: &[Line],
    disk: &mut D,
    orders: &mut Orders,
    page: &mut Page,
    sink: &mut K,
) -> Result<(), RunFault>
    requires going { IsGoing world.old }
    requires steps { AreStepsOf world.old.topo steps.now }
    requires lanes { LanesFit (D.lane_of disk.old) world.old }
    requires orders { AreOrdersOf world.old.topo orders.old }
    ensures report { OnOk result (K.taken sink.new
        ≡ with_more (K.taken sink.old) (page.old.held ++ text_from world.old orders.old steps.now)) }
    ensures front { OnErr result (TakesFront (K.taken sink.old) (K.taken sink.new)
        (page.old.held ++ text_from world.old orders.old steps.now)) }
    ensures before { IsErrOf result RunFault.Disk → (k : ℕ) × (K.taken sink.new
        ≡ with_more (K.taken sink.old) (page.old.held ++ text_from world.old orders.old (take k steps.now))) }
    ensures cause { IfErr result IsRunFault }
    ensures counts { DiskCounts (D.faults disk.old) (D.stops disk.old) (D.faults disk.new) (D.stops disk.new) result }
    ensures never_fails { D.faultless disk.old → result ≢ Err RunFault.Disk }
    ensures sink { SinkCounts (K.faults sink.old) (K.faults sink.new) result }
{
    'steps: for line in steps {
        match turn(alloc, world, line, disk, orders, page, sink) {
            Ok(()) => {}
            Err(fault) => return Err(fault),
        }
    }
    page.flush(sink)
}
