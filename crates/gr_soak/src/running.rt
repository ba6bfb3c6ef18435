//! The soak's scenario is carried out, and counted as it goes.

ghost use Rattle.std.specs.Prelude.{◌≡◌, ◌≢◌, ◌<◌, ◌≤◌, IfOk, IfErr, OnOk, OnErr, Err, IsErrOf};
ghost use Rattle.gr_out.specs.Bytes.{with_more};
ghost use Rattle.gr_out.specs.Faults.{Rose};
ghost use Rattle.gr_out.specs.Page.{TakesFront};
ghost use Rattle.gr_model.specs.NetOf.{net_of};
ghost use Rattle.gr_model.specs.World.{report_of, run_from};
ghost use Rattle.gr_world.specs.Seen.{net_in, world_of};
ghost use Rattle.gr_world.specs.Of.{LanesFit};
ghost use Rattle.gr_scenario.specs.Steps.{AreStepsOf};
ghost use Rattle.gr_report.specs.Named.{IsPutFault};
ghost use Rattle.gr_replay.specs.Going.{IsGoing};
ghost use Rattle.gr_replay.specs.Replayed.{all_lines};
ghost use Rattle.std.specs.List.{count_by};
ghost use Rattle.gr_soak.specs.Summary.{is_logged, is_got, last_lines, summary_of};
ghost use Rattle.gr_soak.specs.Report.{summary_text, soak_report};

use crate::law::soaks_are_scenarios;
use crate::summary::{Summary, behind_in, frames_in, got_in, kept_in, logged_in, summary_text};
use crate::text::{MAX_TURNS, soak_text};
use gr_event::Text;
use gr_model::Reports;
use gr_out::{MemDisk, Memory, RunFault, SimDisk, Sink, write_all};
use gr_replay::{opened, step};
use gr_scenario::{Asked, read};
use gr_sched::{Line, Steps};
use gr_topo::Topology;
use gr_world::World;
use std::alloc::{AllocError, Global};

/// Carries out the scenario of a soak of `n` turns over a disk in memory, and prints counts over its report: nine
/// lines, in one write.
///
/// `Memory` where memory is refused. `Write` only where the sink failed in this call. After either the sink took a
/// front of the lines.
pub fn soak<K: Sink>(alloc: Global, n: u64, sink: &mut K) -> Result<(), RunFault>
    requires range { (1 ≤ n) × (n ≤ MAX_TURNS) }
    ensures printed { OnOk result (K.taken sink.new ≡ with_more (K.taken sink.old) (soak_report n)) }
    ensures front { OnErr result (TakesFront (K.taken sink.old) (K.taken sink.new) (soak_report n)) }
    ensures only { IfErr result IsPutFault }
    ensures write { IsErrOf result RunFault.Write → Rose (K.faults sink.old) (K.faults sink.new) }
    ensures same { result ≢ Err RunFault.Write → K.faults sink.new ≡ K.faults sink.old }
{
    let lines = match soak_lines(alloc, n) {
        Ok(lines) => lines,
        Err(_) => return Err(RunFault::Memory),
    };
    match write_all(sink, lines.as_slice()) {
        Ok(()) => Ok(()),
        Err(_) => Err(RunFault::Write),
    }
}

/// The lines that a soak of `n` turns prints.
fn soak_lines(alloc: Global, n: u64) -> Result<Text, Memory>
    requires { (1 ≤ n) × (n ≤ MAX_TURNS) }
    ensures { IfOk result (λ lines. lines ≡ soak_report n) }
{
    let text = soak_text(alloc, n)?;
    // Proof only: the text reads as a scenario.
    soaks_are_scenarios();
    match read(alloc, text.as_slice())? {
        Asked::Scenario { topology, steps } => {
            let summary = summary_of(alloc, topology, &steps)?;
            summary_text(alloc, n, &summary)
        }
        Asked::TooManyBytes | Asked::TooManySteps | Asked::Refused(_) => unreachable!(),
    }
}

/// Carries out steps over a topology, with logs that are kept in memory, and counts over their report.
///
/// Steps that end with no show leave `frames`, `behind` and `kept` at 0, since these are counted in the lines of the
/// last step. Want of memory is the only error.
pub fn summary_of(alloc: Global, topology: Topology, steps: &Steps) -> Result<Summary, Memory>
    requires { AreStepsOf topology steps.now }
    ensures { IfOk result (λ s. s ≡ summary_of (report_of (net_of topology) steps.now)) }
{
    let mut disk = MemDisk::new(alloc, &[])?;
    let mut world = match opened(alloc, topology, &mut disk) {
        Ok(world) => world,
        Err(RunFault::Memory) => return Err(AllocError),
        // A disk in memory that starts empty, and of which no call is to fail.
        Err(RunFault::Disk | RunFault::Damaged { .. } | RunFault::Write | RunFault::Post) => {
            unreachable!()
        }
    };
    let told = carry_out(alloc, &mut world, steps.as_slice(), &mut disk)?;
    let shown = told.shown.as_slice();
    Ok(Summary {
        logged: told.logged,
        frames: frames_in(shown),
        got: told.got,
        behind: behind_in(shown),
        kept: kept_in(shown),
    })
}

/// What is kept of the lines that steps told: how many log an event, how many hand one to a subscriber, and the lines
/// of the last step.
#[derive(Drop)]
struct Told {
    logged: u128,
    got: u128,
    shown: Reports,
}

/// Carries out steps over a world, on a disk of which no call fails by itself.
fn carry_out<D: SimDisk>(
    alloc: Global,
    world: &mut World,
    steps: &[Line],
    disk: &mut D,
) -> Result<Told, Memory>
    requires going { IsGoing world.old }
    requires steps { AreStepsOf world.old.topo steps.now }
    requires lanes { LanesFit (D.lane_of disk.old) world.old }
    requires faultless { D.faultless disk.old }
    ensures logged { IfOk result (λ t. t.logged
        ≡ count_by is_logged (all_lines (run_from (net_in world.old) (world_of world.old) steps.now))) }
    ensures got { IfOk result (λ t. t.got
        ≡ count_by is_got (all_lines (run_from (net_in world.old) (world_of world.old) steps.now))) }
    ensures shown { IfOk result (λ t. t.shown
        ≡ last_lines (run_from (net_in world.old) (world_of world.old) steps.now)) }
{
    let mut logged = 0;
    let mut got = 0;
    let mut shown = Reports::new(alloc);
    'steps: for line in steps {
        let told = match step(alloc, world, disk, line) {
            Ok(told) => told,
            Err(RunFault::Memory) => return Err(AllocError),
            // The disk fails in no step.
            Err(RunFault::Disk | RunFault::Damaged { .. } | RunFault::Write | RunFault::Post) => {
                unreachable!()
            }
        };
        logged += logged_in(told.as_slice());
        got += got_in(told.as_slice());
        shown = told;
    }
    Ok(Told { logged, got, shown })
}
