//! Cuts of a log.

ghost use Rattle.std.specs.Prelude.{◌≡◌, ◌≤◌, ◌<◌, Some, IfOk};
ghost use Rattle.gr_out.specs.Lane.{has_stopped};
ghost use Rattle.gr_publog.specs.Views.{failed, lanes_at, IsReady};
ghost use Rattle.gr_publog.specs.Calls.{ReopensBroken, Leaves, LeavesDisk};
ghost use Rattle.gr_pubend.specs.Cuts.{Cuts, cut_view, cutting_of, cut_lane};

use gr_out::Disk;
use gr_publog::{Log, LogFault, Record};
use gr_tick::MAX_TICK;

/// How a log is cut.
#[derive(Clone, Copy, Debug, PartialEq, Eq)]
pub enum Cutting {
    /// By a record.
    Recorded,
    /// By writing what it then holds into its other lane.
    Reclaimed {
        /// The generation of that lane.
        generation: u64,
    },
}

/// How a cut of a log would be made: from `reclaim` bytes of its text on, what it then holds is written into the other
/// lane, while a generation is left. Takes no memory.
pub fn plan_cut(log: &Log, reclaim: u32) -> Cutting
    ensures { result ≡ cutting_of log.now reclaim }
{
    let generation = log.generation();
    if log.text_size() < reclaim as u64 || generation == MAX_TICK {
        return Cutting::Recorded;
    }
    Cutting::Reclaimed {
        generation: generation + 1,
    }
}

/// Cuts a log at a tick, as `plan_cut` says. `Ok` comes once the cut is synced. After `Memory` nothing has changed.
/// After `Disk` the log has to be opened again, and answers `Reopen` from then on. It never answers `Damaged`.
pub fn cut_log<D: Disk>(
    log: &mut Log,
    disk: &mut D,
    tick: u64,
    reclaim: u32,
) -> Result<Cutting, LogFault>
    requires past { log.old.state.cut < tick }
    requires upto { tick ≤ log.old.state.settled }
    requires stands { D.tells → IsReady log.old (lanes_at (D.lane_of disk.old) log.old.lane) }
    ensures answer { IfOk result (λ c. c ≡ cutting_of log.old reclaim) }
    ensures log { Leaves log.old (cut_view reclaim tick log.old) (failed log.old) log.new result }
    ensures lanes { let l = log.old in let before = lanes_at (D.lane_of disk.old) l.lane in
        D.tells → Cuts l (Some tick) reclaim before (lanes_at (D.lane_of disk.new) l.lane) result }
    ensures reopen { ReopensBroken log.old result }
    ensures disk { let l = log.old in let stopped = has_stopped (D.lane_of disk.new (cut_lane l reclaim)).stop in
        LeavesDisk D.tells D.faultless D.lane_of D.faults D.stops l.lane stopped disk.old disk.new result }
{
    match plan_cut(log, reclaim) {
        Cutting::Recorded => match log.append(disk, &Record::Cut { tick }) {
            Ok(()) => Ok(Cutting::Recorded),
            Err(fault) => Err(fault),
        },
        Cutting::Reclaimed { .. } => match log.reclaim(disk, tick) {
            Ok(generation) => Ok(Cutting::Reclaimed { generation }),
            Err(fault) => Err(fault),
        },
    }
}
