//! The hosted brokers start, in order, over the logs that their lanes hold.

ghost use Rattle.std.specs.Prelude.{◌≡◌, ◌≢◌, ℕ, ◌<◌, [], ◌∷◌, true, length, Err, IsSome, OnOk};
ghost use Rattle.gr_out.specs.Journal.{is_among};
ghost use Rattle.gr_node.specs.Seen.{seen, broker_in, none_started};
ghost use Rattle.gr_node.specs.Of.{AreHosted, IsSet, AllStand, OthersStay};
ghost use Rattle.gr_node.specs.Keeps.{IsDamagedHere};
ghost use Rattle.gr_node.specs.Lasting.{StartsKeep};
ghost use Rattle.gr_node.specs.Went.{outside, SinkMoves, DiskMoves};
ghost use Rattle.gr_node.specs.Starting.{Started, Found, IsFirstDamaged};

use crate::beginning::start_one;
use crate::node::{Node, Site};
use crate::ordering::put_heard;
use gr_out::{Disk, Page, RunFault, Sink};

/// Starts the hosted brokers, in order, and puts what that tells, which the subscribers that get one list over all
/// publishers hear.
///
/// `Damaged` names the first publisher, broker by broker, whose lanes hold no log, and `Disk` comes only where the disk
/// failed in this call; the lines of the brokers before are put then. `Memory` where memory is refused, and `Write`
/// only where the sink failed.
pub(crate) fn start_hosted<D: Disk, K: Sink>(
    site: &Site<'_>,
    node: &mut Node,
    disk: &mut D,
    page: &mut Page,
    sink: &mut K,
) -> Result<(), RunFault>
    requires hosted { AreHosted site.now.topo.now site.now.hosted.now }
    requires none { seen node.old ≡ none_started site.now.topo.now }
    ensures started { Started site.now.topo.now site.now.hosted.now (seen node.new)
        (outside (K.taken sink.old) page.old.held []) (outside (K.taken sink.new) page.new.held []) result }
    ensures set { OnOk result (IsSet site.now.topo.now site.now.hosted.now (seen node.new)) }
    // so far those that have started are there, and no others
    ensures short { (b : ℕ) → IsSome (broker_in (seen node.new) b) → is_among site.now.hosted.now b ≡ true }
    ensures count { length (seen node.new).brokers ≡ length site.now.topo.now.brokers }
    ensures offers { (seen node.new).offers ≡ 0 }
    ensures now { (seen node.new).now ≡ 0 }
    // what each has found is what its lanes held
    ensures found { D.tells → (b : ℕ) → IsSome (broker_in (seen node.new) b)
        → Found site.now.topo.now (seen node.new) (b ∷ []) (D.lane_of disk.old) }
    ensures stands { D.tells → AllStand (D.lane_of disk.new) (seen node.new) }
    ensures others { D.tells
        → OthersStay site.now.topo.now site.now.hosted.now (D.lane_of disk.old) (D.lane_of disk.new) }
    ensures kept { D.tells → StartsKeep site.now.topo.now.late (D.lane_of disk.old) (D.lane_of disk.new) }
    ensures damaged { D.tells → (p at : ℕ) → result ≡ Err (RunFault.Damaged p at)
        → IsFirstDamaged site.now.topo.now site.now.hosted.now p at (D.lane_of disk.old) }
    ensures damaged_here { IsDamagedHere site.now.topo.now site.now.hosted.now result }
    ensures never_post { result ≢ Err RunFault.Post }
    ensures disk { DiskMoves (D.faults disk.old) (D.stops disk.old) (D.faults disk.new) (D.stops disk.new) result }
    ensures sink { SinkMoves (K.faults sink.old) (K.faults sink.new) result }
{
    'brokers: for b in site.hosted {
        let started = match start_one(site, *b, disk) {
            Ok(started) => started,
            Err(fault) => return Err(fault),
        };
        node.brokers[*b as usize] = Some(started.broker);
        match put_heard(
            site.topo,
            started.outcome.reports.as_slice(),
            &mut node.orders,
            page,
            sink,
        ) {
            Ok(()) => {}
            Err(fault) => return Err(fault),
        }
    }
    Ok(())
}
