//! The two lanes of a publisher's log, as one: a stop is ordered on both, and both crash.

ghost use Rattle.std.specs.Prelude.{◌≡◌, ℕ, ◌<◌};
ghost use Rattle.gr_out.specs.Lane.{stop_at};
ghost use Rattle.gr_publog.specs.Views.{lanes_at, AwayFrom};
ghost use Rattle.gr_broker.specs.Lanes.{log_lane, either_stopped};
ghost use Rattle.gr_world.specs.Lanes.{AreReserved, with_stops, crashed_lanes};
ghost use Rattle.gr_world.specs.Disk.{KeepsCounts};

use gr_broker::log_lane;
use gr_out::SimDisk;

/// Orders a stop on both lanes: a publish calls the one that is present. With 0 calls what was ordered is ended.
pub(crate) fn stop_both<D: SimDisk>(disk: &mut D, publisher: u16, calls: u8, pick: u8)
    requires publisher { publisher < 32768 }
    requires reserved { AreReserved (lanes_at (D.lane_of disk.old) (log_lane publisher)) }
    ensures both { lanes_at (D.lane_of disk.new) (log_lane publisher)
        ≡ with_stops (stop_at calls pick) (lanes_at (D.lane_of disk.old) (log_lane publisher)) }
    ensures others { (n : ℕ) → AwayFrom (log_lane publisher) n → D.lane_of disk.new n ≡ D.lane_of disk.old n }
    ensures counts { KeepsCounts D.faultless D.faults D.stops disk.old disk.new }
{
    let lane = log_lane(publisher);
    disk.stop_after(lane, calls, pick);
    disk.stop_after(lane + 1, calls, pick);
}

/// Whether a stop has broken a call on one of the two.
pub(crate) fn is_stopped<D: SimDisk>(disk: &D, publisher: u16) -> bool
    requires { publisher < 32768 }
    ensures { result ≡ either_stopped (lanes_at (D.lane_of disk.now) (log_lane publisher)) }
{
    let lane = log_lane(publisher);
    if disk.stopped(lane) {
        return true;
    }
    disk.stopped(lane + 1)
}

/// Crashes both. Of the one that was not called the crash leaves what it reads.
pub(crate) fn crash_both<D: SimDisk>(disk: &mut D, publisher: u16)
    requires { publisher < 32768 }
    ensures both { lanes_at (D.lane_of disk.new) (log_lane publisher)
        ≡ crashed_lanes (lanes_at (D.lane_of disk.old) (log_lane publisher)) }
    ensures others { (n : ℕ) → AwayFrom (log_lane publisher) n → D.lane_of disk.new n ≡ D.lane_of disk.old n }
    ensures counts { KeepsCounts D.faultless D.faults D.stops disk.old disk.new }
{
    let lane = log_lane(publisher);
    disk.crash(lane);
    disk.crash(lane + 1);
}
