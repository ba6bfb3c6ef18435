//! Where bytes are kept, and what a crash leaves of them.

ghost use Rattle.std.specs.Prelude.{◌≡◌, ◌≢◌, ℕ, ◌+◌, ◌<◌, ◌≤◌, Bool, true, not, is_err, IsErr, length, take, drop};
ghost use Rattle.std.specs.Prelude.{IfOk, OnOk, OnErr, slice_range};
ghost use Rattle.gr_out.specs.Lane.{Lane, Write, Cut, Sync, content, after_call, with_room, with_stop, stop_at};
ghost use Rattle.gr_out.specs.Lane.{crashed, is_due, has_stopped, MayLeave};
ghost use Rattle.gr_out.specs.Stops.{StopCounts, StaysFaultless};

use crate::fault::{Failed, Memory};

/// A stop that was ordered for a lane.
#[derive(Clone, Copy, Debug, PartialEq, Eq)]
pub enum Stop {
    /// None.
    Unset,
    /// The write, cut or sync with this number from now on, at least 1, is to break.
    After { calls: u8, pick: u8 },
    /// It has broken a call, and each later call on the lane fails.
    Stopped { pick: u8 },
}

/// What becomes of a call on a lane.
#[derive(Clone, Copy, Debug, PartialEq, Eq)]
pub enum Fate {
    /// It is carried out.
    Done,
    /// It fails.
    Failed,
    /// The stop breaks it.
    Broken,
    /// It comes after the one that the stop broke.
    Lost,
}

/// Where bytes are kept, in lanes that have numbers.
///
/// A disk that tells what it holds tells each lane as the calls on it. Between two syncs of a lane each written range
/// and all past the old end may hold any bytes after a crash, other bytes stay, and the size is one between. After a
/// sync a crash leaves what a read gives. A failed write or cut counts for the images as one that was made, and a
/// failed sync as none.
///
/// Each call that answers `Failed` raised one of two counts: that of failures, or that of the calls that an ordered
/// stop broke. A call that answers anything else leaves both as they were. A disk of which no call is to fail by itself
/// stays such a disk, and its calls fail where an ordered stop breaks them and nowhere else.
pub trait Disk {
    /// That the disk tells what it holds.
    ghost tells: { Type 0 };

    /// That no call of it is to fail by itself: only an ordered stop may break one.
    ghost faultless: { Self → Type 0 };

    /// A lane by its number.
    ghost lane_of: { Self → ℕ → Lane };

    /// How many failures there were.
    ghost faults: { Self → ℕ };

    /// How many calls an ordered stop broke.
    ghost stops: { Self → ℕ };

    /// Makes room in a lane up to the place `size`, and for the next 16 writes, cuts and syncs there. After `Memory`
    /// nothing has changed.
    fn reserve(&mut self, lane: u16, size: u64) -> Result<(), Memory>
        ensures room { tells → OnOk result (lane_of self.new lane ≡ with_room size (lane_of self.old lane)) }
        ensures err { tells → OnErr result (lane_of self.new lane ≡ lane_of self.old lane) }
        ensures others { tells → (n : ℕ) → n ≢ lane → lane_of self.new n ≡ lane_of self.old n }
        ensures faults { faults self.new ≡ faults self.old }
        ensures stops { stops self.new ≡ stops self.old }
        ensures faultless { StaysFaultless (faultless self.old) (faultless self.new)
            (faults self.old) (faults self.new) };

    /// How many bytes a lane has.
    fn size(&mut self, lane: u16) -> Result<u64, Failed>
        ensures size { tells → IfOk result (λ n. n ≡ length (content (lane_of self.old lane))) }
        ensures same { tells → (n : ℕ) → lane_of self.new n ≡ lane_of self.old n }
        ensures cause { StopCounts (has_stopped (lane_of self.old lane).stop)
            (faults self.old) (faults self.new) (stops self.old) (stops self.new) result }
        ensures faultless { StaysFaultless (faultless self.old) (faultless self.new)
            (faults self.old) (faults self.new) }
        ensures by_stop { faultless self.old → IsErr result → has_stopped (lane_of self.old lane).stop ≡ true };

    /// Reads the bytes of a lane from a place on, as many as `into` has.
    fn read(&mut self, lane: u16, at: u64, into: &mut [u8]) -> Result<(), Failed>
        requires within { tells → at + length into.old ≤ length (content (lane_of self.old lane)) }
        ensures bytes { tells → OnOk result
            (into.new ≡ take (length into.old) (drop at (content (lane_of self.old lane)))) }
        ensures len { length into.new ≡ length into.old }
        ensures same { tells → (n : ℕ) → lane_of self.new n ≡ lane_of self.old n }
        ensures cause { StopCounts (has_stopped (lane_of self.old lane).stop)
            (faults self.old) (faults self.new) (stops self.old) (stops self.new) result }
        ensures faultless { StaysFaultless (faultless self.old) (faultless self.new)
            (faults self.old) (faults self.new) }
        ensures by_stop { faultless self.old → IsErr result → has_stopped (lane_of self.old lane).stop ≡ true };

    /// Writes bytes over what a lane has from a place on, and past its end.
    fn write_at(&mut self, lane: u16, at: u64, bytes: &[u8]) -> Result<(), Failed>
        requires within { tells → at ≤ length (content (lane_of self.old lane)) }
        requires room { tells → at + length bytes.now ≤ (lane_of self.old lane).room }
        requires few { tells → 0 < (lane_of self.old lane).left }
        ensures after { tells → lane_of self.new lane
            ≡ after_call (Write at bytes.now) (is_err result) (lane_of self.old lane) }
        ensures others { tells → (n : ℕ) → n ≢ lane → lane_of self.new n ≡ lane_of self.old n }
        ensures cause { StopCounts (is_due (lane_of self.old lane).stop)
            (faults self.old) (faults self.new) (stops self.old) (stops self.new) result }
        ensures faultless { StaysFaultless (faultless self.old) (faultless self.new)
            (faults self.old) (faults self.new) }
        ensures by_stop { faultless self.old → IsErr result → is_due (lane_of self.old lane).stop ≡ true };

    /// Cuts a lane to a length. A shorter one stays as it is.
    fn cut(&mut self, lane: u16, len: u64) -> Result<(), Failed>
        requires few { tells → 0 < (lane_of self.old lane).left }
        ensures after { tells → lane_of self.new lane ≡ after_call (Cut len) (is_err result) (lane_of self.old lane) }
        ensures others { tells → (n : ℕ) → n ≢ lane → lane_of self.new n ≡ lane_of self.old n }
        ensures cause { StopCounts (is_due (lane_of self.old lane).stop)
            (faults self.old) (faults self.new) (stops self.old) (stops self.new) result }
        ensures faultless { StaysFaultless (faultless self.old) (faultless self.new)
            (faults self.old) (faults self.new) }
        ensures by_stop { faultless self.old → IsErr result → is_due (lane_of self.old lane).stop ≡ true };

    /// After it, a crash leaves of a lane what a read gives.
    fn sync(&mut self, lane: u16) -> Result<(), Failed>
        requires few { tells → 0 < (lane_of self.old lane).left }
        ensures after { tells → lane_of self.new lane ≡ after_call Sync (is_err result) (lane_of self.old lane) }
        ensures others { tells → (n : ℕ) → n ≢ lane → lane_of self.new n ≡ lane_of self.old n }
        ensures cause { StopCounts (is_due (lane_of self.old lane).stop)
            (faults self.old) (faults self.new) (stops self.old) (stops self.new) result }
        ensures faultless { StaysFaultless (faultless self.old) (faultless self.new)
            (faults self.old) (faults self.new) }
        ensures by_stop { faultless self.old → IsErr result → is_due (lane_of self.old lane).stop ≡ true };
}

/// A disk that can be stopped at a chosen call, and whose crash leaves a chosen image.
pub trait SimDisk: Disk {
    /// Orders that the write, cut or sync of the lane with number `calls` from now on breaks, with the image that a
    /// crash then picks. It takes the place of an earlier stop. With `calls` 0 there is no stop any more.
    fn stop_after(&mut self, lane: u16, calls: u8, pick: u8)
        requires reserved { Self.tells → (Self.lane_of self.old lane).reserved ≡ true }
        ensures stop { Self.tells → Self.lane_of self.new lane
            ≡ with_stop (stop_at calls pick) (Self.lane_of self.old lane) }
        ensures others { Self.tells → (n : ℕ) → n ≢ lane → Self.lane_of self.new n ≡ Self.lane_of self.old n }
        ensures faults { Self.faults self.new ≡ Self.faults self.old }
        ensures stops { Self.stops self.new ≡ Self.stops self.old }
        ensures faultless { StaysFaultless (Self.faultless self.old) (Self.faultless self.new)
            (Self.faults self.old) (Self.faults self.new) };

    /// Whether the present stop of the lane has broken a call.
    fn stopped(&self, lane: u16) -> bool
        ensures { Self.tells → result ≡ has_stopped (Self.lane_of self.now lane).stop };

    /// Leaves of a lane the picked image, synced, and ends its stop. It is one of those that a crash may leave.
    fn crash(&mut self, lane: u16)
        ensures crashed { Self.tells → Self.lane_of self.new lane ≡ crashed (Self.lane_of self.old lane) }
        ensures image { Self.tells → MayLeave (Self.lane_of self.old lane) (content (Self.lane_of self.new lane)) }
        ensures others { Self.tells → (n : ℕ) → n ≢ lane → Self.lane_of self.new n ≡ Self.lane_of self.old n }
        ensures faults { Self.faults self.new ≡ Self.faults self.old }
        ensures stops { Self.stops self.new ≡ Self.stops self.old }
        ensures faultless { StaysFaultless (Self.faultless self.old) (Self.faultless self.new)
            (Self.faults self.old) (Self.faults self.new) };

    /// Each such disk tells what it holds.
    ghost told: { Self.Disk.tells };
}
