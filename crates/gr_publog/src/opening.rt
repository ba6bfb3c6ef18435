//! Two lanes are synced, and their heads are read.

ghost use Rattle.std.specs.Prelude.{◌≡◌, ◌⊎◌, ℕ, ◌+◌, ◌^◌, ◌<◌, ◌≤◌, List, length, take, true, Ok, OnOk, IfOk};
ghost use Rattle.std.specs.Prelude.{◌∷◌, min, MatchResult};
ghost use Rattle.gr_out.specs.Lane.{content, moment, LeftSince, MayLeave, Sync};
ghost use Rattle.gr_out.specs.declared.disk.Stop.TheVariants.{Unset};
ghost use Rattle.gr_publog.specs.Text.{standing_of, IsStanding};
ghost use Rattle.gr_publog.specs.Lanes.{present_of};
ghost use Rattle.gr_publog.specs.Steps.{GoesOn};
ghost use Rattle.gr_publog.specs.Gives.{Tells, IsNoReopen};
ghost use Rattle.gr_publog.specs.Views.{lanes_at};
ghost use Rattle.gr_publog.specs.Opens.{Surveys, AreHeads, aside_by};
ghost use Rattle.gr_publog.specs.Crash.{GaveUp};
ghost use Rattle.gr_publog.specs.Uses.{LeavesSole, ChangesLane, ReadsLane, UsesLanes};

use crate::head::{Standing, head_in};
use crate::law::shut_is;
use crate::record::LogFault;
use crate::steps::Aside;
use gr_out::Disk;
use gr_out::law::may_leave_what_it_reads;
use std::alloc::Global;

/// Makes room for a head in a lane and syncs it.
pub(crate) fn ready_lane<D: Disk>(disk: &mut D, lane: u16) -> Result<(), LogFault>
    ensures content { D.tells → content (D.lane_of disk.new lane) ≡ content (D.lane_of disk.old lane) }
    ensures on { D.tells → GoesOn (D.lane_of disk.old lane) (D.lane_of disk.new lane) }
    ensures only { LeavesSole D.tells (D.lane_of disk.new lane) result }
    ensures calls { let l = D.lane_of disk.old lane in
        D.tells → OnOk result ((D.lane_of disk.new lane).calls ≡ Sync ∷ l.calls) }
    ensures any_moment { let l = D.lane_of disk.old lane in D.tells → (image : List ℕ) →
        LeftSince (D.lane_of disk.new lane) (moment l) image → MayLeave l image ⊎ (image ≡ content l) }
    ensures reserved { D.tells → OnOk result ((D.lane_of disk.new lane).reserved ≡ true) }
    ensures unset { D.tells → (D.lane_of disk.old lane).stop ≡ Unset → (D.lane_of disk.new lane).stop ≡ Unset }
    ensures gave_up { GaveUp result }
    ensures uses { ChangesLane D.tells D.faultless D.lane_of D.faults D.stops lane disk.old disk.new result }
{
    match disk.reserve(lane, 6) {
        Ok(()) => {}
        Err(_) => return Err(LogFault::Memory),
    }
    match disk.sync(lane) {
        Ok(()) => Ok(()),
        Err(_) => Err(LogFault::Disk),
    }
}

/// How many bytes a lane has.
fn size_of<D: Disk>(disk: &mut D, lane: u16) -> Result<u64, LogFault>
    ensures size { D.tells → IfOk result (λ n. n ≡ length (content (D.lane_of disk.old lane))) }
    ensures gave_up { GaveUp result }
    ensures uses { ReadsLane D.tells D.faultless D.lane_of D.faults D.stops lane disk.old disk.new result }
{
    match disk.size(lane) {
        Ok(size) => Ok(size),
        Err(_) => Err(LogFault::Disk),
    }
}

/// The first bytes of a lane.
pub(crate) fn bytes_in<D: Disk>(
    alloc: Global,
    disk: &mut D,
    lane: u16,
    len: u64,
) -> Result<Vec<u8>, LogFault>
    requires { D.tells → len ≤ length (content (D.lane_of disk.old lane)) }
    ensures bytes { D.tells → IfOk result (λ v. v.items ≡ take len (content (D.lane_of disk.old lane))) }
    ensures len { IfOk result (λ v. length v.items ≡ len) }
    ensures gave_up { GaveUp result }
    ensures uses { ReadsLane D.tells D.faultless D.lane_of D.faults D.stops lane disk.old disk.new result }
{
    let mut bytes = Vec::new(alloc);
    match bytes.resize(len as usize, 0) {
        Ok(()) => {}
        Err(_) => return Err(LogFault::Memory),
    }
    match disk.read(lane, 0, &mut bytes) {
        Ok(()) => Ok(bytes),
        Err(_) => Err(LogFault::Disk),
    }
}

/// How many bytes a lane's head has, in a lane of so many bytes.
fn front_of(size: u64) -> u64
    ensures { result ≡ min size 14 }
{
    if size < 14 { size } else { 14 }
}

/// How a lane of so many bytes stands, the first one of two or the second. At most its first 14 bytes are read.
fn head_of<D: Disk>(
    alloc: Global,
    disk: &mut D,
    lane: u16,
    first: bool,
    size: u64,
) -> Result<Standing, LogFault>
    requires { D.tells → size ≡ length (content (D.lane_of disk.old lane)) }
    ensures gives { let read = standing_of first (content (D.lane_of disk.old lane)) in
        D.tells → MatchResult result (λ x. read ≡ Ok x) (λ e. Tells e read) }
    ensures sound { IfOk result (λ x. IsStanding size x) }
    ensures never_reopen { IsNoReopen result }
    ensures uses { ReadsLane D.tells D.faultless D.lane_of D.faults D.stops lane disk.old disk.new result }
{
    // Proof only: what a shut lane is.
    shut_is();
    if size <= 6 {
        return Ok(Standing::Shut);
    }
    let front = match bytes_in(alloc, disk, lane, front_of(size)) {
        Ok(front) => front,
        Err(fault) => return Err(fault),
    };
    head_in(first, size, &front)
}

/// Makes room for a head in both lanes and syncs them.
pub(crate) fn sync_lanes<D: Disk>(disk: &mut D, lane: u16) -> Result<(), LogFault>
    requires two { lane + 1 < 2 ^ 16 }
    ensures surveys { D.tells →
        Surveys (lanes_at (D.lane_of disk.old) lane) (lanes_at (D.lane_of disk.new) lane) result }
    ensures gave_up { GaveUp result }
    ensures uses { UsesLanes D.tells D.faultless D.lane_of D.faults D.stops lane disk.old disk.new result }
{
    // Proof only: what a lane reads is what a crash may leave of it.
    may_leave_what_it_reads();
    match ready_lane(disk, lane) {
        Ok(()) => {}
        Err(fault) => return Err(fault),
    }
    ready_lane(disk, lane + 1)
}

/// How two lanes stand, and how many bytes each has.
#[derive(Clone, Copy, Debug, PartialEq, Eq)]
pub struct Heads {
    /// How the first one stands.
    pub first: Standing,
    /// Its bytes.
    pub first_size: u64,
    /// How the second one stands.
    pub second: Standing,
    /// Its bytes.
    pub second_size: u64,
}

/// How both lanes stand. Of each at most its first 14 bytes are read, those of the first one before those of the
/// second.
pub(crate) fn heads_of<D: Disk>(alloc: Global, disk: &mut D, lane: u16) -> Result<Heads, LogFault>
    requires two { lane + 1 < 2 ^ 16 }
    ensures gives { let ls = lanes_at (D.lane_of disk.old) lane in D.tells →
        MatchResult result (λ h. AreHeads h (content ls.first) (content ls.second))
        (λ e. Tells e (present_of (content ls.first) (content ls.second))) }
    ensures sound { IfOk result (λ h. IsStanding h.first_size h.first × IsStanding h.second_size h.second) }
    ensures lanes { D.tells → (n : ℕ) → D.lane_of disk.new n ≡ D.lane_of disk.old n }
    ensures never_reopen { IsNoReopen result }
    ensures uses { UsesLanes D.tells D.faultless D.lane_of D.faults D.stops lane disk.old disk.new result }
{
    let first_size = match size_of(disk, lane) {
        Ok(size) => size,
        Err(fault) => return Err(fault),
    };
    let second_size = match size_of(disk, lane + 1) {
        Ok(size) => size,
        Err(fault) => return Err(fault),
    };
    let first = match head_of(alloc, disk, lane, true, first_size) {
        Ok(standing) => standing,
        Err(fault) => return Err(fault),
    };
    let second = match head_of(alloc, disk, lane + 1, false, second_size) {
        Ok(standing) => standing,
        Err(fault) => return Err(fault),
    };
    Ok(Heads {
        first,
        first_size,
        second,
        second_size,
    })
}

/// How a lane stands that is to be filled anew, or remembered.
pub(crate) fn aside_by(size: u64, standing: Standing) -> Aside
    ensures { result ≡ aside_by size standing }
{
    if size <= 6 {
        return Aside::Short;
    }
    match standing {
        Standing::Shut => Aside::Closed,
        Standing::Old => Aside::Opened,
        Standing::New(_) => Aside::Opened,
    }
}
