//! The calls on a disk that append a record, and that close a lane and fill it anew.

ghost use Rattle.std.specs.Prelude.{◌≡◌, ◌⊎◌, ℕ, ◌+◌, ◌^◌, ◌<◌, ◌≤◌, List, length, drop, get_or, IsErr, OnOk};
ghost use Rattle.gr_out.specs.Lane.{content, moment, over, Torn, crash_image, LeftSince};
ghost use Rattle.gr_out.specs.declared.disk.Stop.TheVariants.{After};
ghost use Rattle.gr_publog.specs.declared.steps.Aside.TheVariants.{Opened};
ghost use Rattle.gr_publog.specs.Rewrite.{IsShut, IsStamped, filled};
ghost use Rattle.gr_publog.specs.Crash.{behind_gate, opened_gate, IsBetween, Broke, StoppedImage};
ghost use Rattle.gr_publog.specs.Steps.{StandsAs, put_calls, append_calls, closing_calls, rewriting_calls};
ghost use Rattle.gr_publog.specs.Uses.{IsSoleOn, LeavesSole, KeepsOn, CallsLane};

use crate::law::{filled_same, three_outcomes};
use gr_out::{Disk, Failed};

/// How a lane stands that is to be filled anew.
#[derive(Clone, Copy, Debug, PartialEq, Eq)]
pub enum Aside {
    /// It has at most 6 bytes.
    Short,
    /// It has more, and its byte 5 is 1.
    Opened,
    /// It has more, and its byte 5 is not 1.
    Closed,
}

/// Writes bytes behind a closed gate, and only once they are synced opens the gate.
pub(crate) fn append_behind<D: Disk>(
    disk: &mut D,
    lane: u16,
    gate: u64,
    bytes: &[u8],
) -> Result<(), Failed>
    requires fits { gate + 1 < 2 ^ 64 }
    requires within { D.tells → gate < length (content (D.lane_of disk.old lane)) }
    requires room { D.tells → gate + 1 + length bytes.now ≤ (D.lane_of disk.old lane).room }
    requires few { D.tells → 4 ≤ (D.lane_of disk.old lane).left }
    requires only { IsSoleOn D.tells (D.lane_of disk.old lane) }
    ensures written { let text = content (D.lane_of disk.old lane) in
        D.tells → OnOk result (content (D.lane_of disk.new lane) ≡ opened_gate gate (behind_gate gate bytes.now text)) }
    ensures only { LeavesSole D.tells (D.lane_of disk.new lane) result }
    ensures calls { let l = D.lane_of disk.old lane in
        D.tells → OnOk result ((D.lane_of disk.new lane).calls ≡ append_calls gate bytes.now l.calls) }
    ensures keeps { KeepsOn D.tells (D.lane_of disk.old lane) (D.lane_of disk.new lane) }
    ensures any_moment { let l = D.lane_of disk.old lane in D.tells → (image : List ℕ) →
        LeftSince (D.lane_of disk.new lane) (moment l) image → IsBetween gate bytes.now (content l) image }
    ensures picked { let l = D.lane_of disk.old lane in let l' = D.lane_of disk.new lane in D.tells →
        (call : ℕ) (pick : ℕ) → Broke l l' call pick →
        StoppedImage gate bytes.now (content l) call pick (crash_image l') }
    ensures breaks { D.tells →
        (call : ℕ) (pick : ℕ) → (D.lane_of disk.old lane).stop ≡ After call pick → call ≤ 4 → IsErr result }
    ensures left { D.tells → (D.lane_of disk.old lane).left ≤ (D.lane_of disk.new lane).left + 4 }
    ensures uses { CallsLane D.tells D.faultless D.lane_of D.faults D.stops lane disk.old disk.new result }
{
    disk.write_at(lane, gate + 1, bytes)?;
    // Behind a gate that opened first, a crash could leave anything.
    disk.sync(lane)?;
    disk.write_at(lane, gate, &[1])?;
    disk.sync(lane)
}

/// Writes bytes over a lane and syncs them.
pub(crate) fn put<D: Disk>(disk: &mut D, lane: u16, at: u64, bytes: &[u8]) -> Result<(), Failed>
    requires within { D.tells → at ≤ length (content (D.lane_of disk.old lane)) }
    requires room { D.tells → at + length bytes.now ≤ (D.lane_of disk.old lane).room }
    requires few { D.tells → 2 ≤ (D.lane_of disk.old lane).left }
    requires only { IsSoleOn D.tells (D.lane_of disk.old lane) }
    ensures written { let l = D.lane_of disk.old lane in
        D.tells → OnOk result (content (D.lane_of disk.new lane) ≡ over at bytes.now (content l)) }
    ensures only { LeavesSole D.tells (D.lane_of disk.new lane) result }
    ensures any_moment { let l = D.lane_of disk.old lane in D.tells → (n : ℕ) (image : List ℕ) →
        LeftSince (D.lane_of disk.new lane) n image
        → LeftSince l n image ⊎ Torn at (length bytes.now) (content l) image }
    ensures calls { let l = D.lane_of disk.old lane in
        D.tells → OnOk result ((D.lane_of disk.new lane).calls ≡ put_calls at bytes.now l.calls) }
    ensures keeps { KeepsOn D.tells (D.lane_of disk.old lane) (D.lane_of disk.new lane) }
    ensures left { D.tells → (D.lane_of disk.old lane).left ≤ (D.lane_of disk.new lane).left + 2 }
    ensures room { D.tells → (D.lane_of disk.new lane).room ≡ (D.lane_of disk.old lane).room }
    ensures uses { CallsLane D.tells D.faultless D.lane_of D.faults D.stops lane disk.old disk.new result }
{
    disk.write_at(lane, at, bytes)?;
    disk.sync(lane)
}

/// Shuts a lane that stands open, and stamps it.
fn close_open<D: Disk>(disk: &mut D, lane: u16) -> Result<(), Failed>
    requires long { D.tells → 6 < length (content (D.lane_of disk.old lane)) }
    requires opened { D.tells → get_or (content (D.lane_of disk.old lane)) 5 0 ≡ 1 }
    requires room { D.tells → 6 ≤ (D.lane_of disk.old lane).room }
    requires few { D.tells → 4 ≤ (D.lane_of disk.old lane).left }
    requires only { IsSoleOn D.tells (D.lane_of disk.old lane) }
    ensures stamped { D.tells → OnOk result (IsStamped (content (D.lane_of disk.new lane))) }
    ensures behind { let l = D.lane_of disk.old lane in
        D.tells → OnOk result (drop 6 (content (D.lane_of disk.new lane)) ≡ drop 6 (content l)) }
    ensures only { LeavesSole D.tells (D.lane_of disk.new lane) result }
    ensures any_moment { let l = D.lane_of disk.old lane in D.tells → (n : ℕ) (image : List ℕ) →
        LeftSince (D.lane_of disk.new lane) n image → LeftSince l n image ⊎ ((image ≡ content l) ⊎ IsShut image) }
    ensures calls { let l = D.lane_of disk.old lane in
        D.tells → OnOk result ((D.lane_of disk.new lane).calls ≡ closing_calls Opened l.calls) }
    ensures keeps { KeepsOn D.tells (D.lane_of disk.old lane) (D.lane_of disk.new lane) }
    ensures left { D.tells → (D.lane_of disk.old lane).left ≤ (D.lane_of disk.new lane).left + 4 }
    ensures room { D.tells → (D.lane_of disk.new lane).room ≡ (D.lane_of disk.old lane).room }
    ensures uses { CallsLane D.tells D.faultless D.lane_of D.faults D.stops lane disk.old disk.new result }
{
    // Proof only: what a crash leaves of each write.
    three_outcomes();
    put(disk, lane, 5, &[0])?;
    put(disk, lane, 0, b"GLOG\x02")
}

/// Shuts a lane and stamps it: `GLOG`, the version 2 and a gate that is not open. The gate of a longer lane that is
/// shut is not written, since a crash could leave it open, with what an earlier filling left behind it.
pub(crate) fn close<D: Disk>(disk: &mut D, lane: u16, aside: Aside) -> Result<(), Failed>
    requires aside { D.tells → StandsAs aside (content (D.lane_of disk.old lane)) }
    requires room { D.tells → 6 ≤ (D.lane_of disk.old lane).room }
    requires few { D.tells → 4 ≤ (D.lane_of disk.old lane).left }
    requires only { IsSoleOn D.tells (D.lane_of disk.old lane) }
    ensures stamped { D.tells → OnOk result (IsStamped (content (D.lane_of disk.new lane))) }
    ensures behind { let l = D.lane_of disk.old lane in
        D.tells → OnOk result (drop 6 (content (D.lane_of disk.new lane)) ≡ drop 6 (content l)) }
    ensures only { LeavesSole D.tells (D.lane_of disk.new lane) result }
    ensures any_moment { let l = D.lane_of disk.old lane in D.tells → (n : ℕ) (image : List ℕ) →
        LeftSince (D.lane_of disk.new lane) n image → LeftSince l n image ⊎ ((image ≡ content l) ⊎ IsShut image) }
    ensures calls { let l = D.lane_of disk.old lane in
        D.tells → OnOk result ((D.lane_of disk.new lane).calls ≡ closing_calls aside l.calls) }
    ensures keeps { KeepsOn D.tells (D.lane_of disk.old lane) (D.lane_of disk.new lane) }
    ensures left { D.tells → (D.lane_of disk.old lane).left ≤ (D.lane_of disk.new lane).left + 4 }
    ensures room { D.tells → (D.lane_of disk.new lane).room ≡ (D.lane_of disk.old lane).room }
    ensures uses { CallsLane D.tells D.faultless D.lane_of D.faults D.stops lane disk.old disk.new result }
{
    // Proof only: what a crash leaves of each write.
    three_outcomes();
    match aside {
        Aside::Short => put(disk, lane, 0, b"GLOG\x02\x00"),
        Aside::Closed => put(disk, lane, 0, b"GLOG\x02"),
        Aside::Opened => close_open(disk, lane),
    }
}

/// Closes a lane, puts a body behind its gate, and opens that. Whatever moment a crash comes at, it leaves the bytes
/// that were there, a shut lane, or the filled one.
pub(crate) fn rewrite<D: Disk>(
    disk: &mut D,
    lane: u16,
    aside: Aside,
    body: &[u8],
) -> Result<(), Failed>
    requires aside { D.tells → StandsAs aside (content (D.lane_of disk.old lane)) }
    requires room { D.tells → 6 + length body.now ≤ (D.lane_of disk.old lane).room }
    requires few { D.tells → 8 ≤ (D.lane_of disk.old lane).left }
    requires only { IsSoleOn D.tells (D.lane_of disk.old lane) }
    ensures written { let l = D.lane_of disk.old lane in
        D.tells → OnOk result (content (D.lane_of disk.new lane) ≡ filled body.now (content l)) }
    ensures only { LeavesSole D.tells (D.lane_of disk.new lane) result }
    ensures any_moment { let l = D.lane_of disk.old lane in D.tells → (n : ℕ) (image : List ℕ) →
        LeftSince (D.lane_of disk.new lane) n image
        → LeftSince l n image ⊎ ((image ≡ content l) ⊎ (IsShut image ⊎ (image ≡ filled body.now (content l)))) }
    ensures calls { let l = D.lane_of disk.old lane in
        D.tells → OnOk result ((D.lane_of disk.new lane).calls ≡ rewriting_calls aside body.now l.calls) }
    ensures keeps { KeepsOn D.tells (D.lane_of disk.old lane) (D.lane_of disk.new lane) }
    ensures left { D.tells → (D.lane_of disk.old lane).left ≤ (D.lane_of disk.new lane).left + 8 }
    ensures uses { CallsLane D.tells D.faultless D.lane_of D.faults D.stops lane disk.old disk.new result }
{
    // Proof only: what a crash leaves of each write.
    three_outcomes();
    filled_same();
    close(disk, lane, aside)?;
    put(disk, lane, 6, body)?;
    put(disk, lane, 5, &[1])
}
