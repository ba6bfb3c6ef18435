//! A record is put behind the gate of a lane.

ghost use Rattle.std.specs.Prelude.{◌≡◌, ◌+◌, ◌<◌, ◌++◌, ◌∷◌, [], length, IfOk};
ghost use Rattle.gr_out.specs.Lane.{content};
ghost use Rattle.gr_publog.specs.State.{IsSound};
ghost use Rattle.gr_publog.specs.Text.{record_bytes, record_size};
ghost use Rattle.gr_publog.specs.Crash.{GaveUp};
ghost use Rattle.gr_publog.specs.Steps.{Extends};
ghost use Rattle.gr_publog.specs.Uses.{IsSoleOn, ChangesLane};

use crate::record::{LogFault, Memory, Record};
use crate::steps::append_behind;
use gr_out::Disk;
use smallvec::SmallVec;
use std::alloc::Global;

/// The greatest place of a gate behind which a record is appended, 2^62. A log whose gate stands past it answers want
/// of memory.
pub(crate) const LAST_GATE: u64 = 1 << 62;

/// How many bytes an event's record has beside the event, with the gate behind it.
const EVENT_ROOM: usize = 22;

/// The bytes of a record, and a closed gate behind them. Those of a short one take no memory.
type RecordText = SmallVec<u8, 96>;

/// The bytes of a record, and a closed gate behind them.
fn record_text(alloc: Global, entry: &Record) -> Result<RecordText, Memory>
    ensures text { IfOk result (λ v. v.items ≡ record_bytes entry.now ++ 0 ∷ []) }
{
    let mut bytes = RecordText::new(alloc);
    match entry {
        Record::Event {
            tick,
            number,
            event,
        } => {
            let form = event.bytes();
            bytes.reserve(EVENT_ROOM + form.len())?;
            let [t0, t1, t2, t3, t4, t5, t6, t7] = tick.to_be_bytes();
            let [n0, n1, n2, n3, n4, n5, n6, n7] = number.to_be_bytes();
            let [s0, s1, s2, s3] = (event.size() as u32).to_be_bytes();
            bytes.extend_from_slice(&[
                1, t0, t1, t2, t3, t4, t5, t6, t7, n0, n1, n2, n3, n4, n5, n6, n7, s0, s1, s2, s3,
            ])?;
            bytes.extend_from_slice(form)?;
        }
        Record::Mark { tick } => {
            bytes.push(2)?;
            bytes.extend_from_slice(&tick.to_be_bytes())?;
        }
        Record::Cut { tick } => {
            bytes.push(3)?;
            bytes.extend_from_slice(&tick.to_be_bytes())?;
        }
        Record::Join { tick, subscriber } => {
            bytes.push(4)?;
            bytes.extend_from_slice(&tick.to_be_bytes())?;
            bytes.extend_from_slice(&subscriber.to_be_bytes())?;
        }
    }
    bytes.push(0)?;
    Ok(bytes)
}

/// Says of a record that it is sound, and does nothing.
pub(crate) fn is_sound(entry: &Record)
    ensures { IsSound entry.now }
{
    match entry {
        Record::Event { number, event, .. } => {
            let _ = (*number, event.size());
        }
        Record::Mark { .. } => {}
        Record::Cut { .. } => {}
        Record::Join { tick, subscriber } => {
            let _ = (*tick, *subscriber);
        }
    }
}

/// Puts a record behind the closed gate of a lane, opens that, and answers how long the text is then. Want of
/// memory comes before the first call.
pub(crate) fn append_at<D: Disk>(
    alloc: Global,
    disk: &mut D,
    lane: u16,
    gate: u64,
    entry: &Record,
) -> Result<u64, LogFault>
    requires within { D.tells → gate < length (content (D.lane_of disk.old lane)) }
    requires only { IsSoleOn D.tells (D.lane_of disk.old lane) }
    ensures extends { let l = D.lane_of disk.old lane in
        D.tells → Extends gate (record_bytes entry.now ++ 0 ∷ []) l (D.lane_of disk.new lane) result }
    ensures size { IfOk result (λ n. n ≡ gate + 2 + record_size entry.now) }
    ensures gave_up { GaveUp result }
    ensures uses { ChangesLane D.tells D.faultless D.lane_of D.faults D.stops lane disk.old disk.new result }
{
    let bytes = match record_text(alloc, entry) {
        Ok(bytes) => bytes,
        Err(_) => return Err(LogFault::Memory),
    };
    if gate > LAST_GATE {
        return Err(LogFault::Memory);
    }
    let size = gate + 1 + bytes.len() as u64;
    match disk.reserve(lane, size) {
        Ok(()) => {}
        Err(_) => return Err(LogFault::Memory),
    }
    match append_behind(disk, lane, gate, bytes.as_slice()) {
        Ok(()) => Ok(size),
        Err(_) => Err(LogFault::Disk),
    }
}
