//! What a broker's call sends and tells is taken up by the world.

ghost use Rattle.std.specs.Prelude.{◌≡◌, suc, ◌++◌, length, map, IfOk, OnOk, OnErr};
ghost use Rattle.gr_frame.specs.Bytes.{frame_bytes};
ghost use Rattle.gr_model.specs.Broker.{Outcome as MachineOutcome};
ghost use Rattle.gr_model.specs.World.{sent_lines};
ghost use Rattle.gr_broker_relay.specs.Told.{Tells};
ghost use Rattle.gr_world.specs.Taking.{Follows, FollowsReceipt, IsReceived, TakesUp};

use crate::fault::{Memory, WorldFault, world_fault};
use gr_broker::{BrokerFault, Dropped, Outcome, Received};
use gr_model::Reports;
use gr_store::FrameStore;
use std::alloc::{AllocError, Global};

/// Puts the frames of a broker's call behind those that were sent, and gives its lines and those of the frames. At want
/// of memory the frames are as they were.
pub(crate) fn take_up(frames: &mut FrameStore, told: Outcome) -> Result<Reports, Memory>
    ensures lines { (o : MachineOutcome) → Tells o told
        → IfOk result (λ lines. lines ≡ o.lines ++ sent_lines (suc (length frames.old)) o.frames) }
    ensures frames { (o : MachineOutcome) → Tells o told
        → OnOk result (frames.new ≡ frames.old ++ map frame_bytes o.frames) }
    ensures err { OnErr result (frames.new ≡ frames.old) }
{
    let mut lines = told.reports;
    let first = frames.len() as u64;
    // No memory holds more frames than there are numbers.
    let Some(_) = first.checked_add(told.frames.bytes().len() as u64) else {
        return Err(AllocError);
    };
    let sent = told.frames.tell(first, &mut lines)?;
    frames.append(&sent)?;
    frames.keep(sent);
    Ok(lines)
}

/// Takes up the answer of a broker's call. Its faults are passed on.
pub(crate) fn take_answer(
    frames: &mut FrameStore,
    answer: Result<Outcome, BrokerFault>,
) -> Result<Reports, WorldFault>
    ensures follows { Follows answer result }
    ensures takes { (o : MachineOutcome) → IfOk answer (Tells o)
        → TakesUp o frames.old frames.new result }
{
    match answer {
        Ok(told) => match take_up(frames, told) {
            Ok(lines) => Ok(lines),
            Err(_) => Err(WorldFault::Memory),
        },
        Err(fault) => Err(world_fault(fault)),
    }
}

/// Takes up what becomes of a frame that fits its receiver: it is taken, or it splits or clashes and is dropped, and
/// then nothing is told or sent.
pub(crate) fn take_receipt(
    alloc: Global,
    frames: &mut FrameStore,
    answer: Result<Received, Memory>,
) -> Result<Reports, WorldFault>
    requires { (o : MachineOutcome) × IfOk answer (IsReceived o) }
    ensures follows { FollowsReceipt answer result }
    ensures takes { (o : MachineOutcome) → IfOk answer (IsReceived o)
        → TakesUp o frames.old frames.new result }
{
    match answer {
        Ok(Received::Taken(told)) => match take_up(frames, told) {
            Ok(lines) => Ok(lines),
            Err(_) => Err(WorldFault::Memory),
        },
        Ok(Received::Dropped(Dropped::Split { .. } | Dropped::Clash { .. })) => Ok(Reports::new(
            alloc,
        )),
        Ok(Received::Dropped(_)) => unreachable!(),
        Err(_) => Err(WorldFault::Memory),
    }
}
