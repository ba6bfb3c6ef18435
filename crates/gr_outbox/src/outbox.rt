//! Frames in their bytes, each with what it says until its line is told.

ghost use Rattle.std.specs.Prelude.{◌≡◌, ◌+◌, ◌<◌, ◌^◌, ◌++◌, [], suc, List, map, length, IfOk, OnOk};
ghost use Rattle.gr_frame.specs.declared.Frame.{Frame as MachineFrame};
ghost use Rattle.gr_frame.specs.Bytes.{frame_bytes};
ghost use Rattle.gr_frame.specs.Cut.{IsSent, AreFrames, parts_of};
ghost use Rattle.gr_model.specs.World.{sent_line, sent_lines};
ghost use Rattle.gr_outbox.specs.Said.{frame_said};

use crate::queue::Queue;
use gr_frame::{Body, Frame, Frames, decode, encode_into, parts};
use gr_model::{Report, Reports};
use std::alloc::{AllocError, Global};
use std::marker::Model;

/// Memory was refused.
pub type Memory = AllocError;

/// The line of a frame, by its number and bytes. Bytes of a frame are refused for want of memory alone.
pub fn sent_report(alloc: Global, number: u64, bytes: &[u8]) -> Result<Report, Memory>
    ensures { IfOk result (λ r. r ≡ sent_line number (frame_said bytes.now)) }
{
    let frame = frame_in(alloc, bytes)?;
    Ok(line_of(number, frame))
}

/// The frame that bytes say. Bytes of a frame are refused for want of memory alone.
fn frame_in(alloc: Global, bytes: &[u8]) -> Result<Frame, Memory>
    ensures { IfOk result (λ f. f ≡ frame_said bytes.now) }
{
    match decode(alloc, bytes) {
        Ok(frame) => Ok(frame),
        Err(_) => Err(AllocError),
    }
}

/// The line of a frame with its number.
#[tactic(auto, unfolding(gr_model::specs::World::sent_line))]
fn line_of(number: u64, frame: Frame) -> Report
    ensures { result ≡ sent_line number frame }
{
    let Frame { head, body } = frame;
    match body {
        Body::Knowledge { piece, joins } => Report::SentKnow {
            number,
            from: head.from,
            to: head.to,
            publisher: head.publisher,
            runs: piece,
            joins,
        },
        Body::Curiosity(runs) => Report::SentWant {
            number,
            from: head.from,
            to: head.to,
            publisher: head.publisher,
            runs,
        },
        Body::Expect(tick) => Report::SentExpect {
            number,
            from: head.from,
            to: head.to,
            publisher: head.publisher,
            tick,
        },
    }
}

/// Frames that are sent, in their bytes and in order. It is seen as the list of these.
///
/// What each says is kept beside its bytes until its line is told, so that none is read again for it.
#[derive(Drop)]
pub struct Outbox {
    frames: Frames,
    said: Queue,
}

impl Model for Outbox {
    ghost use Rattle.std.specs.Prelude.{◌≡◌, map};
    ghost use Rattle.gr_frame.specs.Frames.{FrameList};
    ghost use Rattle.gr_outbox.specs.Said.{frame_said};

    ghost Value = { FrameList };

    ghost view = { λ s. s.frames };

    ghost invariant = { λ s. s.said.items ≡ map frame_said s.frames.frames };
}

impl Outbox {
    /// No frames. Takes no memory.
    pub fn new(alloc: Global) -> Outbox
        ensures { result.frames ≡ [] }
    {
        Outbox {
            frames: Frames::new(alloc),
            said: Queue::new(alloc),
        }
    }

    /// No frames, in the room of a list that is emptied. Takes no memory.
    pub fn within(alloc: Global, mut room: Frames) -> Outbox
        ensures { result.frames ≡ [] }
    {
        room.clear();
        Outbox {
            frames: room,
            said: Queue::new(alloc),
        }
    }

    /// Puts a frame at the end, in as many frames as its piece needs. At want of memory all that was to be sent is
    /// dropped.
    pub fn push(&mut self, alloc: Global, frame: Frame) -> Result<(), Memory>
        requires { IsSent frame.body }
        // The frames that the cutting rule makes follow those that were there.
        ensures cut { OnOk result (self.new.frames ≡ self.old.frames ++ map frame_bytes (parts_of frame)) }
        // Each spells its part, and is no longer than a frame may be.
        ensures spelled { OnOk result (AreFrames (map frame_bytes (parts_of frame)) (parts_of frame)) }
    {
        match put_frame(alloc, frame, &mut self.frames, &mut self.said) {
            Ok(()) => Ok(()),
            Err(refused) => {
                *self = Outbox::new(alloc);
                Err(refused)
            }
        }
    }

    /// The bytes of the frames.
    pub fn bytes(&self) -> &Frames
        ensures { result.now ≡ self.now }
    {
        &self.frames
    }

    /// Puts the line of each frame at the end of a list, where `first` frames were sent before, and gives their bytes.
    /// At want of memory some of the lines may stand there.
    pub fn tell(self, first: u64, lines: &mut Reports) -> Result<Frames, Memory>
        requires { first + length self.frames < 2 ^ 64 }
        ensures told { (fs : List MachineFrame) → AreFrames self.frames fs
            → OnOk result (lines.new ≡ lines.old ++ sent_lines (suc first) fs) }
        ensures frames { IfOk result (λ sent. sent.frames ≡ self.frames) }
    {
        let Outbox { frames, mut said } = self;
        put_lines(first, &mut said, lines)?;
        Ok(frames)
    }
}

/// Puts the line of each of these frames at the end of a list, where `first` frames were sent before. At want of memory
/// some of them may stand there.
fn put_lines(first: u64, said: &mut Queue, lines: &mut Reports) -> Result<(), Memory>
    requires { first + length said.old.items < 2 ^ 64 }
    ensures { OnOk result (lines.new ≡ lines.old ++ sent_lines (suc first) said.old.items) }
{
    let mut number = first;
    'frames: while let Some(frame) = said.pop() {
        number += 1;
        lines.push(line_of(number, frame))?;
    }
    Ok(())
}

/// Puts a frame at the end of both lists, in as many frames as its piece needs. At want of memory some of them may
/// stand there.
fn put_frame(
    alloc: Global,
    frame: Frame,
    frames: &mut Frames,
    said: &mut Queue,
) -> Result<(), Memory>
    requires sent { IsSent frame.body }
    requires said { said.old.items ≡ map frame_said frames.old.frames }
    ensures cut { OnOk result (frames.new.frames ≡ frames.old.frames ++ map frame_bytes (parts_of frame)) }
    ensures spelled { OnOk result (AreFrames (map frame_bytes (parts_of frame)) (parts_of frame)) }
    ensures said { OnOk result (said.new.items ≡ map frame_said frames.new.frames) }
{
    let before = frames.len();
    encode_into(alloc, &frame, frames)?;
    if frames.len() - before != 1 {
        return put_all(parts(alloc, &frame)?, said);
    }
    said.push(frame)?;
    Ok(())
}

/// Puts frames at the end of a list. At want of memory some of them may stand there.
fn put_all(frames: Vec<Frame>, said: &mut Queue) -> Result<(), Memory>
    ensures { OnOk result (said.new.items ≡ said.old.items ++ frames.items) }
{
    'frames: for frame in frames {
        said.push(frame)?;
    }
    Ok(())
}
