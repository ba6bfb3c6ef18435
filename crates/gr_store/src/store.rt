//! The bytes of frames, one after another in one block.

ghost use Rattle.std.specs.Prelude.{◌≡◌, ◌<◌, ◌++◌, ◌∷◌, [], length};
ghost use Rattle.std.specs.Prelude.{take, slice_get, slice_index_or, Some, OnOk, OnErr};
ghost use Rattle.gr_store.specs.Parts.{parts, RiseTo};

use gr_frame::Frames;
use std::alloc::{AllocError as Memory, Global};
use std::marker::Model;
use std::mem;

/// The bytes of frames, in order, one after another in one block. It is seen as the list of them.
#[derive(Drop)]
pub struct FrameStore {
    bytes: Vec<u8>,
    /// Where each frame ends.
    ends: Vec<usize>,
    /// A list that was given back.
    spare: Frames,
}

impl Model for FrameStore {
    ghost use Rattle.std.specs.Prelude.{ℕ, List, length};
    ghost use Rattle.gr_store.specs.Parts.{parts, RiseTo};

    ghost Value = { List (List ℕ) };

    ghost view = { λ s. parts 0 s.ends.items s.bytes.items };

    ghost invariant = { λ s. RiseTo (length s.bytes.items) 0 s.ends.items };
}

impl FrameStore {
    /// No frames. Takes no memory.
    pub fn new(alloc: Global) -> FrameStore
        ensures { result ≡ [] }
    {
        FrameStore {
            bytes: Vec::new(alloc),
            ends: Vec::new(alloc),
            spare: Frames::new(alloc),
        }
    }

    /// How many frames there are.
    pub fn len(&self) -> usize
        ensures { result ≡ length self.now }
    {
        self.ends.len()
    }

    /// The bytes of the frame at a place, counted from 0.
    pub fn frame(&self, i: usize) -> &[u8]
        requires { i < length self.now }
        ensures { slice_get self.now i ≡ Some result.now }
    {
        let from = begin_of(&self.ends, i);
        &self.bytes[from..self.ends[i]]
    }

    /// Puts frames at the end. At want of memory the frames are as they were.
    pub fn append(&mut self, frames: &Frames) -> Result<(), Memory>
        ensures ok { OnOk result (self.new ≡ self.old ++ frames.now.frames) }
        ensures err { OnErr result (self.new ≡ self.old) }
    {
        let bytes = self.bytes.len();
        let ends = self.ends.len();
        match put_frames(&mut self.bytes, &mut self.ends, frames) {
            Ok(()) => Ok(()),
            Err(refused) => {
                self.bytes.truncate(bytes);
                self.ends.truncate(ends);
                Err(refused)
            }
        }
    }

    /// Keeps a list whose frames were put at the end, for its room to be used again. The frames stay as they are.
    pub fn keep(&mut self, frames: Frames)
        ensures { self.new ≡ self.old }
    {
        self.spare = frames;
    }

    /// Gives the list that was kept last, with what it holds, or one without room. The frames stay as they are. Takes
    /// no memory.
    pub fn spare(&mut self, alloc: Global) -> Frames
        ensures { self.new ≡ self.old }
    {
        mem::replace(&mut self.spare, Frames::new(alloc))
    }
}

/// Where the frame at a place begins: at the end of the one before it.
fn begin_of(ends: &[usize], i: usize) -> usize
    requires { i < length ends.now }
    ensures { result ≡ slice_index_or (0 ∷ ends.now) i 0 }
{
    if i == 0 {
        return 0;
    }
    ends[i - 1]
}

/// Puts frames behind the bytes, and where each ends behind the ends. At want of memory some of them may stand there,
/// behind all that was there.
fn put_frames(bytes: &mut Vec<u8>, ends: &mut Vec<usize>, frames: &Frames) -> Result<(), Memory>
    requires { RiseTo (length bytes.old.items) 0 ends.old.items }
    ensures parts { OnOk result (parts 0 ends.new.items bytes.new.items
        ≡ parts 0 ends.old.items bytes.old.items ++ frames.now.frames) }
    ensures rise { OnOk result (RiseTo (length bytes.new.items) 0 ends.new.items) }
    ensures bytes { OnErr result (take (length bytes.old.items) bytes.new.items ≡ bytes.old.items) }
    ensures ends { OnErr result (take (length ends.old.items) ends.new.items ≡ ends.old.items) }
{
    let count = frames.len();
    ends.reserve(count)?;
    'frames: for i in 0..count {
        match bytes.extend_from_slice(frames.frame(i)) {
            Ok(()) => {}
            Err(refused) => return Err(refused),
        }
        ends.push_reserved(bytes.len());
    }
    Ok(())
}
