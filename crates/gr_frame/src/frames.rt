//! A list of frames in their bytes.

ghost use Rattle.std.specs.Prelude.{◌≡◌, ◌==◌, ◌+◌, ◌≤◌, ◌<◌, ◌++◌, ◌∷◌, [], length, take, slice_get, Some, OnOk};
ghost use Rattle.std.specs.Prelude.{OnErr, IsOk};

use gr_event::Bytes;
use std::alloc::{AllocError, Global};
use std::marker::Model;
use std::vec::IntoIter;

/// The bytes of frames, in order. It is seen as the list of them and its spare, how many more fit before memory is
/// asked for.
///
/// Frames are handed over as they are: no call copies their bytes.
#[derive(Drop)]
pub struct Frames {
    frames: Vec<Bytes>,
}

impl Model for Frames {
    ghost use Rattle.std.specs.Prelude.{◌-◌};
    ghost use Rattle.std.specs.Vec.{vec_len, vec_capacity};
    ghost use Rattle.gr_frame.specs.Frames.{FrameList};

    ghost Value = { FrameList };

    ghost view = { λ f. record { frames = f.frames.items; spare = vec_capacity f.frames - vec_len f.frames } };
}

impl Frames {
    /// No frames. Takes no memory.
    pub fn new(alloc: Global) -> Frames
        ensures { result.frames ≡ [] }
    {
        Frames {
            frames: Vec::new(alloc),
        }
    }

    /// The list of these frames. Takes no memory.
    pub fn from_vec(frames: Vec<Bytes>) -> Frames
        ensures { result.frames ≡ frames.items }
    {
        Frames { frames }
    }

    /// Makes room for at least `more` frames. At want of memory the list is as it was.
    pub fn reserve(&mut self, more: usize) -> Result<(), AllocError>
        ensures frames { self.new.frames ≡ self.old.frames }
        ensures spare { OnOk result (more ≤ self.new.spare) }
        ensures never_less { self.old.spare ≤ self.new.spare }
        ensures succeeds { more ≤ self.old.spare → IsOk result }
    {
        self.frames.reserve(more)
    }

    /// Puts a frame at the end. At want of memory the list is as it was, and the frame is dropped; with a spare it
    /// cannot be refused.
    pub fn push(&mut self, frame: Bytes) -> Result<(), AllocError>
        ensures ok { OnOk result (self.new.frames ≡ self.old.frames ++ frame ∷ []) }
        ensures err { OnErr result (self.new.frames ≡ self.old.frames) }
        ensures spare { self.old.spare ≤ self.new.spare + 1 }
        ensures succeeds { 1 ≤ self.old.spare → IsOk result }
    {
        self.frames.push(frame)?;
        Ok(())
    }

    /// Moves the frames of another list to the end. At want of memory both are as they were; with a spare of as many
    /// frames it cannot be refused.
    pub fn append(&mut self, others: &mut Frames) -> Result<(), AllocError>
        ensures ok { OnOk result (self.new.frames ≡ self.old.frames ++ others.old.frames) }
        ensures emptied { OnOk result (others.new.frames ≡ []) }
        ensures err { OnErr result (self.new.frames ≡ self.old.frames) }
        ensures kept { OnErr result (others.new.frames ≡ others.old.frames) }
        ensures spare { self.old.spare ≤ self.new.spare + length others.old.frames }
        ensures succeeds { length others.old.frames ≤ self.old.spare → IsOk result }
    {
        self.frames.append(&mut others.frames)
    }

    /// Drops all frames but the first so many. Takes no memory.
    pub(crate) fn truncate(&mut self, count: usize)
        ensures { self.new.frames ≡ take count self.old.frames }
    {
        self.frames.truncate(count);
    }

    /// Drops all frames, and keeps the room that the list has. Takes no memory.
    pub fn clear(&mut self)
        ensures { self.new.frames ≡ [] }
    {
        self.frames.clear();
    }

    /// How many frames there are.
    pub fn len(&self) -> usize
        ensures { result ≡ length self.now.frames }
    {
        self.frames.len()
    }

    /// Whether there are none.
    pub fn is_empty(&self) -> bool
        ensures { result ≡ (length self.now.frames == 0) }
    {
        self.frames.is_empty()
    }

    /// The bytes of the frame at a place, counted from 0.
    pub fn frame(&self, i: usize) -> &[u8]
        requires { i < length self.now.frames }
        ensures { slice_get self.now.frames i ≡ Some result.now }
    {
        self.frames[i].as_slice()
    }
}

impl IntoIterator for Frames {
    ghost use Rattle.std.specs.Prelude.{◌≡◌, ◌<◌, ◌^◌, List, ℕ, length};
    ghost use Rattle.std.specs.declared.alloc.Global.{Global};
    ghost use Rattle.std.specs.Vec.Iter.{into_iter_steps, into_iter_items, into_iter_len};
    ghost use Rattle.std.specs.Iterator.Runs.{EveryRun, ItemsAre};

    type Item = Bytes;

    type IntoIter = IntoIter<Bytes, Global>;

    ghost into_iter_gives = { λ v r. (into_iter_items r ≡ v.frames) × (into_iter_len r ≡ length v.frames) ×
        (into_iter_len r < 2 ^ 64)
        × EveryRun (into_iter_steps {X = List ℕ} {Z = Global}) (λ p. ItemsAre p (into_iter_items p.from)) };

    /// The frames in order, each by value. Takes no memory.
    fn into_iter(self) -> IntoIter<Bytes, Global> {
        self.frames.into_iter()
    }
}
