//! A queue of frames.

ghost use Rattle.std.specs.Prelude.{◌≡◌, [], ◌∷◌, ◌++◌, MatchOption, OnOk, OnErr};

use gr_frame::Frame;
use std::alloc::{AllocError, Global};
use std::collections::VecDeque;
use std::marker::Model;

/// Frames in order. The first stands in the queue itself: most calls send one frame, which then takes no memory.
#[derive(Drop)]
pub(crate) struct Queue {
    first: Option<Frame>,
    others: VecDeque<Frame>,
}

impl Model for Queue {
    ghost use Rattle.gr_outbox.specs.Queued.{Queued, queued, IsQueue};

    ghost Value = { Queued };

    ghost view = { λ q. queued q.first q.others.items };

    ghost invariant = { λ q. IsQueue q.first q.others.items };
}

impl Queue {
    /// No frames. Takes no memory.
    pub(crate) fn new(alloc: Global) -> Queue
        ensures { result.items ≡ [] }
    {
        Queue {
            first: None,
            others: VecDeque::new(alloc),
        }
    }

    /// Puts a frame at the end. At want of memory the queue is as it was.
    pub(crate) fn push(&mut self, frame: Frame) -> Result<(), AllocError>
        ensures ok { OnOk result (self.new.items ≡ self.old.items ++ frame ∷ []) }
        ensures err { OnErr result (self.new.items ≡ self.old.items) }
    {
        match &self.first {
            None => {
                self.first = Some(frame);
                Ok(())
            }
            Some(_) => {
                self.others.push_back(frame)?;
                Ok(())
            }
        }
    }

    /// Takes the first frame out, if there is one.
    pub(crate) fn pop(&mut self) -> Option<Frame>
        ensures { MatchOption result ((self.old.items ≡ []) × (self.new.items ≡ []))
            (λ f. self.old.items ≡ f ∷ self.new.items) }
    {
        match self.first.take() {
            None => None,
            Some(frame) => {
                self.first = self.others.pop_front();
                Some(frame)
            }
        }
    }
}
