//! What a call tells and sends.

ghost use Rattle.std.specs.Prelude.{◌≡◌, []};

use gr_model::Reports;
use gr_outbox::Outbox;
use std::alloc::{AllocError, Global};

/// Memory was refused.
pub type Memory = AllocError;

/// What a call tells and sends.
#[derive(Drop)]
pub struct Outcome {
    /// Lines of the report, in order.
    pub reports: Reports,
    /// Frames in their bytes, in order, each with what its line tells.
    pub frames: Outbox,
}

impl Outcome {
    /// Nothing is told and sent. Takes no memory.
    pub fn new(alloc: Global) -> Outcome
        ensures reports { result.reports ≡ [] }
        ensures frames { result.frames.frames ≡ [] }
    {
        Outcome {
            reports: Reports::new(alloc),
            frames: Outbox::new(alloc),
        }
    }
}
