//! Why a call on the outside, or a whole run over it, could not be carried out.

ghost use Rattle.std.specs.Prelude.{◌≡◌};
ghost use Rattle.gr_out.specs.declared.fault.RunFault.TheVariants.{Memory as WantOfMemory};

use std::alloc::AllocError;

/// Want of memory.
pub type Memory = std::alloc::AllocError;

/// A call on the outside failed. The count of faults of what was called rose in that call.
#[derive(Clone, Copy, Debug, PartialEq, Eq)]
pub struct Failed;

/// Why a run over the outside ended early.
#[derive(Clone, Copy, Debug, PartialEq, Eq)]
pub enum RunFault {
    /// Want of memory.
    Memory,
    /// The sink failed.
    Write,
    /// The disk failed.
    Disk,
    /// The lane of a publisher holds no log; `at` is the first byte, from 0, of what breaks it.
    Damaged { publisher: u16, at: u64 },
    /// The post failed.
    Post,
}

impl From<AllocError> for RunFault {
    ghost from_gives = { λ _ e. e ≡ WantOfMemory };

    fn from(_refused: AllocError) -> RunFault {
        RunFault::Memory
    }
}
