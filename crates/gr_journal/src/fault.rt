//! Why journals are not audited.

use std::alloc::AllocError;

/// Why journals are not audited.
#[derive(Clone, Copy)]
pub enum AuditFault {
    /// Memory was refused.
    Memory,
    /// The line has none of the forms of a journal, names a broker that its process does not host, or stands before any
    /// process. Lines count from 1.
    BadLine {
        /// The line: the first such one.
        line: u32,
    },
    /// A publisher has a client.
    Clients,
}

impl From<AllocError> for AuditFault {
    ghost use Rattle.std.specs.Prelude.{◌≡◌};
    ghost use Rattle.gr_journal.specs.declared.fault.AuditFault.TheVariants.{Memory};

    ghost from_gives = { λ _ e. e ≡ Memory };

    fn from(_refused: AllocError) -> AuditFault {
        AuditFault::Memory
    }
}
