//! Why a call on a world is refused.

ghost use Rattle.std.specs.Prelude.{◌≡◌};
ghost use Rattle.gr_world.specs.Ran.{fault_in};

use gr_broker::BrokerFault;
use std::alloc::AllocError;

/// Memory was refused.
pub type Memory = AllocError;

/// Why a call is refused.
#[derive(Clone, Copy, Debug, PartialEq, Eq)]
pub enum WorldFault {
    /// Memory was refused. After a call that changes the world, each later call that can answer it does.
    Memory,
    /// The disk failed in this call. The log concerned has to be opened again, by a crash of its broker.
    Disk,
    /// The call would append to a log that the disk has failed, or a broker is down since its opening failed.
    Reopen,
    /// The lanes of a publisher hold no log; the place of the first fault, counted from 0 in bytes.
    Damaged { publisher: u16, at: u64 },
    /// The broker to be crashed hosts a subscriber. Nothing has changed.
    HostsSubscriber { broker: u16 },
    /// There is no frame of this number; how many were sent. Nothing has changed.
    NoFrame { sent: u64 },
    /// The moment of a sweep would pass the last tick. Nothing has changed.
    ClockRange { at: u64 },
}

/// A broker's fault as one of the world.
pub(crate) fn world_fault(fault: BrokerFault) -> WorldFault
    ensures { result ≡ fault_in fault }
{
    match fault {
        BrokerFault::Memory => WorldFault::Memory,
        BrokerFault::Disk => WorldFault::Disk,
        BrokerFault::Reopen => WorldFault::Reopen,
        BrokerFault::Damaged { publisher, at } => WorldFault::Damaged { publisher, at },
    }
}
