//! Why a text is no topology.

ghost use Rattle.std.specs.Prelude.{◌≡◌, ◌≤◌};
ghost use Rattle.gr_topo.specs.Fault.{fault_number, fault_word};

use gr_event::Text;
use gr_filter::FilterFault;
use std::alloc::{AllocError, AllocFailed};
use std::error::Error;
use std::fmt;

/// Want of memory.
pub type Memory = AllocError;

/// Why there is no topology. A key is the last one of its path; a name is as it was written.
#[derive(Drop)]
pub enum TopoFault {
    /// Memory was refused.
    Memory,
    /// The bytes are no TOML document.
    NotToml,
    /// A table has a key that means nothing there.
    BadKey { key: Text },
    /// A value is of another type than its key asks for.
    BadType { key: Text },
    /// A name stands twice among the brokers, the publishers or the subscribers.
    Twice { name: Text },
    /// A name is that of no broker, or, of a client, that of no publisher.
    Unknown { name: Text },
    /// The links make no tree of the brokers.
    NotTree,
    /// The filter of this subscriber is no filter; the fault is never `Memory`.
    BadFilter { name: Text, fault: FilterFault },
    /// There are more brokers, publishers or subscribers than the limits allow.
    TooMany { key: Text },
    /// The address of this broker, or of this publisher's client, is no address.
    BadAddress { name: Text },
    /// A table lacks a key that it must have.
    Missing { key: Text },
    /// A name is not 1 to 64 bytes out of letters, digits, `_`, `.` and `-`.
    BadName { name: Text },
    /// A setting is not in its range.
    BadRange { key: Text },
}

impl TopoFault {
    /// Its number: 0 for `Memory`, and from 1 to 12 for the others.
    pub fn number(&self) -> u8
        ensures number { result ≡ fault_number self.now }
        ensures most { result ≤ 12 }
    {
        match self {
            TopoFault::Memory => 0,
            TopoFault::NotToml => 1,
            TopoFault::BadKey { .. } => 2,
            TopoFault::BadType { .. } => 3,
            TopoFault::Twice { .. } => 4,
            TopoFault::Unknown { .. } => 5,
            TopoFault::NotTree => 6,
            TopoFault::BadFilter { .. } => 7,
            TopoFault::TooMany { .. } => 8,
            TopoFault::BadAddress { .. } => 9,
            TopoFault::Missing { .. } => 10,
            TopoFault::BadName { .. } => 11,
            TopoFault::BadRange { .. } => 12,
        }
    }

    /// Its word in a report, without the key or name.
    pub fn word(&self) -> &'static str
        ensures { result.now ≡ fault_word self.now }
    {
        match self {
            TopoFault::Memory => "memory",
            TopoFault::NotToml => "not-toml",
            TopoFault::BadKey { .. } => "bad-key",
            TopoFault::BadType { .. } => "bad-type",
            TopoFault::Twice { .. } => "twice",
            TopoFault::Unknown { .. } => "unknown",
            TopoFault::NotTree => "not-tree",
            TopoFault::BadFilter { .. } => "bad-filter",
            TopoFault::TooMany { .. } => "too-many",
            TopoFault::BadAddress { .. } => "bad-address",
            TopoFault::Missing { .. } => "missing",
            TopoFault::BadName { .. } => "bad-name",
            TopoFault::BadRange { .. } => "bad-range",
        }
    }
}

impl fmt::Display for TopoFault {
    fn fmt<W: fmt::Write>(&self, f: &mut fmt::Formatter<W>) -> fmt::Result {
        f.write_str(self.word())
    }
}

impl fmt::Debug for TopoFault {
    fn fmt<W: fmt::Write>(&self, f: &mut fmt::Formatter<W>) -> fmt::Result {
        f.write_str(self.word())
    }
}

impl Error for TopoFault {}

impl From<AllocError> for TopoFault {
    ghost use Rattle.std.specs.Prelude.{◌≡◌};
    ghost use Rattle.gr_topo.specs.declared.fault.TopoFault.TheVariants.{Memory as Refused};

    ghost from_gives = { λ _ e. e ≡ Refused };

    fn from(_refused: AllocError) -> TopoFault {
        TopoFault::Memory
    }
}

impl<T: Drop> From<AllocFailed<T>> for TopoFault {
    ghost use Rattle.std.specs.Prelude.{◌≡◌};
    ghost use Rattle.gr_topo.specs.declared.fault.TopoFault.TheVariants.{Memory as Refused};

    ghost from_gives = { λ _ e. e ≡ Refused };

    fn from(_refused: AllocFailed<T>) -> TopoFault {
        TopoFault::Memory
    }
}
