//! The limit. The function here does nothing: its contract is the law.

ghost use Rattle.std.specs.Prelude.{◌≡◌};
ghost use Rattle.gr_journal.specs.declared.arrival.TheConstants.{MAX_DATAGRAM};

/// How many bytes of a datagram a process takes.
pub fn limit_of_datagrams()
    ensures { MAX_DATAGRAM ≡ 65535 }
{}
