//! Counts of failures.

ghost use Rattle.std.specs.Prelude.{◌≡◌};
ghost use Rattle.gr_out.specs.Streams.{counted};

/// One more. A count at its last value stays there.
pub(crate) fn raised(count: u64) -> u64
    ensures { result ≡ counted count }
{
    count.saturating_add(1)
}
