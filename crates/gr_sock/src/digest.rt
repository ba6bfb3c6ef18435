//! What stands for the offers between two quiet moments.

ghost use Rattle.std.specs.Prelude.{◌≡◌};
ghost use Rattle.gr_sock.specs.Digest.{with_byte, with_bytes, with_offer};

/// No offer.
pub(crate) const NOTHING: u64 = 14_695_981_039_346_656_037;

const PRIME: u64 = 1_099_511_628_211;

/// One byte more.
fn with_byte(digest: u64, byte: u16) -> u64
    ensures { result ≡ with_byte digest byte }
{
    (digest ^ u64::from(byte)).wrapping_mul(PRIME)
}

/// Bytes more.
fn with_bytes(digest: u64, bytes: &[u8]) -> u64
    ensures { result ≡ with_bytes digest bytes.now }
{
    let mut all = digest;
    for byte in bytes {
        all = with_byte(all, u16::from(*byte));
    }
    all
}

/// One offer more. Two different lists of offers are most likely not the same then.
pub(crate) fn with_offer(digest: u64, from: u16, to: u16, bytes: &[u8]) -> u64
    ensures { result ≡ with_offer digest from to bytes.now }
{
    with_bytes(with_byte(with_byte(digest, from), to), bytes)
}
