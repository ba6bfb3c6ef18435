//! Numbers in a text, the byte of the greatest weight first.

ghost use Rattle.std.specs.Prelude.{◌≡◌, length};
ghost use Rattle.std.specs.Int.{from_be_bytes, w16, w32, w64};
ghost use Rattle.gr_publog.specs.Text.{AreBytes};

use byteorder::{BigEndian, ByteOrder};

/// The number that eight bytes spell.
pub(crate) fn eight(field: &[u8]) -> u64
    requires { length field.now ≡ 8 }
    ensures { result ≡ from_be_bytes w64 field.now }
{
    BigEndian::read_u64(field)
}

/// The number that four bytes spell.
pub(crate) fn four(field: &[u8]) -> u32
    requires { length field.now ≡ 4 }
    ensures { result ≡ from_be_bytes w32 field.now }
{
    BigEndian::read_u32(field)
}

/// The number that two bytes spell.
pub(crate) fn two(field: &[u8]) -> u16
    requires { length field.now ≡ 2 }
    ensures { result ≡ from_be_bytes w16 field.now }
{
    BigEndian::read_u16(field)
}

/// Says of bytes that each is below 256, and does nothing.
pub(crate) fn are_bytes(_bytes: &[u8])
    ensures { AreBytes _bytes.now }
{}
