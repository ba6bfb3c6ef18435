//! The fields of a frame, read and written.

ghost use Rattle.std.specs.Prelude.{◌≡◌, ◌+◌, ◌≤◌, ◌<◌, ◌^◌, length, IfOk, MatchResult, Ok, Err};
ghost use Rattle.std.specs.Int.{from_be_bytes, to_be_bytes, w16, w64};
ghost use Rattle.gr_frame.specs.Decode.{byte_at, field_at, u16_at, u64_at, tick_at};
ghost use Rattle.gr_frame.specs.Gives.{Gives};

use crate::fault::{FrameFault, FrameKind};
use byteorder::{BigEndian, ByteOrder};
use gr_tick::MAX_TICK;

/// A fault of a kind at a place.
pub fn fault(kind: FrameKind, at: usize) -> FrameFault
    ensures { result ≡ record { kind = kind; at = at } }
{
    FrameFault { kind, at }
}

/// The byte at a place.
pub fn byte_at(bytes: &[u8], at: usize) -> Result<u8, FrameFault>
    ensures gives { result ≡ byte_at bytes.now at }
    ensures within { IfOk result (λ b. at + 1 ≤ length bytes.now) }
{
    match bytes.get(at) {
        Some(byte) => Ok(*byte),
        None => Err(fault(FrameKind::Short, bytes.len())),
    }
}

/// A field of so many bytes from a place on.
pub fn field_at(bytes: &[u8], at: usize, len: usize) -> Result<&[u8], FrameFault>
    requires { at + len < 2 ^ 64 }
    ensures gives { MatchResult result (λ f. field_at bytes.now at len ≡ Ok f.now) (λ e. field_at bytes.now at len
        ≡ Err e) }
    ensures whole { IfOk result (λ f. length f.now ≡ len) }
    ensures within { IfOk result (λ f. at + len ≤ length bytes.now) }
{
    if at + len <= bytes.len() {
        Ok(&bytes[at..at + len])
    } else {
        Err(fault(FrameKind::Short, bytes.len()))
    }
}

/// The number of two bytes at a place, the high byte first.
pub fn u16_at(bytes: &[u8], at: usize) -> Result<u16, FrameFault>
    requires { at + 2 < 2 ^ 64 }
    ensures gives { result ≡ u16_at bytes.now at }
    ensures within { IfOk result (λ n. at + 2 ≤ length bytes.now) }
{
    let field = field_at(bytes, at, 2)?;
    Ok(number_of_two(field))
}

/// The number of eight bytes at a place, the high byte first.
pub fn u64_at(bytes: &[u8], at: usize) -> Result<u64, FrameFault>
    requires { at + 8 < 2 ^ 64 }
    ensures gives { result ≡ u64_at bytes.now at }
    ensures within { IfOk result (λ n. at + 8 ≤ length bytes.now) }
{
    let field = field_at(bytes, at, 8)?;
    Ok(number_of_eight(field))
}

/// The tick at a place, none below the least one.
#[tactic(auto, unfolding(crate::specs::Decode::tick_at))]
pub fn tick_at(bytes: &[u8], at: usize, least: u64) -> Result<u64, FrameFault>
    requires { at + 8 < 2 ^ 64 }
    ensures gives { Gives result (tick_at bytes.now at least) }
    ensures within { IfOk result (λ t. at + 8 ≤ length bytes.now) }
    ensures least { IfOk result (λ t. least ≤ t) }
    ensures most { IfOk result (λ t. t ≤ MAX_TICK) }
{
    let tick = u64_at(bytes, at)?;
    if tick < least || tick > MAX_TICK {
        return Err(fault(FrameKind::BadRange, at));
    }
    Ok(tick)
}

/// The number that two bytes spell.
pub fn number_of_two(field: &[u8]) -> u16
    requires { length field.now ≡ 2 }
    ensures { result ≡ from_be_bytes w16 field.now }
{
    BigEndian::read_u16(field)
}

/// The number that eight bytes spell.
fn number_of_eight(field: &[u8]) -> u64
    requires { length field.now ≡ 8 }
    ensures { result ≡ from_be_bytes w64 field.now }
{
    BigEndian::read_u64(field)
}

/// Writes the two bytes of a number, the high byte first, into a slice of exactly their size.
pub fn put_u16(number: u16, into: &mut [u8])
    requires { length into.old ≡ 2 }
    ensures { into.new ≡ to_be_bytes w16 number }
{
    into.copy_from_slice(&number.to_be_bytes());
}

/// Writes the eight bytes of a number, the high byte first, into a slice of exactly their size.
pub fn put_u64(number: u64, into: &mut [u8])
    requires { length into.old ≡ 8 }
    ensures { into.new ≡ to_be_bytes w64 number }
{
    into.copy_from_slice(&number.to_be_bytes());
}
