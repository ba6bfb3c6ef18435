//! The fields of a note, read and written.

ghost use Rattle.std.specs.Prelude.{◌≡◌, ◌+◌, ◌≤◌, ◌<◌, ◌^◌, length, IfOk, MatchResult, Ok, Err};
ghost use Rattle.std.specs.Int.{from_be_bytes, to_be_bytes, w16, w64};
ghost use Rattle.gr_note.specs.Decode.{byte_at, field_at, u16_at, u64_at, number_at};
ghost use Rattle.gr_note.specs.Gives.{Gives};

use crate::fault::{NoteFault, NoteKind};
use byteorder::{BigEndian, ByteOrder};

/// A fault of a kind at a place.
pub fn fault(kind: NoteKind, at: usize) -> NoteFault
    ensures { result ≡ record { kind = kind; at = at } }
{
    NoteFault { kind, at }
}

/// The byte at a place.
pub fn byte_at(bytes: &[u8], at: usize) -> Result<u8, NoteFault>
    ensures gives { result ≡ byte_at bytes.now at }
    ensures within { IfOk result (λ b. at + 1 ≤ length bytes.now) }
{
    match bytes.get(at) {
        Some(byte) => Ok(*byte),
        None => Err(fault(NoteKind::Short, bytes.len())),
    }
}

/// A field of so many bytes from a place on.
pub fn field_at(bytes: &[u8], at: usize, len: usize) -> Result<&[u8], NoteFault>
    requires { at + len < 2 ^ 64 }
    ensures gives { let read = field_at bytes.now at len in
        MatchResult result (λ f. read ≡ Ok f.now) (λ e. read ≡ Err e) }
    ensures whole { IfOk result (λ f. length f.now ≡ len) }
    ensures within { IfOk result (λ f. at + len ≤ length bytes.now) }
{
    if at + len <= bytes.len() {
        Ok(&bytes[at..at + len])
    } else {
        Err(fault(NoteKind::Short, bytes.len()))
    }
}

/// The number of two bytes at a place, the high byte first.
pub fn u16_at(bytes: &[u8], at: usize) -> Result<u16, NoteFault>
    requires { at + 2 < 2 ^ 64 }
    ensures gives { result ≡ u16_at bytes.now at }
    ensures within { IfOk result (λ n. at + 2 ≤ length bytes.now) }
{
    let field = field_at(bytes, at, 2)?;
    Ok(number_of_two(field))
}

/// The number of eight bytes at a place, the high byte first.
fn u64_at(bytes: &[u8], at: usize) -> Result<u64, NoteFault>
    requires { at + 8 < 2 ^ 64 }
    ensures gives { result ≡ u64_at bytes.now at }
    ensures within { IfOk result (λ n. at + 8 ≤ length bytes.now) }
{
    let field = field_at(bytes, at, 8)?;
    Ok(number_of_eight(field))
}

/// The number at a place, from 1 up to the greatest one.
#[tactic(auto, unfolding(crate::specs::Decode::number_at))]
pub fn number_at(bytes: &[u8], at: usize, most: u64) -> Result<u64, NoteFault>
    requires { at + 8 < 2 ^ 64 }
    ensures gives { Gives result (number_at bytes.now at most) }
    ensures within { IfOk result (λ n. at + 8 ≤ length bytes.now) }
    ensures least { IfOk result (λ n. 1 ≤ n) }
    ensures most { IfOk result (λ n. n ≤ most) }
{
    let number = u64_at(bytes, at)?;
    if number < 1 || number > most {
        return Err(fault(NoteKind::BadRange, at));
    }
    Ok(number)
}

/// The number that two bytes spell.
fn number_of_two(field: &[u8]) -> u16
    requires { length field.now ≡ 2 }
    ensures { result ≡ from_be_bytes w16 field.now }
{
    BigEndian::read_u16(field)
}

/// The number that eight bytes spell.
fn number_of_eight(field: &[u8]) -> u64
    requires { length field.now ≡ 8 }
    ensures { result ≡ from_be_bytes w64 field.now }
{
    BigEndian::read_u64(field)
}

/// Writes the two bytes of a number, the high byte first, into a slice of exactly their size.
pub fn put_u16(number: u16, into: &mut [u8])
    requires { length into.old ≡ 2 }
    ensures { into.new ≡ to_be_bytes w16 number }
{
    into.copy_from_slice(&number.to_be_bytes());
}

/// Writes the eight bytes of a number, the high byte first, into a slice of exactly their size.
pub fn put_u64(number: u64, into: &mut [u8])
    requires { length into.old ≡ 8 }
    ensures { into.new ≡ to_be_bytes w64 number }
{
    into.copy_from_slice(&number.to_be_bytes());
}
