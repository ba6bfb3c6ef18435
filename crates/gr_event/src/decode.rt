//! The form of an event in bytes, read.

ghost use Rattle.std.specs.Prelude.{◌≡◌, ◌+◌, ◌≤◌, ◌<◌, ◌^◌, [], length, IfOk, IfSome, OnOk, MatchResult, Ok, Err};
ghost use Rattle.std.specs.Int.{from_be_bytes, cast_signed, w16, w64};
ghost use Rattle.std.specs.Str.{is_utf8};
ghost use Rattle.std.specs.Ordering.{nat_cmp};
ghost use Rattle.std.specs.Cmp.Lexicographic.{slice_cmp};
ghost use Rattle.std.specs.declared.cmp.Ordering.TheVariants.{Less};
ghost use Rattle.gr_event.specs.Event.{event_bytes, value_size};
ghost use Rattle.gr_event.specs.Gives.{Gives};
ghost use Rattle.gr_event.specs.Form.{AreOfEvent, TellsEvent};
ghost use Rattle.gr_event.specs.Get.{part_value};
ghost use Rattle.gr_event.specs.Limits.{IsName, IsValue};
ghost use Rattle.gr_event.specs.Decode.{byte_at, field_at, name_at, integer_at, text_value_at, truth_at, value_at};
ghost use Rattle.gr_event.specs.Decode.{pairs_at, event_decoded};
ghost use Rattle.gr_event.specs.declared.limits.TheConstants.{MAX_EVENT_BYTES, MAX_PAIRS};

use crate::event::{Event, EventFault, Memory};
use crate::limits::{MAX_EVENT_BYTES, MAX_NAME, MAX_PAIRS, MAX_TEXT};
use crate::value::Part;
use byteorder::{BigEndian, ByteOrder};
use std::alloc::Global;
use std::cmp::Ordering;

impl Event {
    /// The event that the bytes spell.
    ///
    /// The first fault comes: `TooLong` for more than 8,192 bytes, and then, field by field, `Short`,
    /// `BadLength`, `BadText`, `NotSorted` and `BadKind` at their places, and last `Trailing`.
    pub fn decode(alloc: Global, bytes: &[u8]) -> Result<Event, EventFault>
        ensures gives { Gives result (event_decoded bytes.now) }
        ensures spelled { IfOk result (λ e. bytes.now ≡ event_bytes e) }
    {
        fields_of(bytes)?;
        Ok(Event::of_bytes(alloc, bytes)?)
    }

    /// The event that the bytes spell; none where they spell none.
    pub(crate) fn from_form(alloc: Global, bytes: &[u8]) -> Result<Option<Event>, Memory>
        ensures { IfOk result (λ found. IfSome found (λ e. event_decoded bytes.now ≡ Ok e)) }
    {
        match fields_of(bytes) {
            Ok(()) => Ok(Some(Event::of_bytes(alloc, bytes)?)),
            Err(_) => Ok(None),
        }
    }
}

/// Whether the bytes are those of an event: field by field.
#[tactic(auto, unfolding(crate::specs::Decode::event_decoded))]
fn fields_of(bytes: &[u8]) -> Result<(), EventFault>
    ensures told { TellsEvent result (event_decoded bytes.now) }
    ensures event { OnOk result (AreOfEvent bytes.now) }
{
    if bytes.len() > MAX_EVENT_BYTES {
        return Err(EventFault::TooLong);
    }
    let count = byte_at(bytes, 0)?;
    if usize::from(count) > MAX_PAIRS {
        return Err(EventFault::BadLength { at: 0 });
    }
    pairs_at(bytes, count)
}

/// The byte at a place.
fn byte_at(bytes: &[u8], at: usize) -> Result<u8, EventFault>
    ensures { result ≡ byte_at bytes.now at }
{
    if at < bytes.len() {
        Ok(bytes[at])
    } else {
        Err(EventFault::Short { at: bytes.len() })
    }
}

/// A field of so many bytes from a place on.
fn field_at(bytes: &[u8], at: usize, len: usize) -> Result<&[u8], EventFault>
    requires { at + len < 2 ^ 64 }
    ensures gives { MatchResult result
        (λ f. field_at bytes.now at len ≡ Ok f.now)
        (λ e. field_at bytes.now at len ≡ Err e) }
    ensures whole { IfOk result (λ f. length f.now ≡ len) }
    ensures within { IfOk result (λ f. at + len ≤ length bytes.now) }
{
    if at + len <= bytes.len() {
        Ok(&bytes[at..at + len])
    } else {
        Err(EventFault::Short { at: bytes.len() })
    }
}

/// Whether bytes are UTF-8.
fn is_text(bytes: &[u8]) -> bool
    ensures { result ≡ is_utf8 bytes.now }
{
    if bytes.is_ascii() {
        return true;
    }
    std::str::from_utf8(bytes).is_ok()
}

/// The name behind its length, above the one before.
#[tactic(auto, unfolding(crate::specs::Decode::name_at, crate::specs::Decode::name_of_length), using(crate::proofs::Decoding::told_text))]
fn name_at<'a>(bytes: &'a [u8], at: usize, before: &[u8]) -> Result<&'a [u8], EventFault>
    requires few { length bytes.now ≤ MAX_EVENT_BYTES }
    requires inside { at ≤ length bytes.now }
    ensures gives { MatchResult result
        (λ n. name_at bytes.now at before.now ≡ Ok n.now)
        (λ e. name_at bytes.now at before.now ≡ Err e) }
    ensures name { IfOk result (λ n. IsName n.now) }
    ensures within { IfOk result (λ n. at + 1 + length n.now ≤ length bytes.now) }
    ensures above { IfOk result (λ n. slice_cmp nat_cmp before.now n.now ≡ Less) }
{
    let len = byte_at(bytes, at)?;
    if len == 0 || usize::from(len) > MAX_NAME {
        return Err(EventFault::BadLength { at });
    }
    let name = field_at(bytes, at + 1, usize::from(len))?;
    if !is_text(name) {
        return Err(EventFault::BadText { at: at + 1 });
    }
    match before.cmp(name) {
        Ordering::Less => Ok(name),
        Ordering::Equal | Ordering::Greater => Err(EventFault::NotSorted { at: at + 1 }),
    }
}

/// The value behind its kind.
#[tactic(auto, unfolding(crate::specs::Decode::value_at, crate::specs::Decode::value_of_kind))]
fn value_at(bytes: &[u8], at: usize) -> Result<Part<'_>, EventFault>
    requires few { length bytes.now ≤ MAX_EVENT_BYTES }
    requires inside { at ≤ length bytes.now }
    ensures gives { MatchResult result
        (λ p. value_at bytes.now at ≡ Ok (part_value p))
        (λ e. value_at bytes.now at ≡ Err e) }
    ensures value { IfOk result (λ p. IsValue (part_value p)) }
    ensures within { IfOk result (λ p. at + 1 + value_size (part_value p) ≤ length bytes.now) }
{
    match byte_at(bytes, at)? {
        1 => integer_at(bytes, at + 1),
        2 => text_value_at(bytes, at + 1),
        3 => truth_at(bytes, at + 1),
        _ => Err(EventFault::BadKind { at }),
    }
}

/// An integer of eight bytes.
#[tactic(auto, unfolding(crate::specs::Decode::integer_at))]
fn integer_at(bytes: &[u8], at: usize) -> Result<Part<'_>, EventFault>
    requires { at + 8 < 2 ^ 64 }
    ensures gives { MatchResult result
        (λ p. integer_at bytes.now at ≡ Ok (part_value p))
        (λ e. integer_at bytes.now at ≡ Err e) }
    ensures value { IfOk result (λ p. IsValue (part_value p)) }
    ensures within { IfOk result (λ p. at + value_size (part_value p) ≤ length bytes.now) }
{
    let field = field_at(bytes, at, 8)?;
    Ok(Part::Int(number_of(field)))
}

/// A text behind its length of two bytes.
#[tactic(auto, unfolding(crate::specs::Decode::text_value_at, crate::specs::Decode::text_of_length), using(crate::proofs::Decoding::told_text))]
fn text_value_at(bytes: &[u8], at: usize) -> Result<Part<'_>, EventFault>
    requires { at + 65538 < 2 ^ 64 }
    ensures gives { MatchResult result
        (λ p. text_value_at bytes.now at ≡ Ok (part_value p))
        (λ e. text_value_at bytes.now at ≡ Err e) }
    ensures value { IfOk result (λ p. IsValue (part_value p)) }
    ensures within { IfOk result (λ p. at + value_size (part_value p) ≤ length bytes.now) }
{
    let len = length_of(field_at(bytes, at, 2)?);
    if usize::from(len) > MAX_TEXT {
        return Err(EventFault::BadLength { at });
    }
    let text = field_at(bytes, at + 2, usize::from(len))?;
    if !is_text(text) {
        return Err(EventFault::BadText { at: at + 2 });
    }
    Ok(Part::Text(text))
}

/// A truth value of one byte.
#[tactic(auto, unfolding(crate::specs::Decode::truth_at))]
fn truth_at(bytes: &[u8], at: usize) -> Result<Part<'_>, EventFault>
    ensures gives { MatchResult result
        (λ p. truth_at bytes.now at ≡ Ok (part_value p))
        (λ e. truth_at bytes.now at ≡ Err e) }
    ensures value { IfOk result (λ p. IsValue (part_value p)) }
    ensures within { IfOk result (λ p. at + value_size (part_value p) ≤ length bytes.now) }
{
    match byte_at(bytes, at)? {
        0 => Ok(Part::Bool(false)),
        1 => Ok(Part::Bool(true)),
        _ => Err(EventFault::BadKind { at }),
    }
}

/// Whether so many pairs stand behind their count, and nothing after them.
fn pairs_at(bytes: &[u8], count: u8) -> Result<(), EventFault>
    requires some { 1 ≤ length bytes.now }
    requires short { length bytes.now ≤ MAX_EVENT_BYTES }
    requires few { count ≤ MAX_PAIRS }
    ensures { TellsEvent result (pairs_at bytes.now count 1 []) }
{
    let mut before: &[u8] = &[];
    let mut at = 1;
    for _ in 0..count {
        let name = name_at(bytes, at, before)?;
        let part = value_at(bytes, at + 1 + name.len())?;
        at += 2 + name.len() + size_of_part(part);
        before = name;
    }
    if at < bytes.len() {
        return Err(EventFault::Trailing { at });
    }
    Ok(())
}

/// How many bytes a value takes behind its kind.
fn size_of_part(part: Part<'_>) -> usize
    requires { IsValue (part_value part) }
    ensures size { result ≡ value_size (part_value part.entry) }
    ensures bound { result ≤ 1026 }
{
    match part {
        Part::Int(_) => 8,
        Part::Text(text) => 2 + text.len(),
        Part::Bool(_) => 1,
    }
}

/// The integer that eight bytes spell.
pub(crate) fn number_of(field: &[u8]) -> i64
    requires { length field.now ≡ 8 }
    ensures { result ≡ cast_signed w64 (from_be_bytes w64 field.now) }
{
    BigEndian::read_i64(field)
}

/// The length that two bytes spell.
pub(crate) fn length_of(field: &[u8]) -> u16
    requires { length field.now ≡ 2 }
    ensures { result ≡ from_be_bytes w16 field.now }
{
    BigEndian::read_u16(field)
}
