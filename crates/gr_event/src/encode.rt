//! The form of an event in bytes, written.

ghost use Rattle.std.specs.Prelude.{◌≡◌, Ok, ◌+◌, ◌≤◌, ◌∷◌, ◌++◌, length};
ghost use Rattle.std.specs.Int.{to_be_bytes, cast_unsigned, w16, w64};
ghost use Rattle.std.specs.List.{AllByRecursion};
ghost use Rattle.gr_event.specs.Event.{event_size, event_bytes, pairs_size, pairs_bytes, value_size, value_bytes};
ghost use Rattle.gr_event.specs.Decode.{event_decoded};
ghost use Rattle.gr_event.specs.Limits.{IsPair, IsValue};
ghost use Rattle.gr_event.specs.declared.limits.TheConstants.{MAX_PAIRS, MAX_NAME, MAX_TEXT};

use crate::event::{Event, size_of_value};
use crate::text::Text;
use crate::value::Value;
use byteorder::{BigEndian, ByteOrder};

/// The kind of an integer.
pub(crate) const INTEGER: u8 = 1;

/// The kind of a text.
pub(crate) const TEXT: u8 = 2;

/// The kind of a truth value.
pub(crate) const TRUTH: u8 = 3;

impl Event {
    /// Writes its form in bytes into a slice of exactly its size. Takes no memory.
    pub fn encode_into(&self, into: &mut [u8])
        requires { length into.old ≡ event_size self.now }
        ensures bytes { into.new ≡ event_bytes self.now }
        ensures decodes_back { event_decoded into.new ≡ Ok self.now }
    {
        into.copy_from_slice(self.bytes());
    }
}

/// Writes pairs behind their count into a slice of exactly their size.
pub(crate) fn put_event(pairs: &[(Text, Value)], into: &mut [u8])
    requires few { length pairs.now ≤ MAX_PAIRS }
    requires each { AllByRecursion IsPair pairs.now }
    requires room { length into.old ≡ event_size pairs.now }
    ensures { into.new ≡ event_bytes pairs.now }
{
    let (count, rest) = into.split_at_mut(1);
    count[0] = pairs.len() as u8;
    put_pairs(pairs, rest);
}

/// Writes pairs into a slice of exactly their size.
fn put_pairs(pairs: &[(Text, Value)], into: &mut [u8])
    requires each { AllByRecursion IsPair pairs.now }
    requires room { length into.old ≡ pairs_size pairs.now }
    ensures { into.new ≡ pairs_bytes pairs.now }
{
    if let [first, rest @ ..] = pairs {
        let (name, behind) = into.split_at_mut(1 + first.0.len());
        put_name(first.0.as_slice(), name);
        let (value, others) = behind.split_at_mut(1 + size_of_value(&first.1));
        put_value(&first.1, value);
        put_pairs(rest, others);
    }
}

/// Writes a name behind its length.
fn put_name(name: &[u8], into: &mut [u8])
    requires few { length name.now ≤ MAX_NAME }
    requires room { length into.old ≡ 1 + length name.now }
    ensures { into.new ≡ length name.now ∷ name.now }
{
    let (len, rest) = into.split_at_mut(1);
    len[0] = name.len() as u8;
    rest.copy_from_slice(name);
}

/// Writes a value behind its kind.
fn put_value(value: &Value, into: &mut [u8])
    requires value { IsValue value.now }
    requires room { length into.old ≡ 1 + value_size value.now }
    ensures { into.new ≡ value_bytes value.now }
{
    match value {
        Value::Int(number) => put_integer(*number, into),
        Value::Text(text) => put_text(text.as_slice(), into),
        Value::Bool(holds) => {
            into[0] = TRUTH;
            into[1] = u8::from(*holds);
        }
    }
}

/// Writes an integer behind its kind.
fn put_integer(number: i64, into: &mut [u8])
    requires { length into.old ≡ 9 }
    ensures { into.new ≡ 1 ∷ to_be_bytes w64 (cast_unsigned w64 number) }
{
    let (kind, rest) = into.split_at_mut(1);
    kind[0] = INTEGER;
    put_number(number, rest);
}

/// Writes the eight bytes of an integer.
#[tactic(auto, using(crate::proofs::Decoding::nothing_left))]
fn put_number(number: i64, into: &mut [u8])
    requires { length into.old ≡ 8 }
    ensures { into.new ≡ to_be_bytes w64 (cast_unsigned w64 number) }
{
    BigEndian::write_i64(into, number);
}

/// Writes the two bytes of a length.
#[tactic(auto, using(crate::proofs::Decoding::nothing_left))]
fn put_length(len: u16, into: &mut [u8])
    requires { length into.old ≡ 2 }
    ensures { into.new ≡ to_be_bytes w16 len }
{
    BigEndian::write_u16(into, len);
}

/// Writes a text behind its kind and its length.
fn put_text(text: &[u8], into: &mut [u8])
    requires few { length text.now ≤ MAX_TEXT }
    requires room { length into.old ≡ 3 + length text.now }
    ensures { into.new ≡ 2 ∷ (to_be_bytes w16 (length text.now) ++ text.now) }
{
    let (kind, behind) = into.split_at_mut(1);
    kind[0] = TEXT;
    let (len, rest) = behind.split_at_mut(2);
    put_length(text.len() as u16, len);
    rest.copy_from_slice(text);
}
