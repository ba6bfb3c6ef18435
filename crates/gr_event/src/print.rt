//! Events to JSON: their compact text at the end of a text.

ghost use Rattle.std.specs.Prelude.{◌≡◌, ℕ, ◌<◌, List, ◌++◌, ◌∷◌, Ok, IfOk, OnOk, OnErr};
ghost use Rattle.std.specs.Char.{digit_char};
ghost use Rattle.std.specs.Fmt.{signed_decimal};
ghost use Rattle.std.specs.List.{list_all};
ghost use Rattle.json.specs.Token.{key};
ghost use Rattle.json.specs.Run.{is_plain};
ghost use Rattle.json.specs.Print.{escape_byte, escape, quoted, token_text, separator, print, print_from};
ghost use Rattle.gr_event.specs.Json.{value_token, members_tokens_of, event_tokens, json_text, event_text};
ghost use Rattle.gr_event.specs.Limits.{IsEvent};
ghost use Rattle.gr_event.specs.Form.{Spell};
ghost use Rattle.gr_event.specs.Get.{part_value};
ghost use Rattle.gr_event.specs.Grows.{Grows};
ghost use Rattle.gr_event.specs.declared.event.Event.{Event};

use crate::event::{Event, Memory};
use crate::text::Text;
use crate::value::Part;
use crate::walk::front;
use std::alloc::Global;

/// From so many bytes on a text is not looked at byte by byte.
pub(crate) const MANY: usize = 12;

impl Event {
    /// Its compact JSON text: `{"name":value,...}` without spaces, names rising.
    pub fn json(&self, alloc: Global) -> Result<Text, Memory>
        ensures text { IfOk result (λ t. t ≡ json_text self.now) }
        ensures reads_back { IfOk result (λ t. event_text t ≡ Ok self.now) }
    {
        let mut text = Text::new(alloc);
        self.json_into(&mut text)?;
        Ok(text)
    }

    /// Puts its compact JSON text, as `json` gives it, at the end of a text. It takes memory only where the text has
    /// to grow. At want of memory the text stays as it was.
    pub fn json_into(&self, into: &mut Text) -> Result<(), Memory>
        ensures text { OnOk result (into.new ≡ into.old ++ json_text self.now) }
        ensures err { OnErr result (into.new ≡ into.old) }
        ensures event { IsEvent self.now }
    {
        let before = into.len();
        match put_object(&self.bytes()[1..], into) {
            Ok(()) => Ok(()),
            Err(refused) => {
                into.truncate(before);
                Err(refused)
            }
        }
    }
}

/// Puts the object of an event's pairs at the end of a text. At want of memory a part of it may stand there.
fn put_object(rest: &[u8], into: &mut Text) -> Result<(), Memory>
    requires { (ps : Event) × Spell rest.now ps }
    ensures ok { OnOk result ((ps : Event) → Spell rest.now ps → into.new ≡ into.old ++ print (event_tokens ps)) }
    ensures grows { Grows into.old into.new }
{
    match into.push(b'{') {
        Ok(()) => put_members(false, rest, into),
        Err(refused) => Err(refused),
    }
}

/// Puts the members of an object and its closing bracket at the end of a text, a comma before each where it comes
/// `after` another. At want of memory a part of them may stand there.
fn put_members(after: bool, rest: &[u8], into: &mut Text) -> Result<(), Memory>
    requires { (ps : Event) × Spell rest.now ps }
    ensures ok { OnOk result
        ((ps : Event) → Spell rest.now ps → into.new ≡ into.old ++ print_from after (members_tokens_of ps)) }
    ensures grows { Grows into.old into.new }
{
    if rest.is_empty() {
        return into.push(b'}');
    }
    let (name, part, others) = front(rest);
    match put_member(after, name, part, into) {
        Ok(()) => put_members(true, others, into),
        Err(refused) => Err(refused),
    }
}

/// Puts a name and its value at the end of a text. At want of memory a part of them may stand there.
fn put_member(after: bool, name: &[u8], part: Part<'_>, into: &mut Text) -> Result<(), Memory>
    ensures ok { OnOk result (into.new ≡ (into.old ++ (separator after (key name.now) ++ token_text (key name.now)))
        ++ token_text (value_token (part_value part.entry))) }
    ensures grows { Grows into.old into.new }
{
    match put_name(after, name, into) {
        Ok(()) => put_part(part, into),
        Err(refused) => Err(refused),
    }
}

/// Puts a name at the end of a text, with no colon behind it. At want of memory a part of it may stand there.
fn put_name(after: bool, name: &[u8], into: &mut Text) -> Result<(), Memory>
    ensures ok { OnOk result (into.new ≡ into.old ++ (separator after (key name.now) ++ quoted name.now)) }
    ensures grows { Grows into.old into.new }
{
    match put_comma(after, into) {
        Ok(()) => {}
        Err(refused) => return Err(refused),
    }
    put_quoted(name, into)
}

/// Puts the comma that stands after another member, if there is one.
fn put_comma(after: bool, into: &mut Text) -> Result<(), Memory>
    ensures ok { (name : List ℕ) → OnOk result (into.new ≡ into.old ++ separator after (key name)) }
    ensures grows { Grows into.old into.new }
{
    if after {
        return into.push(b',');
    }
    Ok(())
}

/// Puts a colon and a value behind it at the end of a text. At want of memory a part of them may stand there.
fn put_part(part: Part<'_>, into: &mut Text) -> Result<(), Memory>
    ensures ok { OnOk result (into.new ≡ into.old ++ 58 ∷ token_text (value_token (part_value part.entry))) }
    ensures grows { Grows into.old into.new }
{
    match part {
        Part::Int(number) => put_number(number, into),
        Part::Text(text) => match into.push(b':') {
            Ok(()) => put_quoted(text, into),
            Err(refused) => Err(refused),
        },
        Part::Bool(true) => into.append(b":true"),
        Part::Bool(false) => into.append(b":false"),
    }
}

/// Puts a colon and an integer behind it at the end of a text. At want of memory the colon may stand there.
fn put_number(number: i64, into: &mut Text) -> Result<(), Memory>
    ensures ok { OnOk result (into.new ≡ into.old ++ 58 ∷ signed_decimal number) }
    ensures grows { Grows into.old into.new }
{
    if number >= 0 {
        return into.append_number(b':', number as u64);
    }
    match into.push(b':') {
        Ok(()) => into.append_number(b'-', number.unsigned_abs()),
        Err(refused) => Err(refused),
    }
}

/// Puts a text between quotes at the end of a text. At want of memory a part of it may stand there.
fn put_quoted(text: &[u8], into: &mut Text) -> Result<(), Memory>
    ensures ok { OnOk result (into.new ≡ into.old ++ quoted text.now) }
    ensures grows { Grows into.old into.new }
{
    match into.push(b'"') {
        Ok(()) => {}
        Err(refused) => return Err(refused),
    }
    match put_escaped(text, into) {
        Ok(()) => into.push(b'"'),
        Err(refused) => Err(refused),
    }
}

/// Puts a text at the end of a text, each byte that JSON escapes as its escape. At want of memory a part of it may
/// stand there.
fn put_escaped(text: &[u8], into: &mut Text) -> Result<(), Memory>
    ensures ok { OnOk result (into.new ≡ into.old ++ escape text.now) }
    ensures grows { Grows into.old into.new }
{
    if is_plain_text(text) {
        return into.append(text);
    }
    'bytes: for byte in text {
        match put_byte(*byte, into) {
            Ok(()) => {}
            Err(refused) => return Err(refused),
        }
    }
    Ok(())
}

/// Whether each byte of a text stands for itself.
fn is_plain_text(text: &[u8]) -> bool
    ensures { result ≡ list_all is_plain text.now }
{
    if text.len() < MANY {
        return text.iter().all(|byte| is_plain(*byte));
    }
    are_all_plain(text)
}

/// The same, many bytes at a time. Never inlined, so that the walk over few can be.
#[inline(never)]
pub(crate) fn are_all_plain(text: &[u8]) -> bool
    ensures { result ≡ list_all is_plain text.now }
{
    let mut plain = true;
    'bytes: for byte in text {
        plain &= is_plain(*byte);
    }
    plain
}

/// Whether a byte stands for itself in a text of JSON.
pub(crate) fn is_plain(byte: u8) -> bool
    ensures { result ≡ is_plain byte }
{
    byte != b'"' && byte != b'\\' && byte >= b' '
}

/// Puts what stands for a byte in a text of JSON at the end of a text.
#[tactic(auto, unfolding(json::specs::Print::escape_byte))]
fn put_byte(byte: u8, into: &mut Text) -> Result<(), Memory>
    ensures ok { OnOk result (into.new ≡ into.old ++ escape_byte byte) }
    ensures grows { Grows into.old into.new }
{
    match byte {
        b'"' | b'\\' => into.append(&[b'\\', byte]),
        8 => into.append(b"\\b"),
        12 => into.append(b"\\f"),
        b'\n' => into.append(b"\\n"),
        b'\r' => into.append(b"\\r"),
        b'\t' => into.append(b"\\t"),
        0..=31 => into.append(&[b'\\', b'u', b'0', b'0', digit(byte / 16), digit(byte % 16)]),
        _ => into.push(byte),
    }
}

/// The hexadecimal digit of a number.
fn digit(number: u8) -> u8
    requires { number < 16 }
    ensures { result ≡ digit_char number }
{
    if number < 10 {
        b'0' + number
    } else {
        b'a' + (number - 10)
    }
}
