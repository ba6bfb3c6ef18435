//! The compact text of an event, sought at the front of a text. Nothing here takes memory.
//!
//! Each function gives what is left of the text behind the part that it seeks, and none where that part does not stand
//! at the front. Names and texts with a byte that JSON escapes are not found.

ghost use Rattle.std.specs.Prelude.{◌≡◌, ℕ, List, ◌++◌, ◌∷◌, IsTrue, IfSome};
ghost use Rattle.std.specs.Fmt.{signed_decimal};
ghost use Rattle.json.specs.Token.{key};
ghost use Rattle.json.specs.Print.{escape, quoted, token_text, separator, print, print_from};
ghost use Rattle.gr_event.specs.Json.{value_token, members_tokens_of, event_tokens, json_text};
ghost use Rattle.gr_event.specs.Limits.{IsEvent};
ghost use Rattle.gr_event.specs.Form.{Spell};
ghost use Rattle.gr_event.specs.Get.{part_value};
ghost use Rattle.gr_event.specs.declared.event.Event.{Event};

use crate::event::Event;
use crate::print::{MANY, are_all_plain, is_plain};
use crate::value::Part;
use crate::walk::front;
use itoa::Buffer;

impl Event {
    /// Whether it prints as this text, and no byte of that is an escape.
    pub(crate) fn prints(&self, text: &[u8]) -> bool
        ensures text { IsTrue result → text.now ≡ json_text self.now }
        ensures event { IsEvent self.now }
    {
        matches!(behind_object(&self.bytes()[1..], text), Some([]))
    }
}

/// Behind the object of an event's pairs.
fn behind_object<'a>(rest: &[u8], text: &'a [u8]) -> Option<&'a [u8]>
    requires { (ps : Event) × Spell rest.now ps }
    ensures { IfSome result (λ left. (ps : Event) → Spell rest.now ps
        → text.now ≡ print (event_tokens ps) ++ left.now) }
{
    behind_members(false, rest, behind_byte(b'{', text)?)
}

/// Behind the members of an object and its closing bracket, a comma before each where it comes `after` another.
fn behind_members<'a>(after: bool, rest: &[u8], text: &'a [u8]) -> Option<&'a [u8]>
    requires { (ps : Event) × Spell rest.now ps }
    ensures { IfSome result (λ left. (ps : Event) → Spell rest.now ps
        → text.now ≡ print_from after (members_tokens_of ps) ++ left.now) }
{
    let mut later = after;
    let mut pairs = rest;
    let mut left = text;
    'pairs: while !pairs.is_empty() {
        let (name, part, others) = front(pairs);
        left = behind_member(later, name, part, left)?;
        pairs = others;
        later = true;
    }
    behind_byte(b'}', left)
}

/// Behind a name and its value.
fn behind_member<'a>(after: bool, name: &[u8], part: Part<'_>, text: &'a [u8]) -> Option<&'a [u8]>
    ensures { IfSome result (λ left. text.now ≡ ((separator after (key name.now) ++ token_text (key name.now))
        ++ token_text (value_token (part_value part.entry))) ++ left.now) }
{
    behind_part(part, behind_name(after, name, text)?)
}

/// Behind a name and its colon.
fn behind_name<'a>(after: bool, name: &[u8], text: &'a [u8]) -> Option<&'a [u8]>
    ensures { IfSome result (λ left.
        text.now ≡ (separator after (key name.now) ++ token_text (key name.now)) ++ left.now) }
{
    behind_byte(b':', behind_quoted(name, behind_comma(after, text)?)?)
}

/// Behind the comma that stands after another member, if there is one.
fn behind_comma(after: bool, text: &[u8]) -> Option<&[u8]>
    ensures { (name : List ℕ) → IfSome result (λ left. text.now ≡ separator after (key name) ++ left.now) }
{
    if after {
        return behind_byte(b',', text);
    }
    Some(text)
}

/// Behind a value.
fn behind_part<'a>(part: Part<'_>, text: &'a [u8]) -> Option<&'a [u8]>
    ensures { IfSome result (λ left. text.now ≡ token_text (value_token (part_value part.entry)) ++ left.now) }
{
    match part {
        Part::Int(number) => behind_number(number, text),
        Part::Text(inside) => behind_quoted(inside, text),
        Part::Bool(true) => behind_bytes(b"true", text),
        Part::Bool(false) => behind_bytes(b"false", text),
    }
}

/// Behind an integer.
fn behind_number(number: i64, text: &[u8]) -> Option<&[u8]>
    ensures { IfSome result (λ left. text.now ≡ signed_decimal number ++ left.now) }
{
    let mut digits = Buffer::new();
    behind_bytes(digits.format(number).as_bytes(), text)
}

/// Behind a text between quotes.
fn behind_quoted<'a>(inside: &[u8], text: &'a [u8]) -> Option<&'a [u8]>
    ensures { IfSome result (λ left. text.now ≡ quoted inside.now ++ left.now) }
{
    behind_byte(b'"', behind_plain(inside, behind_byte(b'"', text)?)?)
}

/// Behind a text that stands for itself.
fn behind_plain<'a>(inside: &[u8], text: &'a [u8]) -> Option<&'a [u8]>
    ensures { IfSome result (λ left. text.now ≡ escape inside.now ++ left.now) }
{
    if inside.len() < MANY {
        return behind_few(inside, text);
    }
    behind_many(inside, text)
}

/// The same, many bytes at a time. Never inlined, so that the walk over few can be.
#[inline(never)]
fn behind_many<'a>(inside: &[u8], text: &'a [u8]) -> Option<&'a [u8]>
    ensures { IfSome result (λ left. text.now ≡ escape inside.now ++ left.now) }
{
    if !are_all_plain(inside) {
        return None;
    }
    behind_bytes(inside, text)
}

/// The same, byte by byte.
fn behind_few<'a>(inside: &[u8], text: &'a [u8]) -> Option<&'a [u8]>
    ensures { IfSome result (λ left. text.now ≡ escape inside.now ++ left.now) }
{
    let mut left = text;
    'bytes: for byte in inside {
        if !is_plain(*byte) {
            return None;
        }
        left = behind_byte(*byte, left)?;
    }
    Some(left)
}

/// Behind these bytes.
fn behind_bytes<'a>(bytes: &[u8], text: &'a [u8]) -> Option<&'a [u8]>
    ensures { IfSome result (λ left. text.now ≡ bytes.now ++ left.now) }
{
    text.strip_prefix(bytes)
}

/// Behind a byte.
fn behind_byte(byte: u8, text: &[u8]) -> Option<&[u8]>
    ensures { IfSome result (λ left. text.now ≡ byte ∷ left.now) }
{
    match text {
        [first, left @ ..] if *first == byte => Some(left),
        _ => None,
    }
}
