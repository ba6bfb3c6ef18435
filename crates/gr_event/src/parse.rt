//! Events from JSON, by `serde_json`.

ghost use Rattle.std.specs.Prelude.{◌≡◌, IfOk, string_bytes};
ghost use Rattle.std.specs.List.{AllByRecursion};
ghost use Rattle.serde_json.specs.Data.{object};
ghost use Rattle.serde_json.specs.View.{view, members_view};
ghost use Rattle.gr_event.specs.Gives.{Gives, GivesPairs};
ghost use Rattle.gr_event.specs.Json.{text_from, value_from, name_from, pair_from, pairs_from, event_from, event_text};
ghost use Rattle.gr_event.specs.Limits.{names, key_texts, IsName, IsValue, IsPair};

use crate::compact::from_compact;
use crate::event::{Event, EventFault};
use crate::limits::{MAX_NAME, MAX_PAIRS, MAX_TEXT};
use crate::text::Text;
use crate::value::Value;
use serde_json::{Map, Value as Json};
use std::alloc::Global;

impl Event {
    /// The event that a JSON text stands for.
    ///
    /// `NotJson` comes exactly where `serde_json` refuses the bytes for another cause than memory;
    /// then the faults are those of `from_json`.
    pub fn from_text(alloc: Global, bytes: &[u8]) -> Result<Event, EventFault>
        ensures { Gives result (event_text bytes.now) }
    {
        if let Some(event) = from_compact(alloc, bytes)? {
            return Ok(event);
        }
        match Json::from_slice(alloc, bytes) {
            Ok(value) => Event::from_json(alloc, value),
            Err(error) => {
                if error.is_memory() {
                    Err(EventFault::Memory)
                } else {
                    Err(EventFault::NotJson)
                }
            }
        }
    }

    /// The event that a JSON value is. Its names and texts are moved out of the value and not copied.
    ///
    /// The first of these faults comes: `NotObject`; `TooMany` (more than 32 names); name by name in
    /// byte order `BadName`, `BadValue` and `TooLong` (a text of more than 1,024 bytes); last
    /// `TooLong` where the form in bytes has more than 8,192.
    #[tactic(auto, unfolding(crate::specs::Json::event_from))]
    pub fn from_json(alloc: Global, value: Json) -> Result<Event, EventFault>
        ensures { Gives result (event_from (view value)) }
    {
        match value {
            Json::Object(map) => event_of(alloc, map),
            _ => Err(EventFault::NotObject),
        }
    }
}

/// The event of an object's members.
fn event_of(alloc: Global, map: Map<String, Json>) -> Result<Event, EventFault>
    ensures { Gives result (event_from (object (members_view map.entries))) }
{
    if map.len() > MAX_PAIRS {
        drop(map);
        return Err(EventFault::TooMany);
    }
    match pairs_of(alloc, map) {
        Ok(pairs) => Event::of_short_pairs(alloc, pairs),
        Err(fault) => Err(fault),
    }
}

fn text_of(text: String) -> Result<Value, EventFault>
    ensures gives { Gives result (text_from (string_bytes text)) }
    ensures value { IfOk result IsValue }
{
    if text.len() > MAX_TEXT {
        return Err(EventFault::TooLong);
    }
    Ok(Value::Text(Text::from_vec(text.into_bytes())))
}

fn value_of(value: Json) -> Result<Value, EventFault>
    ensures gives { Gives result (value_from (view value)) }
    ensures value { IfOk result IsValue }
{
    match value {
        Json::Bool(b) => Ok(Value::Bool(b)),
        Json::Number(n) => match n.as_i64() {
            Some(z) => Ok(Value::Int(z)),
            None => Err(EventFault::BadValue),
        },
        Json::String(s) => text_of(s),
        Json::Null => Err(EventFault::BadValue),
        Json::Array(_) => Err(EventFault::BadValue),
        Json::Object(_) => Err(EventFault::BadValue),
    }
}

fn name_of(name: String) -> Result<Text, EventFault>
    ensures gives { Gives result (name_from (string_bytes name)) }
    ensures name { IfOk result IsName }
    ensures same { IfOk result (λ n. n ≡ string_bytes name) }
{
    if name.is_empty() || name.len() > MAX_NAME {
        return Err(EventFault::BadName);
    }
    Ok(Text::from_vec(name.into_bytes()))
}

fn pair_of(name: String, value: Json) -> Result<(Text, Value), EventFault>
    ensures gives { Gives result (pair_from (string_bytes name) (view value)) }
    ensures pair { IfOk result IsPair }
    ensures name { IfOk result (λ p. p.0 ≡ string_bytes name) }
{
    let name = name_of(name)?;
    let value = value_of(value)?;
    Ok((name, value))
}

/// The pairs of an object's members.
fn pairs_of(alloc: Global, map: Map<String, Json>) -> Result<Vec<(Text, Value)>, EventFault>
    ensures gives { GivesPairs result (pairs_from (members_view map.entries)) }
    ensures each { IfOk result (λ v. AllByRecursion IsPair v.items) }
    ensures names { IfOk result (λ v. names v.items ≡ key_texts map.entries) }
{
    let mut found = Vec::with_capacity(alloc, map.len())?;
    for (name, value) in map {
        match pair_of(name, value) {
            Ok(pair) => found.push(pair)?,
            Err(fault) => return Err(fault),
        }
    }
    Ok(found)
}
