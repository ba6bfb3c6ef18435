//! The first candidate that one filter matches and the other does not.

ghost use Rattle.std.specs.Prelude.{◌≡◌, ◌++◌, ◌∷◌, [], find, IfOk, OnOk};
ghost use Rattle.std.specs.List.{AllByRecursion};
ghost use Rattle.gr_event.specs.Event.{pairs_bytes, value_bytes};
ghost use Rattle.gr_event.specs.Limits.{IsEvent, IsPair, IsValue};
ghost use Rattle.gr_filter.specs.Tree.{tree_of};
ghost use Rattle.gr_filter.specs.Truth.{matches};
ghost use Rattle.gr_cover.specs.Candidates.{events_from};
ghost use Rattle.gr_cover.specs.Answer.{differs};

use crate::attribute::Attribute;
use gr_event::{Event, Memory, Text, Value};
use gr_filter::{Filter, Kleene, truth};
use std::alloc::{AllocError, Global};

/// The first of the events that go on from the pairs by the names, with `narrow` matching and `wide` not.
pub(crate) fn first_from(
    alloc: Global,
    wide: &Filter,
    narrow: &Filter,
    pairs: &[(Text, Value)],
    attributes: &[Attribute],
) -> Result<Option<Event>, Memory>
    requires { AllByRecursion IsEvent (events_from pairs.now attributes.now) }
    ensures { let test = differs (tree_of wide.now) (tree_of narrow.now) in
        IfOk result (λ e. e ≡ find test (events_from pairs.now attributes.now)) }
{
    match attributes {
        [] => one(alloc, wide, narrow, pairs),
        [first, rest @ ..] => {
            let found = first_from(alloc, wide, narrow, pairs, rest)?;
            if found.is_some() {
                return Ok(found);
            }
            'values: for value in first.values.as_slice() {
                let longer = with_pair(alloc, pairs, &first.name, value)?;
                let found = first_from(alloc, wide, narrow, &longer, rest)?;
                if found.is_some() {
                    return Ok(found);
                }
            }
            Ok(None)
        }
    }
}

/// The event of the pairs, where `narrow` matches it and `wide` does not.
fn one(
    alloc: Global,
    wide: &Filter,
    narrow: &Filter,
    pairs: &[(Text, Value)],
) -> Result<Option<Event>, Memory>
    requires { IsEvent pairs.now }
    ensures { IfOk result (λ e. e ≡ find (differs (tree_of wide.now) (tree_of narrow.now)) (pairs.now ∷ [])) }
{
    let event = event_of(alloc, pairs)?;
    if differs(wide, narrow, &event) {
        return Ok(Some(event));
    }
    Ok(None)
}

/// Whether `narrow` matches the event, and `wide` does not.
fn differs(wide: &Filter, narrow: &Filter, event: &Event) -> bool
    ensures { result ≡ differs (tree_of wide.now) (tree_of narrow.now) event.now }
{
    is_match(narrow, event) && !is_match(wide, event)
}

/// Whether the truth is true; an unknown one is not.
fn is_match(filter: &Filter, event: &Event) -> bool
    ensures { result ≡ matches (tree_of filter.now) event.now }
{
    matches!(truth(filter, event), Kleene::True)
}

/// The pairs with one more.
fn with_pair(
    alloc: Global,
    pairs: &[(Text, Value)],
    name: &Text,
    value: &Value,
) -> Result<Vec<(Text, Value)>, Memory>
    ensures { IfOk result (λ v. v.items ≡ pairs.now ++ (name.now, value.now) ∷ []) }
{
    let mut longer = Vec::new(alloc);
    for pair in pairs {
        longer.push(copied(alloc, &pair.0, &pair.1)?)?;
    }
    longer.push(copied(alloc, name, value)?)?;
    Ok(longer)
}

/// An equal pair.
fn copied(alloc: Global, name: &Text, value: &Value) -> Result<(Text, Value), Memory>
    ensures { IfOk result (λ p. p ≡ (name.now, value.now)) }
{
    let name = Text::from_slice(alloc, name.as_slice())?;
    match value {
        Value::Int(number) => Ok((name, Value::Int(*number))),
        Value::Text(text) => {
            let text = Text::from_slice(alloc, text.as_slice())?;
            Ok((name, Value::Text(text)))
        }
        Value::Bool(holds) => Ok((name, Value::Bool(*holds))),
    }
}

/// The event of the pairs.
fn event_of(alloc: Global, pairs: &[(Text, Value)]) -> Result<Event, Memory>
    requires { IsEvent pairs.now }
    ensures { IfOk result (λ e. e ≡ pairs.now) }
{
    let mut bytes = Vec::new(alloc);
    bytes.push(pairs.len() as u8)?;
    put_pairs(&mut bytes, pairs)?;
    match Event::decode(alloc, &bytes) {
        Ok(event) => Ok(event),
        Err(_) => Err(AllocError),
    }
}

/// Spells pairs at the end.
fn put_pairs(bytes: &mut Vec<u8>, pairs: &[(Text, Value)]) -> Result<(), Memory>
    requires { AllByRecursion IsPair pairs.now }
    ensures { OnOk result (bytes.new.items ≡ bytes.old.items ++ pairs_bytes pairs.now) }
{
    match pairs {
        [] => Ok(()),
        [first, rest @ ..] => {
            bytes.push(first.0.len() as u8)?;
            bytes.extend_from_slice(first.0.as_slice())?;
            put_value(bytes, &first.1)?;
            put_pairs(bytes, rest)
        }
    }
}

/// Spells a value at the end, behind its kind.
fn put_value(bytes: &mut Vec<u8>, value: &Value) -> Result<(), Memory>
    requires { IsValue value.now }
    ensures { OnOk result (bytes.new.items ≡ bytes.old.items ++ value_bytes value.now) }
{
    match value {
        Value::Int(number) => {
            bytes.push(1)?;
            bytes.extend_from_slice(&number.to_be_bytes())
        }
        Value::Text(text) => {
            let count = text.len() as u16;
            bytes.push(2)?;
            bytes.extend_from_slice(&count.to_be_bytes())?;
            bytes.extend_from_slice(text.as_slice())
        }
        Value::Bool(holds) => {
            bytes.push(3)?;
            bytes.push(u8::from(*holds))?;
            Ok(())
        }
    }
}
