//! The names of a pair of filters, each with its candidates.

ghost use Rattle.std.specs.Prelude.{◌≡◌, ◌+◌, ◌*◌, min, [], map, filter, length, nat_le, IfOk, OnOk, Some};
ghost use Rattle.std.specs.List.{flat_map};
ghost use Rattle.std.specs.Ordering.{nat_cmp};
ghost use Rattle.std.specs.Cmp.Lexicographic.{slice_cmp};
ghost use Rattle.gr_cover.specs.Candidates.{value_cmp, inserted, with_all, near, values_near, values_at, known};
ghost use Rattle.gr_cover.specs.Candidates.{with_zero, spare, with_text, attribute, names_of, attributes, choices, parts};

use crate::mention::Mention;
use crate::values::{Values, has_integer, has_text};
use gr_event::{MAX_NAME, MAX_TEXT, Memory, Text, Value};
use std::alloc::Global;
use std::cmp::Ordering;

/// A name with the values that it is tried with, and whether there is a text among them that is no literal.
#[derive(Drop)]
pub(crate) struct Attribute {
    /// The name of the attribute.
    pub(crate) name: Text,
    /// The values that it is tried with, rising.
    pub(crate) values: Values,
    /// Whether a text that is no literal is among these.
    pub(crate) has_spare: bool,
}

/// The names that an event can have, rising, each with its candidates.
pub(crate) fn attributes(alloc: Global, mentions: &[Mention]) -> Result<Vec<Attribute>, Memory>
    ensures { IfOk result (λ found. found.items ≡ attributes mentions.now) }
{
    let names = names_of(alloc, mentions)?;
    let mut found = Vec::new(alloc);
    for name in &names {
        let next = attribute_of(alloc, mentions, name)?;
        found.push(next)?;
    }
    Ok(found)
}

/// How many candidates there are, up to the greatest number of 64 bits.
pub(crate) fn parts(attributes: &[Attribute]) -> u64
    ensures { result ≡ parts attributes.now }
{
    match attributes {
        [] => 1,
        [first, rest @ ..] => parts(rest).saturating_mul(choices(first)),
    }
}

/// In how many ways a name is tried; more than are ever tried where it has no text that is no literal.
fn choices(attribute: &Attribute) -> u64
    ensures { result ≡ choices attribute.now }
{
    if attribute.has_spare {
        1 + attribute.values.as_slice().len() as u64
    } else {
        u64::MAX
    }
}

/// The names that an event can have, rising, each once.
fn names_of(alloc: Global, mentions: &[Mention]) -> Result<Vec<Text>, Memory>
    ensures { IfOk result (λ names. names.items ≡ names_of mentions.now) }
{
    let mut names = Vec::new(alloc);
    for mention in mentions {
        if mention.name.len() <= MAX_NAME {
            insert_name(alloc, &mut names, &mention.name)?;
        }
    }
    Ok(names)
}

/// Puts a name into its place in a rising list, unless it stands there.
fn insert_name(alloc: Global, names: &mut Vec<Text>, name: &Text) -> Result<(), Memory>
    ensures { OnOk result (names.new.items ≡ inserted (slice_cmp nat_cmp) name.now names.old.items) }
{
    let name = Text::from_slice(alloc, name.as_slice())?;
    for i in 0..names.len() {
        match name.as_slice().cmp(names[i].as_slice()) {
            Ordering::Less => {
                names.insert(i, name)?;
                return Ok(());
            }
            Ordering::Equal => return Ok(()),
            Ordering::Greater => {}
        }
    }
    names.push(name)?;
    Ok(())
}

/// A name with its candidates.
fn attribute_of(alloc: Global, mentions: &[Mention], name: &Text) -> Result<Attribute, Memory>
    ensures { IfOk result (λ a. a ≡ attribute mentions.now name.now) }
{
    let mut values = known(alloc, mentions, name)?;
    let spare = spare(alloc, &values)?;
    let has_spare = spare.is_some();
    put_zero(&mut values)?;
    put_text(&mut values, spare)?;
    Ok(Attribute {
        name: Text::from_slice(alloc, name.as_slice())?,
        values,
        has_spare,
    })
}

/// Puts 0 where there is no integer.
fn put_zero(values: &mut Values) -> Result<(), Memory>
    ensures { OnOk result (values.new ≡ with_zero values.old) }
{
    if has_integer(values.as_slice()) {
        return Ok(());
    }
    values.insert(Value::Int(0))
}

/// Puts a text, if there is one.
fn put_text(values: &mut Values, text: Option<Text>) -> Result<(), Memory>
    ensures { OnOk result (values.new ≡ with_text text values.old) }
{
    match text {
        Some(text) => values.insert(Value::Text(text)),
        None => Ok(()),
    }
}

/// The truth values, and what the literals give that the name is compared with.
fn known(alloc: Global, mentions: &[Mention], name: &Text) -> Result<Values, Memory>
    ensures { IfOk result (λ v. v ≡ known mentions.now name.now) }
{
    let mut values = Values::truths(alloc)?;
    for mention in mentions {
        if mention.name.same(name) {
            put_near(alloc, &mut values, &mention.literal)?;
        }
    }
    Ok(values)
}

/// Puts what a literal gives.
fn put_near(alloc: Global, values: &mut Values, literal: &Option<Value>) -> Result<(), Memory>
    ensures { OnOk result (values.new ≡ with_all value_cmp values.old (values_near literal.now)) }
{
    match literal {
        Some(Value::Int(number)) => put_neighbours(values, *number),
        Some(Value::Text(text)) => {
            if text.len() <= MAX_TEXT {
                let text = Text::from_slice(alloc, text.as_slice())?;
                return values.insert(Value::Text(text));
            }
            Ok(())
        }
        Some(Value::Bool(_)) | None => Ok(()),
    }
}

/// Puts an integer and its neighbours within 64 bits.
fn put_neighbours(values: &mut Values, number: i64) -> Result<(), Memory>
    ensures { OnOk result (values.new ≡ with_all value_cmp values.old (near number)) }
{
    if i64::MIN < number {
        values.insert(Value::Int(number - 1))?;
    }
    values.insert(Value::Int(number))?;
    if number < i64::MAX {
        values.insert(Value::Int(number + 1))?;
    }
    Ok(())
}

/// The shortest text of 1 to 1,024 letters x that is no value.
fn spare(alloc: Global, values: &Values) -> Result<Option<Text>, Memory>
    ensures { IfOk result (λ t. t ≡ spare values.now) }
{
    let mut text = Text::new(alloc);
    text.push(b'x')?;
    'letters: for _ in 0..MAX_TEXT {
        if !has_text(values.as_slice(), &text) {
            return Ok(Some(text));
        }
        text.push(b'x')?;
    }
    Ok(None)
}
