//! Buckets: the filters that match only events with one value under one name.

ghost use Rattle.std.specs.Prelude.{◌≡◌, IfOk, OnOk, OnErr};
ghost use Rattle.gr_event.specs.Get.{part_value};
ghost use Rattle.gr_match.specs.Needed.{Pair, pair_of, is_pair};
ghost use Rattle.gr_match.specs.Index.{bucket_pair, with_place, put};

use crate::pair::{NamedPart, is_part};
use gr_event::{Memory, Numbers, Part, Text, Value};
use std::alloc::Global;

/// The places of the filters that have the part `name = value`, rising.
#[derive(Drop)]
pub(crate) struct Bucket {
    /// The name of the part.
    pub(crate) name: Text,
    /// The value that the name is to have.
    pub(crate) value: Value,
    /// The places of the filters that have the part, rising.
    pub(crate) places: Numbers,
}

impl Bucket {
    /// Whether it is the bucket of a pair.
    pub(crate) fn is_of(&self, pair: NamedPart<'_>) -> bool
        ensures { result ≡ is_pair (pair_of pair.entry) (bucket_pair self.now) }
    {
        pair.name == self.name.as_slice() && is_part(pair.part, &self.value)
    }
}

/// The value that a reader sees.
fn copied(alloc: Global, part: Part<'_>) -> Result<Value, Memory>
    ensures { IfOk result (λ v. v ≡ part_value part.entry) }
{
    match part {
        Part::Int(number) => Ok(Value::Int(number)),
        Part::Text(text) => Ok(Value::Text(Text::from_slice(alloc, text)?)),
        Part::Bool(holds) => Ok(Value::Bool(holds)),
    }
}

/// The bucket of a pair, with one place.
fn bucket_of(alloc: Global, pair: NamedPart<'_>, place: u16) -> Result<Bucket, Memory>
    ensures { IfOk result (λ b. b ≡ with_place (pair_of pair.entry) place) }
{
    let mut places = Numbers::new(alloc);
    places.push(place)?;
    Ok(Bucket {
        name: Text::from_slice(alloc, pair.name)?,
        value: copied(alloc, pair.part)?,
        places,
    })
}

/// Puts a place into the bucket of its pair, which is a new one where there is none. At want of memory
/// the buckets stay as they were.
pub(crate) fn put(
    alloc: Global,
    buckets: &mut Vec<Bucket>,
    pair: NamedPart<'_>,
    place: u16,
) -> Result<(), Memory>
    ensures ok { OnOk result (buckets.new.items ≡ put (pair_of pair.entry) place buckets.old.items) }
    ensures err { OnErr result (buckets.new.items ≡ buckets.old.items) }
{
    for i in 0..buckets.len() {
        if buckets[i].is_of(pair) {
            return buckets[i].places.push(place);
        }
    }
    let bucket = bucket_of(alloc, pair, place)?;
    buckets.push(bucket)?;
    Ok(())
}
