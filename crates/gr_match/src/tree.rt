//! A list of filters, kept by what an event has to have.

ghost use Rattle.std.specs.Prelude.{◌≡◌, ℕ, ◌<◌, ◌++◌, ◌∷◌, [], false, length, Some, IfOk, OnOk, OnErr};
ghost use Rattle.std.specs.List.{filter, flat_map, list_any, slice_get};
ghost use Rattle.gr_event.specs.Limits.{IsEvent};
ghost use Rattle.gr_filter.specs.Tree.{tree_of};
ghost use Rattle.gr_match.specs.Matches.{matches, any};
ghost use Rattle.gr_match.specs.Needed.{needed};
ghost use Rattle.gr_match.specs.Needed.{Pair, pair_of};
ghost use Rattle.gr_match.specs.Index.{trees, matches_at, places_for, places_of, asked, rest_with, row_with, row_at};

use crate::bucket::Bucket;
use crate::pair::{NamedPart, needed};
use crate::rows::Rows;
use gr_event::{Event, Memory, Numbers};
use gr_filter::{Filter, Kleene, truth};
use std::alloc::Global;
use std::marker::Model;

/// A list of at most 65,536 filters, seen as the list of their trees.
///
/// A filter whose outermost ANDs join a part `name = literal` stands in a bucket under that name and value, and is
/// asked only for events that have it. Buckets stand in rows, by name and value: an event looks up the rows of its own
/// pairs. All other filters are always asked.
#[derive(Drop)]
pub struct MatchTree {
    alloc: Global,
    filters: Vec<Filter>,
    rest: Numbers,
    rows: Rows,
}

impl Model for MatchTree {
    ghost use Rattle.std.specs.Prelude.{List};
    ghost use Rattle.gr_filter.specs.Tree.{Tree};
    ghost use Rattle.gr_match.specs.Code.{trees_code};

    ghost Value = { List Tree };

    ghost coded = { trees_code };

    ghost use Rattle.gr_match.specs.Index.{trees, row_at, IsIndex};

    ghost view = { λ t. trees t.filters.items };

    ghost invariant = { λ t. IsIndex (trees t.filters.items) t.rest (row_at t.rows) };
}

impl MatchTree {
    /// No filters. Takes no memory.
    pub fn new(alloc: Global) -> MatchTree
        ensures { result ≡ [] }
    {
        MatchTree {
            alloc,
            filters: Vec::new(alloc),
            rest: Numbers::new(alloc),
            rows: Rows::new(alloc),
        }
    }

    /// Puts a copy of the filter at the end of the list. `Memory`, where no memory was given, leaves the list as it
    /// was.
    pub fn add(&mut self, filter: &Filter) -> Result<(), Memory>
        requires { length self.old < 65536 }
        ensures ok { OnOk result (self.new ≡ self.old ++ tree_of filter.now ∷ []) }
        ensures err { OnErr result (self.new ≡ self.old) }
    {
        let copy = filter.copy(self.alloc)?;
        self.filters.reserve(1)?;
        let place = self.filters.len() as u16;
        enter(self.alloc, &mut self.rest, &mut self.rows, filter, place)?;
        self.filters.push(copy)?;
        Ok(())
    }

    /// The places, from 0 on and rising, of exactly the filters that match the event: those whose truth is true.
    /// `Memory` where no memory was given for them.
    pub fn matches(&self, event: &Event) -> Result<Numbers, Memory>
        ensures { IfOk result (λ places. places ≡ matches self.now event.now) }
    {
        let mut places = asked(self.alloc, &self.rest, &self.rows, event)?;
        places.sort_unstable();
        matching(self.alloc, &self.filters, &places, event)
    }

    /// How many filters there are.
    pub fn len(&self) -> usize
        ensures { result ≡ length self.now }
    {
        self.filters.len()
    }

    /// The filter at a place, from 0 on.
    pub fn filter(&self, place: usize) -> &Filter
        requires { place < length self.now }
        ensures { slice_get self.now place ≡ Some (tree_of result.now) }
    {
        &self.filters[place]
    }

    /// Whether some filter matches the event. Takes no memory.
    pub fn any(&self, event: &Event) -> bool
        ensures answer { result ≡ any self.now event.now }
        ensures event { result ≡ false → IsEvent event.now }
    {
        any_at(&self.filters, self.rest.as_slice(), event)
            || any_asked(&self.filters, &self.rows, event)
    }
}

/// Puts the place of a filter into the index. At want of memory the index stays as it was.
fn enter(
    alloc: Global,
    rest: &mut Numbers,
    rows: &mut Rows,
    filter: &Filter,
    place: u16,
) -> Result<(), Memory>
    ensures rest { OnOk result (rest.new ≡ rest_with (needed (tree_of filter.now)) place rest.old) }
    ensures rows { OnOk result ((i : ℕ) → row_at rows.new i
        ≡ row_with (needed (tree_of filter.now)) place (row_at rows.old) i) }
    ensures same_rest { OnErr result (rest.new ≡ rest.old) }
    ensures same_rows { OnErr result ((i : ℕ) → row_at rows.new i ≡ row_at rows.old i) }
{
    match needed(filter.root()) {
        Some(pair) => rows.put(alloc, pair, place),
        None => rest.push(place),
    }
}

/// The places to ask for an event: those of the rest, and those of the filters that need one of its pairs.
fn asked(alloc: Global, rest: &Numbers, rows: &Rows, event: &Event) -> Result<Vec<u16>, Memory>
    ensures asked { IfOk result (λ places. places.items ≡ rest.now ++ asked (row_at rows.now) event.now) }
    ensures event { OnOk result (IsEvent event.now) }
{
    let mut places = Vec::from_slice(alloc, rest.as_slice())?;
    let mut pairs = event.pairs();
    'pairs: while let Some((name, part)) = pairs.next() {
        let pair = NamedPart { name, part };
        add_places(&mut places, rows.buckets_for(pair), pair)?;
    }
    Ok(places)
}

/// Puts the places of the buckets that are of a pair at the end.
fn add_places(places: &mut Vec<u16>, buckets: &[Bucket], pair: NamedPart<'_>) -> Result<(), Memory>
    ensures { OnOk result (places.new.items ≡ places.old.items
        ++ flat_map (places_for (pair_of pair.entry)) buckets.now) }
{
    for bucket in buckets {
        if bucket.is_of(pair) {
            places.extend_from_slice(bucket.places.as_slice())?;
        }
    }
    Ok(())
}

/// Whether the filter at a place matches the event.
fn is_match(filters: &[Filter], place: u16, event: &Event) -> bool
    ensures { result ≡ matches_at (trees filters.now) event.now place }
{
    match filters.get(usize::from(place)) {
        Some(filter) => matches!(truth(filter, event), Kleene::True),
        None => false,
    }
}

/// The places among these whose filters match the event, in the same order.
fn matching(
    alloc: Global,
    filters: &[Filter],
    places: &[u16],
    event: &Event,
) -> Result<Numbers, Memory>
    ensures { IfOk result (λ found. found ≡ filter (matches_at (trees filters.now) event.now) places.now) }
{
    let mut found = Numbers::new(alloc);
    for place in places {
        if is_match(filters, *place, event) {
            found.push(*place)?;
        }
    }
    Ok(found)
}

/// Whether a filter at one of these places matches the event.
fn any_at(filters: &[Filter], places: &[u16], event: &Event) -> bool
    ensures { result ≡ list_any (matches_at (trees filters.now) event.now) places.now }
{
    for place in places {
        if is_match(filters, *place, event) {
            return true;
        }
    }
    false
}

/// Whether a filter that needs one of the event's pairs matches the event.
fn any_asked(filters: &[Filter], rows: &Rows, event: &Event) -> bool
    ensures some { result ≡ list_any (matches_at (trees filters.now) event.now) (asked (row_at rows.now) event.now) }
    ensures event { IsEvent event.now }
{
    let mut pairs = event.pairs();
    if rows.is_empty() {
        return false;
    }
    'pairs: while let Some((name, part)) = pairs.next() {
        let pair = NamedPart { name, part };
        if rows.may_have(pair) && any_in_row(filters, rows, pair, event) {
            return true;
        }
    }
    false
}

/// Whether a filter that needs a pair matches the event. It is called for few of the pairs, and stands apart so that
/// the walk over all of them is short.
#[inline(never)]
fn any_in_row(filters: &[Filter], rows: &Rows, pair: NamedPart<'_>, event: &Event) -> bool
    ensures { result ≡ list_any (matches_at (trees filters.now) event.now)
        (places_of (row_at rows.now) (pair_of pair.entry)) }
{
    any_of(filters, rows.row_for(pair), pair, event)
}

/// Whether a filter of the buckets that are of a pair matches the event.
fn any_of(filters: &[Filter], buckets: &[Bucket], pair: NamedPart<'_>, event: &Event) -> bool
    ensures { result
        ≡ list_any (matches_at (trees filters.now) event.now) (flat_map (places_for (pair_of pair.entry)) buckets.now) }
{
    for bucket in buckets {
        if bucket.is_of(pair) && any_at(filters, bucket.places.as_slice(), event) {
            return true;
        }
    }
    false
}
