//! Reading the shape of a topology part: the keys and types of its tables.

ghost use Rattle.std.specs.Prelude.{◌≡◌, IfOk, OnOk};
ghost use Rattle.toml.specs.View.{view, table_view};
ghost use Rattle.gr_topo.specs.Gives.{Gives, walk, each, one_more};
ghost use Rattle.gr_topo.specs.Draft.{entry_lists, address_lists, draft_lists, no_entries, no_addresses};
ghost use Rattle.gr_topo.specs.Draft.{with_place};
ghost use Rattle.gr_topo.specs.Shape.{text_in, integer_in, truth_in, array_in, table_in, two_texts, pair_in, pairs_in};
ghost use Rattle.gr_topo.specs.Shape.{texts_in};
ghost use Rattle.gr_topo.specs.Shape.{entry_key, no_entry, whole_entry, entry_in, one_entry, entries_in, one_address};
ghost use Rattle.gr_topo.specs.Shape.{addresses_in, one_setting, default_settings, settings_in, root_key, no_draft};
ghost use Rattle.gr_topo.specs.Shape.{draft_in};
ghost use Rattle.gr_topo.specs.Columns.{HasColumns};
ghost use Rattle.gr_topo.specs.Seen.{seen_items, seen_members};

use crate::draft::{Addresses, Draft, Entries, Entry, FoundEntry};
use crate::fault::TopoFault;
use crate::settings::WrittenSettings;
use gr_event::Text;
use std::alloc::{AllocError, Global};
use toml::{Table, Value};

/// A value that is a text.
fn text_in(alloc: Global, key: &str, value: &Value) -> Result<Text, TopoFault>
    ensures { Gives (λ t. t) result (text_in key.now (view value.now)) }
{
    match value {
        Value::String(text) => Ok(Text::from_slice(alloc, text.as_str().as_bytes())?),
        _ => Err(TopoFault::BadType {
            key: Text::from_slice(alloc, key.as_bytes())?,
        }),
    }
}

/// A value that is an integer.
fn integer_in(alloc: Global, key: &str, value: &Value) -> Result<i64, TopoFault>
    ensures { Gives (λ z. z) result (integer_in key.now (view value.now)) }
{
    match value {
        Value::Integer(number) => Ok(*number),
        _ => Err(TopoFault::BadType {
            key: Text::from_slice(alloc, key.as_bytes())?,
        }),
    }
}

/// A value that is a truth value.
fn truth_in(alloc: Global, key: &str, value: &Value) -> Result<bool, TopoFault>
    ensures { Gives (λ b. b) result (truth_in key.now (view value.now)) }
{
    match value {
        Value::Boolean(truth) => Ok(*truth),
        _ => Err(TopoFault::BadType {
            key: Text::from_slice(alloc, key.as_bytes())?,
        }),
    }
}

/// A value that is an array: its items.
fn array_in<'a>(alloc: Global, key: &str, value: &'a Value) -> Result<&'a [Value], TopoFault>
    ensures { Gives (λ s. seen_items s.now) result (array_in key.now (view value.now)) }
{
    match value {
        Value::Array(items) => Ok(items.as_slice()),
        _ => Err(TopoFault::BadType {
            key: Text::from_slice(alloc, key.as_bytes())?,
        }),
    }
}

/// A value that is a table.
fn table_in<'a>(alloc: Global, key: &str, value: &'a Value) -> Result<&'a Table, TopoFault>
    ensures { Gives (λ t. seen_members t.now.entries) result (table_in key.now (view value.now)) }
{
    match value {
        Value::Table(table) => Ok(table),
        _ => Err(TopoFault::BadType {
            key: Text::from_slice(alloc, key.as_bytes())?,
        }),
    }
}

/// Texts in an array.
fn texts_of(alloc: Global, key: &str, values: &[Value]) -> Result<Vec<Text>, TopoFault>
    ensures { Gives (λ v. v.items) result (each (text_in key.now) (seen_items values.now)) }
{
    let mut texts = Vec::new(alloc);
    for value in values {
        match text_in(alloc, key, value) {
            Ok(text) => texts.push(text)?,
            Err(fault) => return Err(fault),
        }
    }
    Ok(texts)
}

/// An array of texts.
fn texts_in(alloc: Global, key: &str, value: &Value) -> Result<Vec<Text>, TopoFault>
    ensures { Gives (λ v. v.items) result (texts_in key.now (view value.now)) }
{
    let values = array_in(alloc, key, value)?;
    texts_of(alloc, key, values)
}

/// Two texts in an array.
fn two_texts(alloc: Global, key: &str, values: &[Value]) -> Result<(Text, Text), TopoFault>
    ensures { Gives (λ p. p) result (two_texts key.now (seen_items values.now)) }
{
    if values.len() != 2 {
        return Err(TopoFault::BadType {
            key: Text::from_slice(alloc, key.as_bytes())?,
        });
    }
    match text_in(alloc, key, &values[0]) {
        Ok(one) => match text_in(alloc, key, &values[1]) {
            Ok(other) => Ok((one, other)),
            Err(fault) => Err(fault),
        },
        Err(fault) => Err(fault),
    }
}

/// An array of two texts.
fn pair_in(alloc: Global, key: &str, value: &Value) -> Result<(Text, Text), TopoFault>
    ensures { Gives (λ p. p) result (pair_in key.now (view value.now)) }
{
    let values = array_in(alloc, key, value)?;
    two_texts(alloc, key, values)
}

/// Pairs in an array.
fn pairs_of(alloc: Global, key: &str, values: &[Value]) -> Result<Vec<(Text, Text)>, TopoFault>
    ensures { Gives (λ v. v.items) result (each (pair_in key.now) (seen_items values.now)) }
{
    let mut pairs = Vec::new(alloc);
    for value in values {
        match pair_in(alloc, key, value) {
            Ok(pair) => pairs.push(pair)?,
            Err(fault) => return Err(fault),
        }
    }
    Ok(pairs)
}

/// An array of arrays of two texts.
fn pairs_in(alloc: Global, key: &str, value: &Value) -> Result<Vec<(Text, Text)>, TopoFault>
    ensures { Gives (λ v. v.items) result (pairs_in key.now (view value.now)) }
{
    let values = array_in(alloc, key, value)?;
    pairs_of(alloc, key, values)
}

/// An entry with one key more.
#[tactic(auto, unfolding(crate::specs::Shape::entry_key))]
fn entry_key(
    alloc: Global,
    filters: bool,
    found: FoundEntry,
    key: &str,
    value: &Value,
) -> Result<FoundEntry, TopoFault>
    ensures { Gives (λ f. f) result (entry_key filters found (key.now, view value.now)) }
{
    if key == "at" {
        let at = Some(text_in(alloc, key, value)?);
        return Ok(FoundEntry { at, ..found });
    }
    if key == "name" {
        let name = Some(text_in(alloc, key, value)?);
        return Ok(FoundEntry { name, ..found });
    }
    if key == "filter" && filters {
        let filter = Some(text_in(alloc, key, value)?);
        return Ok(FoundEntry { filter, ..found });
    }
    if key == "late" && filters {
        let late = truth_in(alloc, key, value)?;
        return Ok(FoundEntry { late, ..found });
    }
    if key == "total" && filters {
        let total = truth_in(alloc, key, value)?;
        return Ok(FoundEntry { total, ..found });
    }
    Err(TopoFault::BadKey {
        key: Text::from_slice(alloc, key.as_bytes())?,
    })
}

/// The keys of an entry.
fn entry_keys(alloc: Global, filters: bool, table: &Table) -> Result<FoundEntry, TopoFault>
    ensures { Gives (λ f. f) result (walk (entry_key filters) no_entry (seen_members table.now.entries)) }
{
    let mut found = FoundEntry {
        name: None,
        at: None,
        filter: None,
        late: false,
        total: false,
    };
    for (name, value) in table {
        match entry_key(alloc, filters, found, name.as_str(), value) {
            Ok(next) => found = next,
            Err(fault) => return Err(fault),
        }
    }
    Ok(found)
}

/// An entry with what it must have.
fn whole_entry(alloc: Global, found: FoundEntry) -> Result<Entry, TopoFault>
    ensures { Gives (λ e. e) result (whole_entry found) }
{
    let FoundEntry {
        name,
        at,
        filter,
        late,
        total,
    } = found;
    match name {
        None => Err(TopoFault::Missing {
            key: Text::from_slice(alloc, b"name")?,
        }),
        Some(name) => match at {
            None => Err(TopoFault::Missing {
                key: Text::from_slice(alloc, b"at")?,
            }),
            Some(at) => Ok(Entry {
                name,
                at,
                filter,
                late,
                total,
            }),
        },
    }
}

/// A table that is a publisher or subscriber.
fn entry_in(alloc: Global, key: &str, filters: bool, value: &Value) -> Result<Entry, TopoFault>
    ensures { Gives (λ e. e) result (entry_in key.now filters (view value.now)) }
{
    let table = table_in(alloc, key, value)?;
    let found = entry_keys(alloc, filters, table)?;
    whole_entry(alloc, found)
}

/// Puts a place at the end of some, if what stands there is listed. At want of memory they are as they were.
fn push_place(places: &mut Vec<usize>, place: usize, is_listed: bool) -> Result<(), AllocError>
    ensures { OnOk result (places.new.items ≡ with_place places.old.items place is_listed) }
{
    if is_listed {
        places.push(place)?;
    }
    Ok(())
}

/// Publishers or subscribers in an array.
fn entries_of(
    alloc: Global,
    key: &str,
    filters: bool,
    values: &[Value],
) -> Result<Entries, TopoFault>
    ensures { Gives entry_lists result (walk (one_entry key.now filters) no_entries (seen_items values.now)) }
{
    let mut names = Vec::new(alloc);
    let mut brokers = Vec::new(alloc);
    let mut texts = Vec::new(alloc);
    let mut late = Vec::new(alloc);
    let mut totals = Vec::new(alloc);
    for value in values {
        match entry_in(alloc, key, filters, value) {
            Ok(entry) => {
                let place = names.len();
                push_place(&mut late, place, entry.late)?;
                push_place(&mut totals, place, entry.total)?;
                names.push(entry.name)?;
                brokers.push(entry.at)?;
                texts.push(entry.filter)?;
            }
            Err(fault) => return Err(fault),
        }
    }
    Ok(Entries {
        names,
        brokers,
        filters: texts,
        late,
        totals,
    })
}

/// An array of publishers or subscribers.
fn entries_in(alloc: Global, key: &str, filters: bool, value: &Value) -> Result<Entries, TopoFault>
    ensures { Gives entry_lists result (entries_in key.now filters (view value.now)) }
{
    let values = array_in(alloc, key, value)?;
    entries_of(alloc, key, filters, values)
}

/// The addresses in a table.
fn addresses_of(alloc: Global, table: &Table) -> Result<Addresses, TopoFault>
    ensures { Gives address_lists result (walk one_address no_addresses (seen_members table.now.entries)) }
{
    let mut names = Vec::new(alloc);
    let mut texts = Vec::new(alloc);
    for (name, value) in table {
        match text_in(alloc, name.as_str(), value) {
            Ok(text) => {
                names.push(Text::from_slice(alloc, name.as_str().as_bytes())?)?;
                texts.push(text)?;
            }
            Err(fault) => return Err(fault),
        }
    }
    Ok(Addresses { names, texts })
}

/// A table of addresses.
fn addresses_in(alloc: Global, key: &str, value: &Value) -> Result<Addresses, TopoFault>
    ensures { Gives address_lists result (addresses_in key.now (view value.now)) }
{
    let table = table_in(alloc, key, value)?;
    addresses_of(alloc, table)
}

/// Settings with one key more.
#[tactic(auto, unfolding(crate::specs::Shape::one_setting))]
fn one_setting(
    alloc: Global,
    found: WrittenSettings,
    key: &str,
    value: &Value,
) -> Result<WrittenSettings, TopoFault>
    ensures { Gives (λ w. w) result (one_setting found (key.now, view value.now)) }
{
    if key == "cache" {
        let cache = integer_in(alloc, key, value)?;
        return Ok(WrittenSettings { cache, ..found });
    }
    if key == "gap" {
        let gap = integer_in(alloc, key, value)?;
        return Ok(WrittenSettings { gap, ..found });
    }
    if key == "idle" {
        let idle = integer_in(alloc, key, value)?;
        return Ok(WrittenSettings { idle, ..found });
    }
    if key == "quiet" {
        let quiet = integer_in(alloc, key, value)?;
        return Ok(WrittenSettings { quiet, ..found });
    }
    if key == "reclaim" {
        let reclaim = integer_in(alloc, key, value)?;
        return Ok(WrittenSettings { reclaim, ..found });
    }
    if key == "retry" {
        let retry = integer_in(alloc, key, value)?;
        return Ok(WrittenSettings { retry, ..found });
    }
    Err(TopoFault::BadKey {
        key: Text::from_slice(alloc, key.as_bytes())?,
    })
}

/// The settings of nothing written.
fn default_settings() -> WrittenSettings
    ensures { result ≡ default_settings }
{
    WrittenSettings {
        gap: 200,
        idle: 1000,
        retry: 500,
        quiet: 1000,
        cache: 1024,
        reclaim: 65536,
    }
}

/// The settings in a table.
fn settings_of(alloc: Global, table: &Table) -> Result<WrittenSettings, TopoFault>
    ensures { Gives (λ w. w) result (walk one_setting default_settings (seen_members table.now.entries)) }
{
    let mut found = default_settings();
    for (name, value) in table {
        match one_setting(alloc, found, name.as_str(), value) {
            Ok(next) => found = next,
            Err(fault) => return Err(fault),
        }
    }
    Ok(found)
}

/// A table of settings.
fn settings_in(alloc: Global, key: &str, value: &Value) -> Result<WrittenSettings, TopoFault>
    ensures { Gives (λ w. w) result (settings_in key.now (view value.now)) }
{
    let table = table_in(alloc, key, value)?;
    settings_of(alloc, table)
}

/// A draft with one key of the root more.
#[tactic(auto, unfolding(crate::specs::Shape::root_key))]
fn root_key(alloc: Global, found: Draft, key: &str, value: &Value) -> Result<Draft, TopoFault>
    ensures { Gives draft_lists result (root_key (draft_lists found) (key.now, view value.now)) }
{
    if key == "addresses" {
        let addresses = addresses_in(alloc, key, value)?;
        return Ok(Draft { addresses, ..found });
    }
    if key == "brokers" {
        let brokers = Some(texts_in(alloc, key, value)?);
        return Ok(Draft { brokers, ..found });
    }
    if key == "clients" {
        let clients = addresses_in(alloc, key, value)?;
        return Ok(Draft { clients, ..found });
    }
    if key == "links" {
        let links = pairs_in(alloc, key, value)?;
        return Ok(Draft { links, ..found });
    }
    if key == "publisher" {
        let publishers = entries_in(alloc, key, false, value)?;
        return Ok(Draft {
            publishers,
            ..found
        });
    }
    if key == "settings" {
        let settings = settings_in(alloc, key, value)?;
        return Ok(Draft { settings, ..found });
    }
    if key == "subscriber" {
        let subscribers = entries_in(alloc, key, true, value)?;
        return Ok(Draft {
            subscribers,
            ..found
        });
    }
    Err(TopoFault::BadKey {
        key: Text::from_slice(alloc, key.as_bytes())?,
    })
}

/// No entries.
fn no_entries(alloc: Global) -> Entries
    ensures { entry_lists result ≡ no_entries }
{
    Entries {
        names: Vec::new(alloc),
        brokers: Vec::new(alloc),
        filters: Vec::new(alloc),
        late: Vec::new(alloc),
        totals: Vec::new(alloc),
    }
}

/// No addresses.
fn no_addresses(alloc: Global) -> Addresses
    ensures { address_lists result ≡ no_addresses }
{
    Addresses {
        names: Vec::new(alloc),
        texts: Vec::new(alloc),
    }
}

/// The draft of an empty part.
fn no_draft(alloc: Global) -> Draft
    ensures { draft_lists result ≡ no_draft }
{
    Draft {
        brokers: None,
        links: Vec::new(alloc),
        publishers: no_entries(alloc),
        subscribers: no_entries(alloc),
        addresses: no_addresses(alloc),
        clients: no_addresses(alloc),
        settings: default_settings(),
    }
}

/// What a topology part says.
pub(crate) fn draft_in(alloc: Global, root: &Table) -> Result<Draft, TopoFault>
    ensures gives { Gives draft_lists result (draft_in (table_view root.now)) }
    ensures columns { IfOk result (λ d. HasColumns (draft_lists d)) }
{
    let mut found = no_draft(alloc);
    for (name, value) in root {
        match root_key(alloc, found, name.as_str(), value) {
            Ok(next) => found = next,
            Err(fault) => return Err(fault),
        }
    }
    Ok(found)
}
