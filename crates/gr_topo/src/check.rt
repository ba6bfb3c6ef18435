//! Tests of settings, filters and addresses.

ghost use Rattle.std.specs.Prelude.{◌≡◌, ◌==◌, map, ◌<◌};
ghost use Rattle.std.specs.Option.{option_map};
ghost use Rattle.std.specs.List.{zip, position};
ghost use Rattle.gr_filter.specs.Tree.{tree_of as filter_tree};
ghost use Rattle.gr_topo.specs.Gives.{Gives};
ghost use Rattle.gr_topo.specs.Draft.{address_lists};
ghost use Rattle.gr_topo.specs.Checks.{in_range, settings_of, filter_in, filters_in, behind_octet, port_of, is_port};
ghost use Rattle.gr_topo.specs.Checks.{is_address, good_address, address_in, addresses_of};

use crate::draft::Addresses;
use crate::fault::TopoFault;
use crate::names::place_of;
use crate::settings::{
    LEAST_RECLAIM, MOST_CACHE, MOST_RECLAIM, MOST_TIME, Settings, WrittenSettings,
};
use gr_event::Text;
use gr_filter::{Filter, FilterFault};
use gr_sched::is_number_in;
use std::alloc::Global;

/// A setting from the least to the most.
fn in_range(alloc: Global, key: &str, least: u64, most: u64, written: i64) -> Result<u64, TopoFault>
    requires { (least < 9223372036854775808) × (most < 9223372036854775808) }
    ensures { Gives (λ n. n) result (in_range key.now least most written) }
{
    if least as i64 <= written && written <= most as i64 {
        return Ok(written as u64);
    }
    Err(TopoFault::BadRange {
        key: Text::from_slice(alloc, key.as_bytes())?,
    })
}

/// Settings in their ranges.
#[tactic(auto, unfolding(crate::specs::Checks::settings_of))]
pub(crate) fn settings_of(alloc: Global, written: WrittenSettings) -> Result<Settings, TopoFault>
    ensures { Gives (λ s. s) result (settings_of written) }
{
    let gap = in_range(alloc, "gap", 1, MOST_TIME, written.gap)?;
    let idle = in_range(alloc, "idle", 1, MOST_TIME, written.idle)?;
    let retry = in_range(alloc, "retry", 1, MOST_TIME, written.retry)?;
    let quiet = in_range(alloc, "quiet", 1, MOST_TIME, written.quiet)?;
    let cache = in_range(alloc, "cache", 1, MOST_CACHE, written.cache)?;
    let reclaim = in_range(
        alloc,
        "reclaim",
        LEAST_RECLAIM,
        MOST_RECLAIM,
        written.reclaim,
    )?;
    Ok(Settings {
        gap,
        idle,
        retry,
        quiet,
        cache: cache as u32,
        reclaim: reclaim as u32,
    })
}

/// The filter of a subscriber, if it has one.
#[tactic(auto, using(crate::proofs::Faults::filter_fault))]
fn filter_in(alloc: Global, name: &Text, text: &Option<Text>) -> Result<Option<Filter>, TopoFault>
    ensures { Gives (option_map filter_tree) result (filter_in name.now text.now) }
{
    match text {
        None => Ok(None),
        Some(text) => match gr_filter::parse(alloc, text.as_slice()) {
            Ok(filter) => Ok(Some(filter)),
            Err(FilterFault::Memory) => Err(TopoFault::Memory),
            Err(fault) => Err(TopoFault::BadFilter {
                name: Text::from_slice(alloc, name.as_slice())?,
                fault,
            }),
        },
    }
}

/// The filters of subscribers.
pub(crate) fn filters_in(
    alloc: Global,
    names: &[Text],
    texts: &[Option<Text>],
) -> Result<Vec<Option<Filter>>, TopoFault>
    ensures { Gives (λ v. map (option_map filter_tree) v.items) result (filters_in (zip names.now texts.now)) }
{
    let mut filters = Vec::new(alloc);
    for (name, text) in names.iter().zip(texts.iter()) {
        match filter_in(alloc, name, text) {
            Ok(filter) => filters.push(filter)?,
            Err(fault) => return Err(fault),
        }
    }
    Ok(filters)
}

/// Where the first byte stands that is this one, if any.
fn find(mark: u8, text: &[u8]) -> Option<usize>
    ensures { result ≡ position (λ c. c == mark) text.now }
{
    text.iter().position(|byte| *byte == mark)
}

/// What follows a number of 0 to 255 and a mark.
fn behind_octet(mark: u8, text: &[u8]) -> Option<&[u8]>
    ensures { option_map (λ t. t.now) result ≡ behind_octet mark text.now }
{
    let end = find(mark, text)?;
    if is_number_in(3, 0, 255, &text[..end]) {
        return Some(&text[end + 1..]);
    }
    None
}

/// The port of an address, if its four numbers are right.
fn port_of(text: &[u8]) -> Option<&[u8]>
    ensures { option_map (λ t. t.now) result ≡ port_of text.now }
{
    let text = behind_octet(b'.', text)?;
    let text = behind_octet(b'.', text)?;
    let text = behind_octet(b'.', text)?;
    behind_octet(b':', text)
}

/// Whether a text is an address: four numbers with dots between, a colon and a port.
#[tactic(auto, unfolding(crate::specs::Names::is_address))]
fn is_address(text: &[u8]) -> bool
    ensures { result ≡ is_address text.now }
{
    match port_of(text) {
        Some(port) => is_number_in(5, 1, 65535, port),
        None => false,
    }
}

/// The address of a broker, or of a publisher's client, if it has one.
fn address_in(alloc: Global, addresses: &Addresses, name: &Text) -> Result<Option<Text>, TopoFault>
    ensures { Gives (λ a. a) result (address_in (address_lists addresses.now) name.now) }
{
    let Some(at) = place_of(&addresses.names, name.as_slice()) else {
        return Ok(None);
    };
    match addresses.texts.get(at) {
        None => Ok(None),
        Some(text) => {
            if is_address(text.as_slice()) {
                Ok(Some(Text::from_slice(alloc, text.as_slice())?))
            } else {
                Err(TopoFault::BadAddress {
                    name: Text::from_slice(alloc, name.as_slice())?,
                })
            }
        }
    }
}

/// The addresses of brokers, or of publishers' clients, in the order of these names.
pub(crate) fn addresses_of(
    alloc: Global,
    addresses: &Addresses,
    names: &[Text],
) -> Result<Vec<Option<Text>>, TopoFault>
    ensures { Gives (λ v. v.items) result (addresses_of (address_lists addresses.now) names.now) }
{
    let mut found = Vec::new(alloc);
    for name in names {
        match address_in(alloc, addresses, name) {
            Ok(address) => found.push(address)?,
            Err(fault) => return Err(fault),
        }
    }
    Ok(found)
}
