//! Names and their numbers.

ghost use Rattle.std.specs.Prelude.{◌≡◌, ◌<◌, ◌≤◌, length, IfSome, IfOk};
ghost use Rattle.std.specs.List.{list_all};
ghost use Rattle.gr_topo.specs.Topology.{number_of};
ghost use Rattle.gr_topo.specs.Gives.{Gives, walk, each};
ghost use Rattle.gr_topo.specs.Checks.{few, is_name_byte, is_name, good_names, apart, number_in, numbers_in, link_in};
ghost use Rattle.gr_topo.specs.Checks.{links_in};
ghost use Rattle.gr_topo.specs.declared.limits.TheConstants.{MAX_BROKERS, MAX_SUBSCRIBERS};

use crate::fault::TopoFault;
use crate::limits::MAX_NAME;
use gr_event::Text;
use gr_tree::Link;
use indexmap::IndexSet;
use std::alloc::Global;

/// The number of a name.
pub(crate) fn position_of(names: &[Text], name: &[u8]) -> Option<u16>
    requires { length names.now ≤ MAX_SUBSCRIBERS }
    ensures { result ≡ number_of names.now name.now }
{
    match place_of(names, name) {
        Some(at) => Some(at as u16),
        None => None,
    }
}

/// The first place where a name stands.
pub(crate) fn place_of(names: &[Text], name: &[u8]) -> Option<usize>
    ensures first { result ≡ number_of names.now name.now }
    ensures bound { IfSome result (λ at. at < length names.now) }
{
    names.iter().position(|known| known.as_slice() == name)
}

/// Whether there are no more than so many.
pub(crate) fn few(alloc: Global, most: usize, key: &str, count: usize) -> Result<(), TopoFault>
    ensures { Gives (λ x. x) result (few most key.now count) }
{
    if count <= most {
        return Ok(());
    }
    Err(TopoFault::TooMany {
        key: Text::from_slice(alloc, key.as_bytes())?,
    })
}

/// Whether a name may have this byte.
fn is_name_byte(byte: u8) -> bool
    ensures { result ≡ is_name_byte byte }
{
    (byte >= b'A' && byte <= b'Z')
        || (byte >= b'a' && byte <= b'z')
        || (byte >= b'0' && byte <= b'9')
        || byte == b'_'
        || byte == b'.'
        || byte == b'-'
}

/// Whether a name may have each of these bytes.
fn has_name_bytes(name: &[u8]) -> bool
    ensures { result ≡ list_all is_name_byte name.now }
{
    name.iter().all(|byte| is_name_byte(*byte))
}

/// Whether bytes are a name: 1 to 64 letters, digits, `_`, `.` and `-` of ASCII.
pub fn is_name(name: &[u8]) -> bool
    ensures { result ≡ is_name name.now }
{
    !name.is_empty() && name.len() <= MAX_NAME && has_name_bytes(name)
}

/// Whether each text is a name.
pub(crate) fn good_names(alloc: Global, names: &[Text]) -> Result<(), TopoFault>
    ensures { Gives (λ x. x) result (good_names names.now) }
{
    for name in names {
        if !is_name(name.as_slice()) {
            return Err(TopoFault::BadName {
                name: Text::from_slice(alloc, name.as_slice())?,
            });
        }
    }
    Ok(())
}

/// Whether no name stands twice.
pub(crate) fn apart(alloc: Global, names: &[Text]) -> Result<(), TopoFault>
    ensures { Gives (λ x. x) result (apart names.now) }
{
    let mut seen = IndexSet::new(alloc);
    for name in names {
        let copy = Vec::from_slice(alloc, name.as_slice())?;
        let (_, is_new) = seen.insert_full(copy)?;
        if !is_new {
            return Err(TopoFault::Twice {
                name: Text::from_slice(alloc, name.as_slice())?,
            });
        }
    }
    Ok(())
}

/// The number of a name among those of brokers, or of publishers.
fn number_in(alloc: Global, known: &[Text], name: &Text) -> Result<u16, TopoFault>
    requires { length known.now ≤ MAX_BROKERS }
    ensures { Gives (λ b. b) result (number_in known.now name.now) }
{
    match position_of(known, name.as_slice()) {
        Some(number) => Ok(number),
        None => Err(TopoFault::Unknown {
            name: Text::from_slice(alloc, name.as_slice())?,
        }),
    }
}

/// The numbers of names among those of brokers, or of publishers.
pub(crate) fn numbers_in(
    alloc: Global,
    known: &[Text],
    names: &[Text],
) -> Result<Vec<u16>, TopoFault>
    requires { length known.now ≤ MAX_BROKERS }
    ensures { Gives (λ v. v.items) result (numbers_in known.now names.now) }
{
    let mut numbers = Vec::new(alloc);
    for name in names {
        match number_in(alloc, known, name) {
            Ok(number) => numbers.push(number)?,
            Err(fault) => return Err(fault),
        }
    }
    Ok(numbers)
}

/// A link by the names of its ends.
fn link_in(alloc: Global, brokers: &[Text], ends: &(Text, Text)) -> Result<Link, TopoFault>
    requires { length brokers.now ≤ MAX_BROKERS }
    ensures { Gives (λ l. l) result (link_in brokers.now ends.now) }
{
    let one = number_in(alloc, brokers, &ends.0)?;
    let other = number_in(alloc, brokers, &ends.1)?;
    Ok(Link { one, other })
}

/// Links by the names of their ends.
pub(crate) fn links_in(
    alloc: Global,
    brokers: &[Text],
    pairs: &[(Text, Text)],
) -> Result<Vec<Link>, TopoFault>
    requires { length brokers.now ≤ MAX_BROKERS }
    ensures { Gives (λ v. v.items) result (links_in brokers.now pairs.now) }
{
    let mut links = Vec::new(alloc);
    for pair in pairs {
        match link_in(alloc, brokers, pair) {
            Ok(link) => links.push(link)?,
            Err(fault) => return Err(fault),
        }
    }
    Ok(links)
}
