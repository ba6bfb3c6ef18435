//! Which brokers of a topology are to serve.

ghost use Rattle.std.specs.Prelude.{◌≡◌, ◌<◌, length, find, IfOk, IfSome};
ghost use Rattle.std.specs.Option.{option_map};
ghost use Rattle.gr_tree.specs.Walks.{numbers};
ghost use Rattle.gr_top.specs.Words.{texts_of};
ghost use Rattle.gr_top.specs.Hosting.{is_unknown, unknown_line, is_unaddressed, unaddressed_line, clients_line, names_broker};
ghost use Rattle.gr_top.specs.Hosting.{is_named, named_brokers, hosting_of, IsReady};

use gr_event::{Numbers, Text};
use gr_scenario::{line_of_topology, push_shown};
use gr_sched::Names;
use gr_topo::{TopoFault, Topology};
use std::alloc::{AllocError, Global};

/// What the named brokers of a topology come to.
#[derive(Drop)]
pub enum Hosting {
    /// They cannot serve; with the line that says why.
    Refused(Text),
    /// They are to serve: their numbers, in rising order and each once.
    Hosted(Numbers),
}

/// Finds the brokers that words name, or the first word that names none, or the first broker of the topology that has
/// no address.
pub(crate) fn hosted_in(
    alloc: Global,
    topo: &Topology,
    words: &[&str],
) -> Result<Hosting, AllocError>
    ensures hosting { IfOk result (λ h. h ≡ hosting_of topo.now (texts_of words.now)) }
    ensures ready { IfOk result (IsReady topo.now) }
{
    if let Some(word) = unknown_in(topo, words) {
        return Ok(Hosting::Refused(unknown_line(alloc, word)?));
    }
    if let Some(b) = unaddressed_in(topo) {
        return Ok(Hosting::Refused(unaddressed_line(alloc, topo, b)?));
    }
    Ok(Hosting::Hosted(named_in(alloc, topo, words)?))
}

/// The first word that names no broker.
fn unknown_in<'a>(topo: &Topology, words: &'a [&'a str]) -> Option<&'a str>
    ensures { option_map (λ word. word.now) result ≡ find (is_unknown topo.now) (texts_of words.entry.now) }
{
    'words: for word in words {
        if topo.broker(word.as_bytes()).is_none() {
            return Some(*word);
        }
    }
    None
}

/// The first broker that has no address.
pub(crate) fn unaddressed_in(topo: &Topology) -> Option<u16>
    ensures first { result ≡ find (is_unaddressed topo.now) (numbers (length topo.now.brokers)) }
    ensures within { IfSome result (λ b. b < length topo.now.brokers) }
{
    'brokers: for b in 0..topo.brokers() {
        if topo.address(b).is_none() {
            return Some(b);
        }
    }
    None
}

/// The numbers of the brokers that words name.
fn named_in(alloc: Global, topo: &Topology, words: &[&str]) -> Result<Numbers, AllocError>
    ensures { IfOk result (λ brokers. brokers ≡ named_brokers topo.now (texts_of words.now)) }
{
    let mut brokers = Numbers::new(alloc);
    'brokers: for b in 0..topo.brokers() {
        if is_named(topo, words, b) {
            brokers.push(b)?;
        }
    }
    Ok(brokers)
}

/// Whether one of the words names a broker.
fn is_named(topo: &Topology, words: &[&str], b: u16) -> bool
    ensures { result ≡ is_named topo.now (texts_of words.now) b }
{
    'words: for word in words {
        if names_broker(topo, b, word) {
            return true;
        }
    }
    false
}

/// Whether a word is the name of a broker.
fn names_broker(topo: &Topology, b: u16, word: &str) -> bool
    ensures { result ≡ names_broker topo.now b word.now }
{
    match topo.broker(word.as_bytes()) {
        Some(number) => number == b,
        None => false,
    }
}

/// The line of a word that names no broker.
fn unknown_line(alloc: Global, word: &str) -> Result<Text, AllocError>
    ensures { IfOk result (λ line. line ≡ unknown_line word.now) }
{
    let mut line = Text::from_slice(alloc, b"serve no-broker")?;
    push_shown(&mut line, word.as_bytes())?;
    Ok(line)
}

/// The line of a broker without an address, as `topology 9 bad-address B`.
pub(crate) fn unaddressed_line(alloc: Global, topo: &Topology, b: u16) -> Result<Text, AllocError>
    requires { b < length topo.now.brokers }
    ensures { IfOk result (λ line. line ≡ unaddressed_line topo.now b) }
{
    let name = Text::from_slice(alloc, topo.broker_name(b).as_slice())?;
    line_of_topology(alloc, &TopoFault::BadAddress { name })
}

/// The line of a topology with a client, where journals are written or audited.
pub(crate) fn clients_line(alloc: Global) -> Result<Text, AllocError>
    ensures { IfOk result (λ line. line ≡ clients_line) }
{
    Text::from_slice(alloc, b"audit 2 clients")
}
