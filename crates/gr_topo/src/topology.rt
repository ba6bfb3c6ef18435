//! Topologies and their readers.

ghost use Rattle.std.specs.Prelude.{◌≡◌, ℕ, ◌<◌, ◌≤◌, List, length, map, true, IfOk, OnOk, IfSome, slice_index};
ghost use Rattle.std.specs.Prelude.{nat_eq};
ghost use Rattle.std.specs.List.{list_any};
ghost use Rattle.std.specs.Option.{option_map};
ghost use Rattle.gr_filter.specs.Tree.{tree_of as filter_tree};
ghost use Rattle.gr_tree.specs.Walks.{IsWithin, IsRooted, HasOnlyPaths, is_tree, places_of};
ghost use Rattle.gr_topo.specs.Topology.{IsSound, IsTopology, name_at, number_of, blank, host_of, home_of, filter_of};
ghost use Rattle.gr_topo.specs.Topology.{total_of, address_of, client_of, late_of, naming_of, up_at, depth_at, children_of};
ghost use Rattle.gr_topo.specs.Topology.{subscribers_of, passes_by, below_of, keeps_horizon_at, is_child_at, not_empty};

use crate::fault::Memory;
use crate::names::position_of;
use crate::parts::Parts;
use crate::settings::Settings;
use gr_event::{Numbers, Text};
use gr_filter::Filter;
use gr_sched::Names;
use gr_tree::{Link, Place, places};
use std::alloc::Global;
use std::marker::Model;

/// The brokers, publishers and subscribers of a run: at most 64, 64 and 1,024 of them, and the tree of the brokers.
#[derive(Drop)]
pub struct Topology {
    parts: Parts,
    /// For each publisher the places of the brokers, seen from its host.
    rows: Vec<Vec<Place>>,
}

impl Model for Topology {
    ghost use Rattle.std.specs.Prelude.{◌≡◌, map, length};
    ghost use Rattle.gr_tree.specs.Walks.{places_of};
    ghost use Rattle.gr_topo.specs.Topology.{TopologyView, IsTopology};
    ghost use Rattle.gr_topo.specs.Parts.{view_of};
    ghost use Rattle.std.specs.Coded.{codes};
    ghost use Rattle.gr_topo.specs.TreeCode.{tree_code};
    ghost use Rattle.gr_filter.specs.contracts.node.Operand as operand;
    ghost use Rattle.gr_filter.specs.contracts.node.Sign as sign;

    ghost Value = { TopologyView };

    ghost coded = { Prim.hlevel (codes, tree_code operand.the_row.coded sign.the_row.coded) };

    ghost view = { λ t. view_of t.parts };

    ghost invariant = { λ t. IsTopology (view_of t.parts) ×
        (map (λ r. r.items) t.rows.items
        ≡ map (places_of (length t.parts.brokers.items) t.parts.links.items) t.parts.hosts.items) };
}

/// For each host the places of the brokers, seen from it.
fn rows_of(
    alloc: Global,
    brokers: u16,
    links: &[Link],
    hosts: &[u16],
) -> Result<Vec<Vec<Place>>, Memory>
    requires tree { is_tree brokers links.now ≡ true }
    requires links { IsWithin brokers links.now }
    requires hosts { (p : ℕ) → p < length hosts.now → slice_index hosts.now p < brokers }
    ensures rows { IfOk result (λ rows. map (λ r. r.items) rows.items ≡ map (places_of brokers links.now) hosts.now) }
    ensures rooted { OnOk result ((p : ℕ) → p < length hosts.now →
        IsRooted brokers links.now (slice_index hosts.now p)) }
    ensures paths { OnOk result ((p : ℕ) → p < length hosts.now →
        HasOnlyPaths brokers links.now (slice_index hosts.now p)) }
{
    let mut rows = Vec::new(alloc);
    for host in hosts {
        match places(alloc, brokers, links, *host)? {
            Some(row) => rows.push(row)?,
            None => unreachable!(),
        }
    }
    Ok(rows)
}

/// Whether a subscriber stands in a list of such.
fn is_among(places: &Vec<usize>, s: u16) -> bool
    ensures { result ≡ list_any (λ x. nat_eq x s) places.now.items }
{
    let mut at = 0;
    'places: while at < places.len() {
        if places[at] == usize::from(s) {
            return true;
        }
        at += 1;
    }
    false
}

impl Topology {
    ghost use Rattle.gr_topo.specs.Parts.{view_of};

    /// The topology of these parts.
    pub(crate) fn new(alloc: Global, parts: Parts) -> Result<Topology, Memory>
        requires { IsSound (view_of parts) }
        ensures { IfOk result (λ t. t ≡ view_of parts) }
    {
        let brokers = parts.brokers.len() as u16;
        let rows = rows_of(alloc, brokers, &parts.links, &parts.hosts)?;
        Ok(Topology { parts, rows })
    }

    /// The topology that stands for an empty topology part: brokers A and B, linked, publisher P at A, and
    /// subscriber S at B, who wants every event.
    pub fn blank(alloc: Global) -> Result<Topology, Memory>
        ensures { IfOk result (λ t. t ≡ blank) }
    {
        let mut brokers = Vec::new(alloc);
        brokers.push(Text::from_slice(alloc, b"A")?)?;
        brokers.push(Text::from_slice(alloc, b"B")?)?;
        let mut publishers = Vec::new(alloc);
        publishers.push(Text::from_slice(alloc, b"P")?)?;
        let mut subscribers = Vec::new(alloc);
        subscribers.push(Text::from_slice(alloc, b"S")?)?;
        let mut filters = Vec::new(alloc);
        filters.push(None)?;
        let mut addresses = Vec::new(alloc);
        addresses.push(None)?;
        addresses.push(None)?;
        let mut clients = Vec::new(alloc);
        clients.push(None)?;
        let parts = Parts {
            brokers,
            publishers,
            subscribers,
            links: Vec::from_slice(alloc, &[Link { one: 0, other: 1 }])?,
            hosts: Vec::from_slice(alloc, &[0])?,
            homes: Vec::from_slice(alloc, &[1])?,
            filters,
            late: Vec::new(alloc),
            totals: Vec::new(alloc),
            addresses,
            clients,
            settings: Settings {
                gap: 200,
                idle: 1000,
                retry: 500,
                quiet: 1000,
                cache: 1024,
                reclaim: 65536,
            },
        };
        Topology::new(alloc, parts)
    }

    /// The settings. Takes no memory, as all readers that give numbers, references or truth values.
    pub fn settings(&self) -> Settings
        ensures value { result ≡ self.now.settings }
        ensures topology { IsTopology self.now }
    {
        self.parts.settings
    }

    /// How many brokers there are, from 1 to 64.
    pub fn brokers(&self) -> u16
        ensures count { result ≡ length self.now.brokers }
        ensures topology { IsTopology self.now }
    {
        self.parts.brokers.len() as u16
    }

    /// How many publishers there are, at most 64.
    pub fn publishers(&self) -> u16
        ensures count { result ≡ length self.now.publishers }
        ensures topology { IsTopology self.now }
    {
        self.parts.publishers.len() as u16
    }

    /// How many subscribers there are, at most 1,024.
    pub fn subscribers(&self) -> u16
        ensures count { result ≡ length self.now.subscribers }
        ensures topology { IsTopology self.now }
    {
        self.parts.subscribers.len() as u16
    }

    /// The name of a broker.
    pub fn broker_name(&self, b: u16) -> &Text
        requires { b < length self.now.brokers }
        ensures { result.now ≡ name_at self.now.brokers b }
    {
        &self.parts.brokers[b as usize]
    }

    /// The name of a publisher.
    pub fn publisher_name(&self, p: u16) -> &Text
        requires { p < length self.now.publishers }
        ensures { result.now ≡ name_at self.now.publishers p }
    {
        &self.parts.publishers[p as usize]
    }

    /// The name of a subscriber.
    pub fn subscriber_name(&self, s: u16) -> &Text
        requires { s < length self.now.subscribers }
        ensures { result.now ≡ name_at self.now.subscribers s }
    {
        &self.parts.subscribers[s as usize]
    }

    /// The address of a broker, or None exactly where it has none.
    pub fn address(&self, b: u16) -> Option<&Text>
        requires { b < length self.now.brokers }
        ensures { option_map (λ a. a.now) result ≡ address_of self.now b }
    {
        self.parts.addresses[b as usize].as_ref()
    }

    /// The address of the client of a publisher: where an application that submits its events is reached. None exactly
    /// where it has no client.
    pub fn client(&self, p: u16) -> Option<&Text>
        requires { p < length self.now.publishers }
        ensures { option_map (λ a. a.now) result ≡ client_of self.now p }
    {
        self.parts.clients[p as usize].as_ref()
    }

    /// The broker where a publisher is.
    pub fn host(&self, p: u16) -> u16
        requires { p < length self.now.publishers }
        ensures host { result ≡ host_of self.now p }
        ensures broker { result < length self.now.brokers }
    {
        self.parts.hosts[p as usize]
    }

    /// The broker where a subscriber is.
    pub fn at(&self, s: u16) -> u16
        requires { s < length self.now.subscribers }
        ensures home { result ≡ home_of self.now s }
        ensures broker { result < length self.now.brokers }
    {
        self.parts.homes[s as usize]
    }

    /// The filter of a subscriber, or None exactly where it has none: then it wants every event.
    pub fn filter(&self, s: u16) -> Option<&Filter>
        requires { s < length self.now.subscribers }
        ensures { option_map (λ f. filter_tree f.now) result ≡ filter_of self.now s }
    {
        self.parts.filters[s as usize].as_ref()
    }

    /// Whether a subscriber gets one list over all publishers.
    pub fn total(&self, s: u16) -> bool
        requires { s < length self.now.subscribers }
        ensures { result ≡ total_of self.now s }
    {
        is_among(&self.parts.totals, s)
    }

    /// Whether a subscriber is late: of a publisher it has nothing up to the tick at which it joins it.
    pub fn late(&self, s: u16) -> bool
        ensures { result ≡ late_of self.now s }
    {
        is_among(&self.parts.late, s)
    }

    /// Whether any subscriber is late.
    pub fn has_late(&self) -> bool
        ensures { result ≡ not_empty self.now.late }
    {
        !self.parts.late.is_empty()
    }

    /// The late subscribers, in order, at most 64. Takes no memory where there is none.
    pub fn lates(&self, alloc: Global) -> Result<Numbers, Memory>
        ensures { IfOk result (λ n. n ≡ self.now.late) }
    {
        let late = &self.parts.late;
        let mut found = Numbers::new(alloc);
        let mut at = 0;
        'late: while at < late.len() {
            found.push(late[at] as u16)?;
            at += 1;
        }
        Ok(found)
    }

    /// The next broker on the path to the host of a publisher, or None exactly for the host. Takes constant time.
    pub fn up(&self, p: u16, b: u16) -> Option<u16>
        requires publisher { p < length self.now.publishers }
        requires broker { b < length self.now.brokers }
        ensures { result ≡ up_at self.now p b }
    {
        self.place(p, b).up
    }

    /// How many links lie between a broker and the host of a publisher. Takes constant time.
    pub fn depth(&self, p: u16, b: u16) -> u16
        requires publisher { p < length self.now.publishers }
        requires broker { b < length self.now.brokers }
        ensures { result ≡ depth_at self.now p b }
    {
        self.place(p, b).depth
    }

    /// The place of a broker, seen from the host of a publisher.
    fn place(&self, p: u16, b: u16) -> Place
        requires publisher { p < length self.now.publishers }
        requires broker { b < length self.now.brokers }
        ensures up { result.up ≡ up_at self.now p b }
        ensures depth { result.depth ≡ depth_at self.now p b }
        ensures topology { IsTopology self.now }
    {
        self.rows[p as usize][b as usize]
    }

    /// Whether one broker is a child of another.
    fn is_child(&self, p: u16, b: u16, c: u16) -> bool
        requires publisher { p < length self.now.publishers }
        requires broker { b < length self.now.brokers }
        requires child { c < length self.now.brokers }
        ensures { result ≡ is_child_at self.now p b c }
    {
        match self.place(p, c).up {
            Some(up) => up == b,
            None => false,
        }
    }

    /// The children of a broker: its neighbours but for the next one to the host of a publisher, in order.
    pub fn children(&self, alloc: Global, p: u16, b: u16) -> Result<Numbers, Memory>
        requires publisher { p < length self.now.publishers }
        requires broker { b < length self.now.brokers }
        ensures { IfOk result (λ n. n ≡ children_of self.now p b) }
    {
        let mut found = Numbers::new(alloc);
        for c in 0..self.brokers() {
            if self.is_child(p, b, c) {
                found.push(c)?;
            }
        }
        Ok(found)
    }

    /// The subscribers at a broker, in order.
    pub fn subscribers_at(&self, alloc: Global, b: u16) -> Result<Numbers, Memory>
        requires { b < length self.now.brokers }
        ensures { IfOk result (λ n. n ≡ subscribers_of self.now b) }
    {
        let mut found = Numbers::new(alloc);
        for s in 0..self.subscribers() {
            if self.at(s) == b {
                found.push(s)?;
            }
        }
        Ok(found)
    }

    /// Whether the path from one broker to the host of a publisher passes another.
    fn passes(&self, p: u16, b: u16, from: u16) -> bool
        requires publisher { p < length self.now.publishers }
        requires from { from < length self.now.brokers }
        ensures { result ≡ passes_by self.now p b from }
    {
        let mut here = from;
        'up: loop {
            if here == b {
                return true;
            }
            match self.place(p, here).up {
                Some(up) => here = up,
                None => return false,
            }
        }
    }

    /// The subscribers below a broker, those at it included, in order: the path from their broker to the host of the
    /// publisher passes this broker.
    pub fn below(&self, alloc: Global, p: u16, b: u16) -> Result<Numbers, Memory>
        requires publisher { p < length self.now.publishers }
        requires broker { b < length self.now.brokers }
        ensures { IfOk result (λ n. n ≡ below_of self.now p b) }
    {
        let mut found = Numbers::new(alloc);
        for s in 0..self.subscribers() {
            if self.passes(p, b, self.at(s)) {
                found.push(s)?;
            }
        }
        Ok(found)
    }

    /// Whether a broker has a subscriber.
    fn has_subscriber(&self, b: u16) -> bool
        ensures { result ≡ not_empty (subscribers_of self.now b) }
    {
        for s in 0..self.subscribers() {
            if self.at(s) == b {
                return true;
            }
        }
        false
    }

    /// Whether a broker has a child.
    fn has_child(&self, p: u16, b: u16) -> bool
        requires publisher { p < length self.now.publishers }
        requires broker { b < length self.now.brokers }
        ensures { result ≡ not_empty (children_of self.now p b) }
    {
        for c in 0..self.brokers() {
            if self.is_child(p, b, c) {
                return true;
            }
        }
        false
    }

    /// Whether a broker keeps a horizon for a publisher: it has subscribers, or no children.
    pub fn keeps_horizon(&self, p: u16, b: u16) -> bool
        requires publisher { p < length self.now.publishers }
        requires broker { b < length self.now.brokers }
        ensures { result ≡ keeps_horizon_at self.now p b }
    {
        self.has_subscriber(b) || !self.has_child(p, b)
    }
}

impl Names for Topology {
    ghost naming = { λ t. naming_of t };

    /// The broker of this name, or None where there is none. Takes no memory.
    fn broker(&self, name: &[u8]) -> Option<u16> {
        position_of(&self.parts.brokers, name)
    }

    /// The publisher of this name, or None where there is none. Takes no memory.
    fn publisher(&self, name: &[u8]) -> Option<u16> {
        position_of(&self.parts.publishers, name)
    }

    /// The late subscriber of this name, or None where there is none. Takes no memory.
    fn subscriber(&self, name: &[u8]) -> Option<u16> {
        let Some(s) = position_of(&self.parts.subscribers, name) else {
            return None;
        };
        if self.late(s) {
            return Some(s);
        }
        None
    }
}
