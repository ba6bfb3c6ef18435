//! Reading a topology.

ghost use Rattle.std.specs.Prelude.{◌≡◌, ◌≤◌, ◌<◌, length, true, IfOk, IfErr, OnOk};
ghost use Rattle.toml.specs.View.{table_view};
ghost use Rattle.gr_tree.specs.Walks.{IsWithin};
ghost use Rattle.gr_topo.specs.Gives.{Gives};
ghost use Rattle.gr_topo.specs.Fault.{IsRefusal};
ghost use Rattle.gr_topo.specs.Draft.{draft_lists};
ghost use Rattle.gr_topo.specs.Checks.{tree_of};
ghost use Rattle.gr_topo.specs.Read.{names_checked, resolved_in, topology_of, draft_topology, table_topology, document};
ghost use Rattle.gr_topo.specs.Read.{document_topology, topology_text};
ghost use Rattle.gr_topo.specs.Parts.{resolved_lists};
ghost use Rattle.gr_topo.specs.Columns.{HasColumns};
ghost use Rattle.gr_topo.specs.declared.limits.TheConstants.{MAX_BROKERS, MAX_PUBLISHERS};

use crate::check::{addresses_of, filters_in, settings_of};
use crate::draft::Draft;
use crate::fault::{Memory, TopoFault};
use crate::limits::{MAX_BROKERS, MAX_LATE, MAX_PUBLISHERS, MAX_SUBSCRIBERS};
use crate::names::{apart, few, good_names, links_in, numbers_in};
use crate::parts::{Parts, Resolved};
use crate::shape::draft_in;
use crate::topology::Topology;
use gr_event::Text;
use gr_sched::is_blank;
use gr_tree::{Link, places};
use std::alloc::Global;
use toml::Table;

/// Whether there are not too many names, nor too many late subscribers, each is a name, and none stands twice.
#[tactic(auto, unfolding(crate::specs::Read::names_checked))]
fn names_checked(
    alloc: Global,
    brokers: &[Text],
    publishers: &[Text],
    subscribers: &[Text],
    late: usize,
) -> Result<(), TopoFault>
    ensures gives { Gives (λ x. x) result (names_checked brokers.now publishers.now subscribers.now late) }
    ensures few_brokers { OnOk result (length brokers.now ≤ MAX_BROKERS) }
    ensures few_publishers { OnOk result (length publishers.now ≤ MAX_PUBLISHERS) }
{
    few(alloc, MAX_BROKERS, "brokers", brokers.len())?;
    few(alloc, MAX_PUBLISHERS, "publisher", publishers.len())?;
    few(alloc, MAX_SUBSCRIBERS, "subscriber", subscribers.len())?;
    few(alloc, MAX_LATE, "late", late)?;
    good_names(alloc, brokers)?;
    good_names(alloc, publishers)?;
    good_names(alloc, subscribers)?;
    apart(alloc, brokers)?;
    apart(alloc, publishers)?;
    apart(alloc, subscribers)
}

/// Whether links are a tree of brokers.
#[tactic(auto, using(crate::proofs::Sound::no_brokers))]
fn tree_of(alloc: Global, brokers: u16, links: &[Link]) -> Result<(), TopoFault>
    requires { IsWithin brokers links.now }
    ensures { Gives (λ x. x) result (tree_of brokers links.now) }
{
    if brokers == 0 {
        return Err(TopoFault::NotTree);
    }
    match places(alloc, brokers, links, 0)? {
        Some(_) => Ok(()),
        None => Err(TopoFault::NotTree),
    }
}

/// The links and the brokers that a draft names, by their numbers.
#[tactic(auto, unfolding(crate::specs::Read::resolved_in))]
fn resolved_in(alloc: Global, brokers: &[Text], draft: &Draft) -> Result<Resolved, TopoFault>
    ensures gives { Gives resolved_lists result (resolved_in brokers.now (draft_lists draft.now)) }
{
    let publishers = &draft.publishers;
    let subscribers = &draft.subscribers;
    let late = subscribers.late.as_slice().len();
    names_checked(alloc, brokers, &publishers.names, &subscribers.names, late)?;
    let links = links_in(alloc, brokers, &draft.links)?;
    let hosts = numbers_in(alloc, brokers, &publishers.brokers)?;
    let homes = numbers_in(alloc, brokers, &subscribers.brokers)?;
    numbers_in(alloc, brokers, &draft.addresses.names)?;
    numbers_in(alloc, &publishers.names, &draft.clients.names)?;
    tree_of(alloc, brokers.len() as u16, &links)?;
    Ok(Resolved {
        links,
        hosts,
        homes,
    })
}

/// The topology of a draft.
#[tactic(auto, unfolding(crate::specs::Read::topology_of))]
fn topology_of(alloc: Global, brokers: Vec<Text>, draft: Draft) -> Result<Topology, TopoFault>
    requires { HasColumns (draft_lists draft) }
    ensures { Gives (λ t. t) result (topology_of brokers.items (draft_lists draft)) }
{
    let resolved = resolved_in(alloc, &brokers, &draft)?;
    let settings = settings_of(alloc, draft.settings)?;
    let filters = filters_in(alloc, &draft.subscribers.names, &draft.subscribers.filters)?;
    let addresses = addresses_of(alloc, &draft.addresses, &brokers)?;
    let clients = addresses_of(alloc, &draft.clients, &draft.publishers.names)?;
    let Resolved {
        links,
        hosts,
        homes,
    } = resolved;
    let publishers = draft.publishers;
    let subscribers = draft.subscribers;
    let parts = Parts {
        brokers,
        publishers: publishers.names,
        subscribers: subscribers.names,
        links,
        hosts,
        homes,
        filters,
        late: subscribers.late,
        totals: subscribers.totals,
        addresses,
        clients,
        settings,
    };
    Ok(Topology::new(alloc, parts)?)
}

/// The topology of a draft that names its brokers, as it must.
fn draft_topology(alloc: Global, mut draft: Draft) -> Result<Topology, TopoFault>
    requires { HasColumns (draft_lists draft) }
    ensures { Gives (λ t. t) result (draft_topology (draft_lists draft)) }
{
    match draft.brokers.take() {
        Some(brokers) => topology_of(alloc, brokers, draft),
        None => Err(TopoFault::Missing {
            key: Text::from_slice(alloc, b"brokers")?,
        }),
    }
}

/// The topology of a document's root table.
#[tactic(auto, unfolding(crate::specs::Read::table_topology))]
fn table_topology(alloc: Global, root: &Table) -> Result<Topology, TopoFault>
    ensures { Gives (λ t. t) result (table_topology (table_view root.now)) }
{
    let draft = draft_in(alloc, root)?;
    draft_topology(alloc, draft)
}

/// The topology of a TOML document.
fn document_topology(alloc: Global, bytes: &[u8]) -> Result<Topology, TopoFault>
    ensures { Gives (λ t. t) result (document_topology (document bytes.now)) }
{
    match toml::table_from_slice(alloc, bytes) {
        Ok(root) => table_topology(alloc, &root),
        Err(error) => {
            if error.is_memory() {
                Err(TopoFault::Memory)
            } else {
                Err(TopoFault::NotToml)
            }
        }
    }
}

impl Topology {
    /// The topology of a topology part, or the first refusal in the order of the format.
    ///
    /// A part of nothing but spaces, tabs and ends of lines stands for the blank topology.
    #[tactic(auto, unfolding(crate::specs::Read::topology_text))]
    pub fn read(alloc: Global, bytes: &[u8]) -> Result<Topology, TopoFault>
        ensures gives { Gives (λ t. t) result (topology_text bytes.now) }
        // The fault of a filter is never want of memory.
        ensures cause { IfErr result IsRefusal }
    {
        if is_blank(bytes) {
            return Ok(Topology::blank(alloc)?);
        }
        document_topology(alloc, bytes)
    }
}
