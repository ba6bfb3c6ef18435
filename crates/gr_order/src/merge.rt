//! The merge of all publishers' events into one order.

ghost use Rattle.std.specs.Prelude.{◌≡◌, ◌≤◌, map, length, drop, IfOk, OnOk, OnErr};
ghost use Rattle.gr_order.specs.Order.{IsRising, up_to};
ghost use Rattle.gr_order.specs.Merge.{fresh, item_of, least_of, MayTake, MayAdvance, with_item, with_horizon};
ghost use Rattle.gr_order.specs.Merge.{ready_items, without_ready};

use crate::item::{Item, Items};
use gr_event::{Event, Memory};
use std::alloc::Global;
use std::collections::BTreeMap;
use std::marker::Model;

/// The events that wait, by tick and then publisher.
type Waiting = BTreeMap<(u64, u16), Event>;

/// Events of all publishers on their way into one order, seen as the items that wait, rising by tick and then
/// publisher, and one horizon for each publisher. Up to its horizon a publisher was heard, and nothing more of it will
/// come.
#[derive(Drop)]
pub struct Merge {
    alloc: Global,
    waiting: Waiting,
    horizons: Vec<u64>,
    least: u64,
}

impl Model for Merge {
    ghost use Rattle.std.specs.Prelude.{◌≡◌, ◌≤◌, map, length};
    ghost use Rattle.gr_order.specs.Merge.{MergeView, item_of, least_of};

    ghost Value = { MergeView };

    ghost view = { λ m. record { waiting = map item_of m.waiting.entries; horizons = m.horizons.items } };

    ghost invariant = { λ m. (1 ≤ length m.horizons.items) × (m.least ≡ least_of m.horizons.items) };
}

impl Merge {
    /// Nothing was taken, and every horizon is 0.
    pub fn new(alloc: Global, publishers: u16) -> Result<Merge, Memory>
        requires { 1 ≤ publishers }
        ensures { IfOk result (λ m. m ≡ fresh publishers) }
    {
        Ok(Merge {
            alloc,
            waiting: BTreeMap::new(alloc),
            horizons: vec![in alloc; 0; usize::from(publishers)]?,
            least: 0,
        })
    }

    /// Takes an item, which waits until it is ready. It is past its publisher's horizon, and later than each item that
    /// was taken of this publisher. `Memory` leaves the merge as it was, and the item is dropped. Costs the logarithm
    /// of what waits.
    pub fn take(&mut self, item: Item) -> Result<(), Memory>
        requires { MayTake self.old item }
        ensures ok { OnOk result (self.new ≡ with_item self.old item) }
        ensures err { OnErr result (self.new ≡ self.old) }
    {
        let Item {
            publisher,
            tick,
            event,
        } = item;
        self.waiting.insert((tick, publisher), event)?;
        Ok(())
    }

    /// A publisher was heard up to this tick, which is not below its horizon so far. Takes no memory. Looks at the
    /// other horizons only where this one was the least.
    pub fn advance(&mut self, publisher: u16, horizon: u64)
        requires { MayAdvance self.old publisher horizon }
        ensures { self.new ≡ with_horizon self.old publisher horizon }
    {
        let place = usize::from(publisher);
        let before = self.horizons[place];
        self.horizons[place] = horizon;
        if before == self.least {
            self.least = least_among(&self.horizons);
        }
    }

    /// Gives, and takes out, the waiting items up to the least horizon, rising by tick and then publisher. `Memory`
    /// leaves the merge as it was. Costs, for each item that it gives, the logarithm of what waits.
    pub fn ready(&mut self) -> Result<Items, Memory>
        ensures given { IfOk result (λ items. items ≡ ready_items self.old) }
        ensures rises { IfOk result IsRising }
        ensures ok { OnOk result (self.new ≡ without_ready self.old) }
        ensures err { OnErr result (self.new ≡ self.old) }
    {
        let items = first_items(self.alloc, &self.waiting, self.least)?;
        drop_first(&mut self.waiting, items.len());
        Ok(Items::of(items))
    }
}

/// The least of the horizons.
fn least_among(horizons: &[u64]) -> u64
    requires { 1 ≤ length horizons.now }
    ensures { result ≡ least_of horizons.now }
{
    let mut least = horizons[0];
    for horizon in &horizons[1..] {
        least = least.min(*horizon);
    }
    least
}

/// The waiting items up to a tick.
fn first_items(alloc: Global, waiting: &Waiting, tick: u64) -> Result<Vec<Item>, Memory>
    ensures given { IfOk result (λ items. items.items ≡ up_to tick (map item_of waiting.now.entries)) }
    ensures rising { OnOk result (IsRising (map item_of waiting.now.entries)) }
{
    let mut items = Vec::new(alloc);
    for (place, event) in waiting {
        if place.0 > tick {
            return Ok(items);
        }
        items.push(Item {
            publisher: place.1,
            tick: place.0,
            event: event.share(),
        })?;
    }
    Ok(items)
}

/// Drops so many of the waiting items, the earliest.
fn drop_first(waiting: &mut Waiting, count: usize)
    ensures { waiting.new.entries ≡ drop count waiting.old.entries }
{
    for _ in 0..count {
        let _ = waiting.pop_first();
    }
}
