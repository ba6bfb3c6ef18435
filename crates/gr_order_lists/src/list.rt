//! The list of one subscriber.

ghost use Rattle.std.specs.Prelude.{◌≡◌, ◌≤◌, ◌++◌, map, IfOk, OnOk};
ghost use Rattle.gr_model.specs.Orders.{IsOrder, ordered_line, got, moved, heard, rested, ordered_in, fresh_order};

use gr_event::{Event, Memory};
use gr_model::{Report, Reports};
use gr_order::{Item, Merge};
use std::alloc::Global;
use std::marker::Model;

/// The one list of a subscriber: the merge of what it got of all publishers, and of each publisher the last tick that
/// it got or heard of.
#[derive(Drop)]
pub(crate) struct OneList {
    subscriber: u16,
    merge: Merge,
    reached: Vec<u64>,
}

impl Model for OneList {
    ghost use Rattle.gr_model.specs.Orders.{Order, IsOrder};

    ghost Value = { Order };

    ghost view = { λ o. record { subscriber = o.subscriber; merge = o.merge; reached = o.reached.items } };

    ghost invariant = { λ o. IsOrder o.merge o.reached.items };
}

/// Takes an event, where it is past all that was reached of its publisher.
fn take(
    merge: &mut Merge,
    reached: &mut Vec<u64>,
    p: u16,
    tick: u64,
    event: Event,
) -> Result<(), Memory>
    requires { IsOrder merge.old reached.old.items }
    ensures taken { OnOk result ((merge.new, reached.new.items) ≡ got merge.old reached.old.items p tick event) }
    ensures fits { IsOrder merge.new reached.new.items }
{
    let place = usize::from(p);
    if place >= reached.len() {
        return Ok(());
    }
    if tick <= reached[place] {
        return Ok(());
    }
    merge.take(Item {
        publisher: p,
        tick,
        event,
    })?;
    reached[place] = tick;
    Ok(())
}

/// Hears a horizon, where it is not before what was reached of its publisher.
fn advance(merge: &mut Merge, reached: &mut Vec<u64>, p: u16, tick: u64)
    requires { IsOrder merge.old reached.old.items }
    ensures moved { (merge.new, reached.new.items) ≡ moved merge.old reached.old.items p tick }
    ensures fits { IsOrder merge.new reached.new.items }
{
    let place = usize::from(p);
    if place >= reached.len() {
        return;
    }
    if tick < reached[place] {
        return;
    }
    merge.advance(p, tick);
    reached[place] = tick;
}

impl OneList {
    /// Nothing was heard.
    pub(crate) fn new(alloc: Global, subscriber: u16, publishers: u16) -> Result<OneList, Memory>
        requires { 1 ≤ publishers }
        ensures { IfOk result (λ o. o ≡ fresh_order publishers subscriber) }
    {
        Ok(OneList {
            subscriber,
            merge: Merge::new(alloc, publishers)?,
            reached: vec![in alloc; 0; usize::from(publishers)]?,
        })
    }

    /// Hears a line, where it is an event or a horizon of this subscriber.
    pub(crate) fn hear(&mut self, line: &Report) -> Result<(), Memory>
        ensures heard { OnOk result (self.new ≡ heard self.old line.now) }
        ensures same { self.new.subscriber ≡ self.old.subscriber }
    {
        match line {
            Report::Got {
                subscriber,
                publisher,
                tick,
                event,
            } => {
                if *subscriber != self.subscriber {
                    return Ok(());
                }
                take(
                    &mut self.merge,
                    &mut self.reached,
                    *publisher,
                    *tick,
                    event.share(),
                )
            }
            Report::Horizon {
                subscriber,
                publisher,
                tick,
            } => {
                if *subscriber == self.subscriber {
                    advance(&mut self.merge, &mut self.reached, *publisher, *tick);
                }
                Ok(())
            }
            _ => Ok(()),
        }
    }

    /// Puts a line for each event that is ready behind other lines, and forgets these events.
    pub(crate) fn put_ready(&mut self, lines: &mut Reports) -> Result<(), Memory>
        ensures told { OnOk result (lines.new ≡ lines.old ++ ordered_in self.old) }
        ensures left { OnOk result (self.new ≡ rested self.old) }
        ensures same { self.new.subscriber ≡ self.old.subscriber }
    {
        let items = self.merge.ready()?;
        put_items(self.subscriber, items.as_slice(), lines)
    }
}

/// Puts a line for each of these events behind other lines.
fn put_items(subscriber: u16, items: &[Item], lines: &mut Reports) -> Result<(), Memory>
    ensures { OnOk result (lines.new ≡ lines.old ++ map (ordered_line subscriber) items.now) }
{
    'events: for item in items {
        lines.push(Report::Ordered {
            subscriber,
            publisher: item.publisher,
            tick: item.tick,
            event: item.event.share(),
        })?;
    }
    Ok(())
}
