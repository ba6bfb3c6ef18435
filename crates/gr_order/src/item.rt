//! Events with their publishers and ticks.

ghost use Rattle.std.specs.Prelude.{◌≡◌, length};

use gr_event::Event;
use std::marker::Model;

/// An event of a publisher, with its tick.
#[derive(Drop)]
pub struct Item {
    /// The publisher's number, from 0 on.
    pub publisher: u16,
    /// The tick, in milliseconds, from 1 on.
    pub tick: u64,
    /// The event of that tick.
    pub event: Event,
}

/// A list of items, seen as it is.
#[derive(Drop)]
pub struct Items {
    items: Vec<Item>,
}

impl Model for Items {
    ghost use Rattle.std.specs.Prelude.{List};
    ghost use Rattle.gr_order.specs.declared.item.Item.{Item};

    ghost Value = { List Item };

    ghost view = { λ list. list.items.items };
}

impl Items {
    /// These items.
    pub(crate) fn of(items: Vec<Item>) -> Items
        ensures { result ≡ items.items }
    {
        Items { items }
    }

    /// How many items there are. Takes no memory.
    pub fn len(&self) -> usize
        ensures { result ≡ length self.now }
    {
        self.items.len()
    }

    /// The items. Takes no memory.
    pub fn as_slice(&self) -> &[Item]
        ensures { result.now ≡ self.now }
    {
        &self.items
    }
}
