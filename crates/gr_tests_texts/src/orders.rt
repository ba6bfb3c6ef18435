//! One order over all publishers.

use crate::words::{event, put_counted, put_json, short_number};
use gr_event::Event;
use gr_order::law::{gives_in_order, gives_one_order, is_one_list};
use gr_order::{Item, Items, Merge};
use gr_tests_rows::{Page, Stop, first_word, number, parted, range};
use std::alloc::{AllocError, Global};
use std::marker::Model;

/// A merge, with what its caller knows: how far each publisher was heard, and the latest tick that was taken of it.
struct Heard {
    merge: Merge,
    horizons: Vec<u64>,
    latest: Vec<u64>,
}

impl Model for Heard {
    ghost use Rattle.gr_order.specs.Merge.{MergeView};
    ghost use Rattle.gr_tests_texts.specs.Heard.{IsHeard};

    ghost Value = { MergeView };

    ghost view = { λ h. h.merge };

    ghost invariant = { λ h. IsHeard h.merge h.horizons.items h.latest.items };
}

impl Drop for Heard {
    fn drop(self) {
        let Heard {
            merge: _merge,
            horizons: _horizons,
            latest: _latest,
        } = self;
    }
}

impl Heard {
    /// Nothing was heard of so many publishers.
    fn new(alloc: Global, publishers: u16) -> Result<Heard, Stop> {
        if publishers == 0 {
            return Err(Stop::NoRow);
        }
        let horizons = vec![in alloc; 0; usize::from(publishers)]?;
        let latest = vec![in alloc; 0; usize::from(publishers)]?;
        Ok(Heard {
            merge: Merge::new(alloc, publishers)?,
            horizons,
            latest,
        })
    }

    /// Takes an event of a publisher.
    fn take(&mut self, publisher: u16, tick: u64, event: &Event) -> Result<(), Stop> {
        let place = usize::from(publisher);
        if place >= self.horizons.len() || place >= self.latest.len() {
            return Err(Stop::NoRow);
        }
        if tick <= self.horizons[place] || tick <= self.latest[place] {
            return Err(Stop::NoRow);
        }
        self.merge.take(Item {
            publisher,
            tick,
            event: event.share(),
        })?;
        self.latest[place] = tick;
        Ok(())
    }

    /// Moves the horizon of a publisher.
    fn advance(&mut self, publisher: u16, horizon: u64) -> Result<(), Stop> {
        let place = usize::from(publisher);
        if place >= self.horizons.len() || horizon < self.horizons[place] {
            return Err(Stop::NoRow);
        }
        self.merge.advance(publisher, horizon);
        self.horizons[place] = horizon;
        Ok(())
    }

    /// What is ready.
    fn ready(&mut self) -> Result<Items, AllocError> {
        let items = self.merge.ready()?;
        Ok(items)
    }
}

/// Answers a row about one order.
pub fn answer(alloc: Global, row: &str, page: &mut Page) -> Result<(), Stop> {
    gives_in_order();
    gives_one_order();
    is_one_list();
    let (publishers, script) = parted(row, " ; ")?;
    let mut heard = Heard::new(alloc, short_number(publishers)?)?;
    take_all(alloc, &mut heard, script, page)
}

/// Takes each step of a script.
fn take_all(alloc: Global, heard: &mut Heard, script: &str, page: &mut Page) -> Result<(), Stop> {
    for step in script.split(" ; ") {
        take_step(alloc, heard, step, page)?;
    }
    Ok(())
}

/// Makes a call.
fn take_step(alloc: Global, heard: &mut Heard, step: &str, page: &mut Page) -> Result<(), Stop> {
    let (call, rest) = first_word(step);
    match call {
        "take" => take(alloc, heard, rest),
        "advance" => advance(heard, rest),
        "ready" => Ok(put_ready(heard, page)?),
        "ready_along" => ready_along(heard, rest, page),
        _ => Err(Stop::NoRow),
    }
}

/// Takes an event at a tick, or at each tick of a range.
fn take(alloc: Global, heard: &mut Heard, row: &str) -> Result<(), Stop> {
    let (publisher, rest) = first_word(row);
    let (ticks, json) = first_word(rest);
    take_along(heard, short_number(publisher)?, ticks, &event(alloc, json)?)
}

/// Takes an event at each tick of a range.
fn take_along(heard: &mut Heard, publisher: u16, word: &str, event: &Event) -> Result<(), Stop> {
    let ticks = range(word)?;
    for tick in ticks.first..ticks.last + 1 {
        heard.take(publisher, tick, event)?;
    }
    Ok(())
}

/// Moves a horizon.
fn advance(heard: &mut Heard, row: &str) -> Result<(), Stop> {
    let (publisher, tick) = first_word(row);
    heard.advance(short_number(publisher)?, number(tick)?)
}

/// Prints the items that are ready.
fn put_ready(heard: &mut Heard, page: &mut Page) -> Result<(), AllocError> {
    put_items(&heard.ready()?, page);
    Ok(())
}

/// Prints items.
fn put_items(items: &Items, page: &mut Page) {
    if items.len() == 0 {
        page.push_str("  none\n");
    }
    for item in items.as_slice() {
        put_item(item, page);
    }
}

/// Prints an item.
fn put_item(item: &Item, page: &mut Page) {
    put_counted("  ", u64::from(item.publisher), page);
    put_counted(" ", item.tick, page);
    page.push(' ');
    put_json(&item.event, page);
    page.push('\n');
}

/// Moves a horizon to each tick of a range, and prints how many items are ready each time.
fn ready_along(heard: &mut Heard, row: &str, page: &mut Page) -> Result<(), Stop> {
    let (publisher, word) = first_word(row);
    let number = short_number(publisher)?;
    let ticks = range(word)?;
    let (mut least, mut most) = (usize::MAX, 0);
    for tick in ticks.first..ticks.last + 1 {
        let count = ready_at(heard, number, tick)?;
        (least, most) = (least.min(count), most.max(count));
    }
    put_counted("  ", least as u64, page);
    put_counted(" to ", most as u64, page);
    page.push_str(" items each time\n");
    Ok(())
}

/// Moves a horizon, and counts the items that are ready.
fn ready_at(heard: &mut Heard, publisher: u16, tick: u64) -> Result<usize, Stop> {
    heard.advance(publisher, tick)?;
    Ok(heard.ready()?.len())
}
