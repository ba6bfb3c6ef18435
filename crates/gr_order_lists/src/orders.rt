//! The lists of all subscribers that get one.

ghost use Rattle.std.specs.Prelude.{◌≡◌, ◌^◌, ℕ, ◌<◌, ◌≤◌, nat_eq, ◌++◌, ◌∷◌, if◌then◌else◌, List, [], map, length, IfOk, OnOk};
ghost use Rattle.gr_topo.specs.Topology.{total_of, totals_of};
ghost use Rattle.gr_model.specs.Orders.{orders_of, heard, fed, ordered, without_ordered, said_of, fresh_order};
ghost use Rattle.gr_order_lists.specs.Places.{ArePlaced, subject};

use crate::list::OneList;
use gr_event::Memory;
use gr_model::{Report, Reports};
use gr_topo::Topology;
use std::alloc::Global;
use std::marker::Model;

/// The one list over all publishers of each subscriber that gets one, subscriber by subscriber. With no publisher there
/// is none.
#[derive(Drop)]
pub struct Orders {
    alloc: Global,
    lists: Vec<OneList>,
    /// For each subscriber how many before it have a list: the place of its own, where it has one.
    places: Vec<u16>,
}

impl Model for Orders {
    ghost use Rattle.std.specs.Prelude.{List};
    ghost use Rattle.gr_model.specs.Orders.{Order};
    ghost use Rattle.gr_order_lists.specs.Places.{ArePlaced};

    ghost Value = { List Order };

    ghost view = { λ o. o.lists.items };

    ghost invariant = { λ o. ArePlaced 0 o.lists.items o.places.items };
}

/// Whose event or horizon a line tells, or None where it tells neither.
fn subject(line: &Report) -> Option<u16>
    ensures { result ≡ subject (said_of line.now) }
{
    match line {
        Report::Got { subscriber, .. } => Some(*subscriber),
        Report::Horizon { subscriber, .. } => Some(*subscriber),
        _ => None,
    }
}

/// Has the list of the subscriber hear a line whose event or horizon it tells, if it has one.
fn hear_line(lists: &mut Vec<OneList>, places: &[u16], line: &Report) -> Result<(), Memory>
    requires { ArePlaced 0 lists.old.items places.now }
    ensures heard { OnOk result (lists.new.items ≡ map (λ o. heard o line.now) lists.old.items) }
    ensures placed { ArePlaced 0 lists.new.items places.now }
{
    let Some(subscriber) = subject(line) else {
        return Ok(());
    };
    let at = usize::from(subscriber);
    if at >= places.len() {
        return Ok(());
    }
    let place = usize::from(places[at]);
    if place >= lists.len() {
        return Ok(());
    }
    lists[place].hear(line)
}

/// Has the lists hear lines in order.
fn hear_all(lists: &mut Vec<OneList>, places: &[u16], lines: &[Report]) -> Result<(), Memory>
    requires { ArePlaced 0 lists.old.items places.now }
    ensures heard { OnOk result (lists.new.items ≡ fed lists.old.items lines.now) }
    ensures placed { ArePlaced 0 lists.new.items places.now }
{
    'lines: for line in lines {
        match hear_line(lists, places, line) {
            Ok(()) => {}
            Err(fault) => return Err(fault),
        }
    }
    Ok(())
}

/// Puts what is ready in each list behind other lines.
fn put_all(lists: &mut Vec<OneList>, lines: &mut Reports) -> Result<(), Memory>
    ensures told { OnOk result (lines.new ≡ lines.old ++ ordered lists.old.items) }
    ensures left { OnOk result (lists.new.items ≡ without_ordered lists.old.items) }
    ensures same { (places : List ℕ) → ArePlaced 0 lists.old.items places → ArePlaced 0 lists.new.items places }
{
    'lists: for i in 0..lists.len() {
        match lists[i].put_ready(lines) {
            Ok(()) => {}
            Err(fault) => return Err(fault),
        }
    }
    Ok(())
}

/// Puts a new list behind others, where this subscriber gets one.
fn add_list(
    alloc: Global,
    topology: &Topology,
    s: u16,
    lists: &mut Vec<OneList>,
) -> Result<(), Memory>
    requires publishers { 1 ≤ length topology.now.publishers }
    requires subscriber { s < length topology.now.subscribers }
    ensures { OnOk result (lists.new.items ≡ lists.old.items
        ++ (if total_of topology.now s then fresh_order (length topology.now.publishers) s ∷ [] else [])) }
{
    if topology.total(s) {
        let list = OneList::new(alloc, s, topology.publishers())?;
        lists.push(list)?;
    }
    Ok(())
}

/// How many lists there are: at most one for each subscriber, so that two bytes are enough.
fn count_of(lists: &Vec<OneList>) -> u16
    requires { length lists.now.items < 2 ^ 16 }
    ensures { result ≡ length lists.now.items }
{
    lists.len() as u16
}

/// The lists of a topology with a publisher or more, and the place of each.
fn lists_of(
    alloc: Global,
    topology: &Topology,
    places: &mut Vec<u16>,
) -> Result<Vec<OneList>, Memory>
    requires publishers { 1 ≤ length topology.now.publishers }
    requires none { places.old.items ≡ [] }
    ensures lists { IfOk result (λ lists.
        lists.items ≡ map (fresh_order (length topology.now.publishers)) (totals_of topology.now)) }
    ensures placed { IfOk result (λ lists. ArePlaced 0 lists.items places.new.items) }
{
    let mut lists = Vec::new(alloc);
    'subscribers: for s in 0..topology.subscribers() {
        places.push(count_of(&lists))?;
        add_list(alloc, topology, s, &mut lists)?;
    }
    Ok(lists)
}

impl Orders {
    /// Nothing was heard.
    pub fn new(alloc: Global, topology: &Topology) -> Result<Orders, Memory>
        ensures { IfOk result (λ o. o ≡ orders_of topology.now) }
    {
        let mut places = Vec::new(alloc);
        if topology.publishers() == 0 {
            return Ok(Orders {
                alloc,
                lists: Vec::new(alloc),
                places,
            });
        }
        let lists = lists_of(alloc, topology, &mut places)?;
        Ok(Orders {
            alloc,
            lists,
            places,
        })
    }

    /// Whether no subscriber gets one.
    pub fn is_empty(&self) -> bool
        ensures { result ≡ nat_eq (length self.now) 0 }
    {
        self.lists.len() == 0
    }

    /// Hears lines in order: each list its subscriber's events and horizons. A line takes the logarithm of what waits,
    /// and one look at the horizon of each publisher. After `Memory` nothing is said of the lists.
    pub fn hear(&mut self, lines: &[Report]) -> Result<(), Memory>
        ensures { OnOk result (self.new ≡ fed self.old lines.now) }
    {
        if self.lists.len() == 0 {
            return Ok(());
        }
        hear_all(&mut self.lists, &self.places, lines)
    }

    /// Gives, and takes out, what is ready, subscriber by subscriber: all events up to where the subscriber has heard
    /// every publisher, rising by tick and then publisher. After `Memory` nothing is said of the lists.
    pub fn ready(&mut self) -> Result<Reports, Memory>
        ensures given { IfOk result (λ lines. lines ≡ ordered self.old) }
        ensures left { OnOk result (self.new ≡ without_ordered self.old) }
    {
        let mut lines = Reports::new(self.alloc);
        put_all(&mut self.lists, &mut lines)?;
        Ok(lines)
    }
}
