//! The events that a log keeps: those past its cut.

ghost use Rattle.std.specs.Prelude.{◌≡◌, ◌↔◌, ◌<◌, nat_lt, [], filter, length, IsTrue, slice_index_or};
ghost use Rattle.std.specs.VecDeque.{deque_len, deque_capacity};
ghost use Rattle.gr_publog.specs.State.{live_after, first_upto, EntriesRise};

use crate::record::{Entry, Record};
use std::alloc::Global;
use std::collections::VecDeque;
use std::marker::Model;

/// Logged events in their order, seen as a list.
#[derive(Drop)]
pub struct Entries {
    /// The events with their ticks, the earliest first.
    pub(crate) entries: VecDeque<Entry>,
}

impl Model for Entries {
    ghost use Rattle.std.specs.Prelude.{List};
    ghost use Rattle.gr_publog.specs.declared.record.Entry.{Entry};

    ghost Value = { List Entry };

    ghost view = { λ e. e.entries.items };
}

impl Entries {
    /// No event. Takes no memory.
    pub(crate) fn new(alloc: Global) -> Entries
        ensures { result ≡ [] }
    {
        Entries {
            entries: VecDeque::new(alloc),
        }
    }

    /// The events with their ticks, the earliest first.
    pub(crate) fn parts(&self) -> &VecDeque<Entry>
        ensures { result.now.items ≡ self.now }
    {
        &self.entries
    }

    /// How many there are.
    pub fn len(&self) -> usize
        ensures { result ≡ length self.now }
    {
        self.entries.len()
    }

    /// Whether there is none.
    pub fn is_empty(&self) -> bool
        ensures { IsTrue result ↔ (self.now ≡ []) }
    {
        self.entries.len() == 0
    }

    /// The event at place `i`, from 0 in the order of ticks.
    pub fn get(&self, i: usize) -> &Entry
        requires { i < length self.now }
        ensures { result.now ≡ slice_index_or self.now i result.now }
    {
        &self.entries[i]
    }
}

/// Whether the first entry is at or before a tick.
fn is_cut(entries: &VecDeque<Entry>, tick: u64) -> bool
    ensures { result ≡ first_upto tick entries.now.items }
{
    match entries.front() {
        Some(first) => first.tick <= tick,
        None => false,
    }
}

/// Drops the entries up to a tick, which come first. It looks at one more than it drops.
pub(crate) fn drop_upto(entries: &mut VecDeque<Entry>, tick: u64)
    requires { EntriesRise 0 entries.old.items }
    ensures { entries.new.items ≡ filter (λ e. nat_lt tick e.tick) entries.old.items }
{
    'cut: while is_cut(entries, tick) {
        drop(entries.pop_front());
    }
}

/// Puts the event of one more record at the end, or drops those that it cuts. Takes no memory.
pub(crate) fn note_record(entries: &mut VecDeque<Entry>, entry: &Record)
    requires room { deque_len entries.old < deque_capacity entries.old }
    requires rise { EntriesRise 0 entries.old.items }
    ensures { entries.new.items ≡ live_after entries.old.items entry.now }
{
    match entry {
        Record::Event {
            tick,
            number,
            event,
        } => entries.push_back_reserved(Entry {
            tick: *tick,
            number: *number,
            event: event.share(),
        }),
        Record::Mark { .. } | Record::Join { .. } => {}
        Record::Cut { tick } => drop_upto(entries, *tick),
    }
}
