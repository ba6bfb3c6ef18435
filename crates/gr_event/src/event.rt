//! Events and their two forms.

ghost use Rattle.std.specs.Prelude.{◌≡◌, ◌↔◌, ◌+◌, ◌<◌, ◌≤◌, ◌*◌, IsTrue, IfOk, Some, length, nat_eq, option_map};
ghost use Rattle.std.specs.Prelude.{slice_get};
ghost use Rattle.std.specs.List.{AllByRecursion};
ghost use Rattle.gr_event.specs.Event.{event_bytes, event_size, pairs_size, value_size};
ghost use Rattle.gr_event.specs.Form.{AreOfEvent, event_of};
ghost use Rattle.gr_event.specs.Limits.{IsEvent, ArePairs, IsPair, IsValue};
ghost use Rattle.gr_event.specs.Get.{part_value, value_of};
ghost use Rattle.gr_event.specs.Gives.{Gives};
ghost use Rattle.gr_event.specs.Json.{short_event};
ghost use Rattle.gr_event.specs.declared.limits.TheConstants.{MAX_EVENT_BYTES, MAX_PAIRS};

use crate::encode::put_event;
use crate::limits::MAX_EVENT_BYTES;
use crate::pairs::Pairs;
use crate::text::Text;
use crate::value::{Part, Value};
use crate::walk::{find, nth};
use gr_gap::Shared;
use smallvec::SmallVec;
use std::alloc::{AllocError, AllocFailed, Global};
use std::marker::Model;

/// No memory was given.
pub type Memory = AllocError;

/// Up to how many bytes stand in the one block that the owners of an event share.
const SHORT: usize = 32;

/// An event, seen as its list of names and values, rising by name. It is kept as its form in bytes.
#[derive(Drop)]
pub struct Event {
    bytes: Shared<SmallVec<u8, SHORT>>,
}

impl Model for Event {
    ghost use Rattle.std.specs.Prelude.{List, ℕ};
    ghost use Rattle.gr_event.specs.declared.value.Value.{Value as EventValue};

    ghost Value = { List (List ℕ × EventValue) };

    ghost use Rattle.gr_event.specs.Form.{AreOfEvent, event_of};

    ghost view = { λ e. event_of e.bytes.items };

    ghost invariant = { λ e. AreOfEvent e.bytes.items };
}

impl Event {
    /// The event of these pairs.
    pub(crate) fn of_pairs(alloc: Global, pairs: Vec<(Text, Value)>) -> Result<Event, Memory>
        requires { IsEvent pairs.items }
        ensures { IfOk result (λ e. e ≡ pairs.items) }
    {
        let mut bytes = vec![in alloc; 0u8; 1 + size_of_pairs(&pairs)]?;
        put_event(&pairs, &mut bytes);
        Event::of_bytes(alloc, &bytes)
    }

    /// The event of these bytes.
    pub(crate) fn of_bytes(alloc: Global, bytes: &[u8]) -> Result<Event, Memory>
        requires { AreOfEvent bytes.now }
        ensures { IfOk result (λ e. e ≡ event_of bytes.now) }
    {
        let form = SmallVec::from_slice(alloc, bytes)?;
        Ok(Event {
            bytes: Shared::new(alloc, form)?,
        })
    }

    /// The event of these pairs, unless its form in bytes is too long.
    pub(crate) fn of_short_pairs(
        alloc: Global,
        pairs: Vec<(Text, Value)>,
    ) -> Result<Event, EventFault>
        requires { ArePairs pairs.items }
        ensures { Gives result (short_event pairs.items) }
    {
        if 1 + size_of_pairs(&pairs) > MAX_EVENT_BYTES {
            return Err(EventFault::TooLong);
        }
        Ok(Event::of_pairs(alloc, pairs)?)
    }

    /// An equal event. Takes no memory and is never refused.
    pub fn share(&self) -> Event
        ensures { result ≡ self.now }
    {
        Event {
            bytes: self.bytes.share(),
        }
    }

    /// Whether both have the same names with the same values. Takes no memory.
    pub fn same(&self, other: &Event) -> bool
        ensures { IsTrue result ↔ (self.now ≡ other.now) }
    {
        self.bytes() == other.bytes()
    }

    /// How many bytes its form in bytes has, at most 8,192. Takes no memory.
    pub fn size(&self) -> usize
        ensures size { result ≡ event_size self.now }
        ensures short { result ≤ MAX_EVENT_BYTES }
        ensures event { IsEvent self.now }
    {
        self.bytes().len()
    }

    /// The value of a name, if the event has it. Takes no memory.
    pub fn get(&self, name: &[u8]) -> Option<Part<'_>>
        ensures { option_map part_value result ≡ value_of name.now self.now }
    {
        find(&self.bytes()[1..], name)
    }

    /// How many names it has, at most 32. Takes no memory.
    pub fn len(&self) -> usize
        ensures len { result ≡ length self.now }
        ensures event { IsEvent self.now }
    {
        usize::from(self.bytes()[0])
    }

    /// Whether it has no name. Takes no memory.
    pub fn is_empty(&self) -> bool
        ensures { result ≡ nat_eq (length self.now) 0 }
    {
        self.len() == 0
    }

    /// The name and the value at a place, from 0 on by rising name. Takes no memory.
    pub fn pair(&self, i: usize) -> (&[u8], Part<'_>)
        requires { i < length self.now }
        ensures { slice_get self.now i ≡ Some (result.0.now, part_value result.1) }
    {
        nth(&self.bytes()[1..], i)
    }

    /// Its names and values, by rising name, for a walk from the first to the last. Takes no memory.
    pub fn pairs(&self) -> Pairs<'_>
        ensures pairs { result ≡ self.now }
        ensures event { IsEvent self.now }
    {
        let bytes = self.bytes();
        Pairs {
            count: bytes[0],
            rest: &bytes[1..],
        }
    }

    /// Its form in bytes. Takes no memory.
    pub fn bytes(&self) -> &[u8]
        ensures bytes { result.now ≡ event_bytes self.now }
        ensures event { IsEvent self.now }
    {
        self.bytes.get().as_slice()
    }
}

/// How many bytes the pairs take.
fn size_of_pairs(pairs: &[(Text, Value)]) -> usize
    requires few { length pairs.now ≤ MAX_PAIRS }
    requires each { AllByRecursion IsPair pairs.now }
    ensures size { result ≡ pairs_size pairs.now }
    ensures bound { result ≤ 1092 * length pairs.now }
{
    match pairs {
        [] => 0,
        [first, rest @ ..] => 2 + first.0.len() + size_of_value(&first.1) + size_of_pairs(rest),
    }
}

/// How many bytes a value takes behind its kind.
pub(crate) fn size_of_value(value: &Value) -> usize
    requires { IsValue value.now }
    ensures size { result ≡ value_size value.now }
    ensures bound { result ≤ 1026 }
{
    match value {
        Value::Int(_) => 8,
        Value::Text(text) => 2 + text.len(),
        Value::Bool(_) => 1,
    }
}

/// Why bytes or a JSON value are no event.
#[derive(Clone, Copy, Debug, PartialEq, Eq)]
pub enum EventFault {
    /// No memory was given.
    Memory,
    /// The JSON value is no object.
    NotObject,
    /// A name of a JSON object is empty or has more than 64 bytes.
    BadName,
    /// A value of a JSON object is no integer of 64 bits, no text and no truth value.
    BadValue,
    /// A JSON object has more than 32 names.
    TooMany,
    /// A text has more than 1,024 bytes, or the form in bytes more than 8,192.
    TooLong,
    /// The bytes end within a field; `at` is their number.
    Short { at: usize },
    /// The kind or truth byte at `at` is none of the table.
    BadKind { at: usize },
    /// The name that begins at `at` is not above the one before.
    NotSorted { at: usize },
    /// Bytes are left from `at` on.
    Trailing { at: usize },
    /// The bytes are no JSON text.
    NotJson,
    /// The name or text that begins at `at` is not UTF-8.
    BadText { at: usize },
    /// The count or length at `at` is outside its limits.
    BadLength { at: usize },
}

impl From<AllocError> for EventFault {
    ghost use Rattle.std.specs.Prelude.{◌≡◌};
    ghost use Rattle.gr_event.specs.declared.event.EventFault.TheVariants.{Memory as OutOfMemory};

    ghost from_gives = { λ _ e. e ≡ OutOfMemory };

    fn from(_refused: AllocError) -> EventFault {
        EventFault::Memory
    }
}

impl<T: Drop> From<AllocFailed<T>> for EventFault {
    ghost use Rattle.std.specs.Prelude.{◌≡◌};
    ghost use Rattle.gr_event.specs.declared.event.EventFault.TheVariants.{Memory as OutOfMemory};

    ghost from_gives = { λ _ e. e ≡ OutOfMemory };

    fn from(_refused: AllocFailed<T>) -> EventFault {
        EventFault::Memory
    }
}
