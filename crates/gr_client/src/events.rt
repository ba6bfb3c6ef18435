//! The events of a client.

ghost use Rattle.std.specs.Prelude.{◌≡◌, ◌<◌, ◌++◌, ◌∷◌, [], length, slice_get, Some, IfOk, OnOk, OnErr};
ghost use Rattle.gr_client.specs.Run.{events_in, events_of};

use gr_event::{Event, Memory};
use gr_sched::{Line, Step};
use std::alloc::Global;
use std::marker::Model;

/// Events in the order of their numbers, seen as a list.
#[derive(Drop)]
pub struct Events {
    events: Vec<Event>,
}

impl Model for Events {
    ghost use Rattle.std.specs.Prelude.{List};
    ghost use Rattle.gr_event.specs.declared.event.Event.{Event};

    ghost Value = { List Event };

    ghost view = { λ l. l.events.items };
}

impl Events {
    /// No events. Takes no memory.
    pub fn new(alloc: Global) -> Events
        ensures { result ≡ [] }
    {
        Events {
            events: Vec::new(alloc),
        }
    }

    /// One more event at the end. At want of memory the list stays as it was, and the event is dropped.
    pub fn push(&mut self, event: Event) -> Result<(), Memory>
        ensures ok { OnOk result (self.new ≡ self.old ++ event ∷ []) }
        ensures err { OnErr result (self.new ≡ self.old) }
    {
        self.events.push(event)?;
        Ok(())
    }

    /// How many events there are.
    pub fn len(&self) -> usize
        ensures { result ≡ length self.now }
    {
        self.events.len()
    }

    /// The event at a place, counted from 0.
    pub fn event(&self, i: usize) -> &Event
        requires { i < length self.now }
        ensures { slice_get self.now i ≡ Some result.now }
    {
        &self.events[i]
    }
}

/// Takes the event of a line, where it is a publish of this publisher. Its written number is left aside.
fn take_line(events: &mut Events, line: &Line, p: u16) -> Result<(), Memory>
    ensures { OnOk result (events.new ≡ events.old ++ events_in p line.now) }
{
    match &line.step {
        Step::Publish {
            publisher,
            event,
            ..
        } => {
            if *publisher == p {
                return events.push(event.share());
            }
            Ok(())
        }
        _ => Ok(()),
    }
}

/// The events of a publisher's publish lines, in order. They are shared with the lines.
pub(crate) fn events_of(alloc: Global, steps: &[Line], p: u16) -> Result<Events, Memory>
    ensures { IfOk result (λ events. events ≡ events_of p steps.now) }
{
    let mut events = Events::new(alloc);
    'lines: for line in steps {
        take_line(&mut events, line, p)?;
    }
    Ok(events)
}
