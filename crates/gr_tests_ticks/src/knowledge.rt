//! What is known of a tick, as a row spells it: `Q` for unknown, `S` for silence, `D` with the JSON text of an event,
//! `F` for final.

use crate::spelled::Spelled;
use gr_event::{Event, EventFault};
use gr_know::K;
use gr_tests_rows::{Page, Stop};
use std::alloc::Global;

impl Spelled for K {
    fn read(alloc: Global, letter: char, text: &str) -> Result<K, Stop> {
        match letter {
            'Q' => Ok(K::Q),
            'S' => Ok(K::S),
            'F' => Ok(K::F),
            'D' => Ok(K::D(event(alloc, text)?)),
            _ => Err(Stop::NoRow),
        }
    }

    fn name(&self) -> &'static str {
        match self {
            K::Q => "Q",
            K::S => "S",
            K::D(_) => "D",
            K::F => "F",
        }
    }

    fn put_rest(&self, out: &mut Page) {
        match self {
            K::D(event) => {
                out.push(':');
                put_event(out, event);
            }
            K::Q | K::S | K::F => {}
        }
    }
}

/// The event of a JSON text.
fn event(alloc: Global, text: &str) -> Result<Event, Stop> {
    match Event::from_text(alloc, text.as_bytes()) {
        Ok(event) => Ok(event),
        Err(EventFault::Memory) => Err(Stop::Memory),
        Err(_) => Err(Stop::NoRow),
    }
}

/// Prints an event as JSON.
pub fn put_event(out: &mut Page, event: &Event) {
    match event.json(out.allocator()) {
        Ok(text) => out.push_escaped(text.as_slice()),
        Err(_) => out.tear(),
    }
}
