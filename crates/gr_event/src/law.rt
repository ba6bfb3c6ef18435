//! What holds of printed events, and what the limits are. The functions here do nothing: their contracts are the laws.

ghost use Rattle.std.specs.Prelude.{◌≡◌, ◌^◌, Ok};
ghost use Rattle.gr_event.specs.declared.event.Event.{Event};
ghost use Rattle.gr_event.specs.declared.limits.TheConstants.{MAX_PAIRS, MAX_NAME, MAX_TEXT, MAX_EVENT_BYTES};
ghost use Rattle.gr_event.specs.declared.limits.TheConstants.{MAX_JOINS, MAX_JOIN_TICK};
ghost use Rattle.gr_event.specs.Json.{json_text, event_text};
ghost use Rattle.gr_event.specs.Limits.{IsEvent};

/// The compact JSON text of an event reads back as the event.
pub fn printed_events_read_back()
    ensures { (e : Event) → IsEvent e → event_text (json_text e) ≡ Ok e }
{}

/// What the limits of events and of lists of joins are.
pub fn limits_of_events()
    ensures pairs { MAX_PAIRS ≡ 32 }
    ensures name { MAX_NAME ≡ 64 }
    ensures text { MAX_TEXT ≡ 1024 }
    ensures bytes { MAX_EVENT_BYTES ≡ 8192 }
    ensures joins { MAX_JOINS ≡ 64 }
    ensures join_tick { MAX_JOIN_TICK ≡ 2 ^ 62 }
{}
