//! Events: what publishers publish, as a list of names and values, rising by name. And joins: which late subscribers
//! have joined a publisher, and at which ticks.
//!
//! `specs/Event.antt` defines the bytes of an event, `specs/Json.antt` its text, `specs/Decode.antt` how bytes are
//! read, with the first fault and its place, and `specs/Limits.antt` what holds of every event. `specs/Joins.antt` says
//! what a list of joins is.
#![tactic(auto)]

mod compact;
mod compare;
pub mod decode;
pub mod encode;
pub mod event;
mod fault;
pub mod join;
pub mod joins;
mod law;
pub mod limits;
pub mod pairs;
pub mod parse;
pub mod print;
pub mod text;
pub mod value;
mod walk;

pub use event::{Event, EventFault, Memory};
pub use join::{Join, Split};
pub use joins::Joins;
pub use law::{limits_of_events, printed_events_read_back};
pub use limits::{MAX_EVENT_BYTES, MAX_JOIN_TICK, MAX_JOINS, MAX_NAME, MAX_PAIRS, MAX_TEXT};
pub use pairs::Pairs;
pub use text::{Bytes, Numbers, Text};
pub use value::{Part, Value};
