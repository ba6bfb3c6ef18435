//! A match text: filters with their names, and events; and for each event the names of the filters that match it.
//!
//! `read` gives what the bytes of a source ask, by their sizes first, then filter by filter, then event by event; what
//! is refused comes with the line that says why. `print_matches` writes one line for each event.
#![tactic(auto)]

mod asked;
mod event_list;
mod fault;
mod filter_list;
mod law;
mod printing;
mod reading;
mod refusals;

pub use asked::Asked;
pub use event_list::EventList;
pub use filter_list::FilterList;
pub use law::limit_of_filters;
pub use printing::print_matches;
pub use reading::read;
