//! The journals of processes: what came to each and what it did, line by line.
//!
//! `split` finds the line `===` between a scenario and journals. `read_journals` reads these: its answer is the
//! journals, each line in its one spelling, or the first line that is none of a journal (`journals_of` in
//! `specs/Lines.antt`). `unhosted` says whether each broker is in one process and in no other, and `rising` puts the
//! brokers of one in order. `process_text`, `push_quiet`, `push_datagram`, `push_said` and `push_offer` write the lines of a journal.
#![tactic(auto)]

mod arrival;
mod fault;
mod form;
mod hosting;
mod journal;
mod law;
mod reading;
mod spelling;
mod text;
mod words;

pub use arrival::{Arrival, Came, CameList, MAX_DATAGRAM};
pub use fault::AuditFault;
pub use hosting::{rising, unhosted};
pub use journal::{Journal, JournalList};
pub use law::limit_of_datagrams;
pub use reading::read_journals;
pub use spelling::{process_text, push_datagram, push_offer, push_quiet, push_said};
pub use text::split;
