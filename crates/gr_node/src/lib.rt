//! Serving: the brokers of a topology that are hosted here, over a post, with their logs on a disk. A run is made of
//! acts, and each is the machine's.
//!
//! `specs/Plan.antt` says what a run is to do, act by act, `specs/Done.antt` what each act leaves, prints and puts into
//! the journal, `specs/Served.antt` what a whole run did, and `specs/Keeps.antt` what each call needs and keeps beside.
#![tactic(auto)]

mod arriving;
mod beginning;
mod bindings;
mod calling;
mod finishing;
mod law;
mod node;
mod noting;
mod ordering;
mod running;
mod schedule;
mod service;
mod showing;
mod starting;
mod telling;
mod turning;

pub use arriving::{await_next, datagram_comes, quiet_comes};
pub use bindings::{bind_all, is_among};
pub use law::{
    an_honest_journal_meets_the_headline, what_is_logged_was_submitted, what_was_answered_lasts,
};
pub use node::{Node, Site};
pub use ordering::settle;
pub use schedule::{next_after, next_request};
pub use service::{open_hosted, serve};
pub use telling::offer;
