//! The side of a publisher's process: which event it submits next, how it goes on by what the host of its log says, and
//! its run over a post.
#![tactic(auto)]

mod binding;
mod client;
mod events;
mod hearing;
mod law;
mod lines;
mod offering;
mod running;
mod telling;
mod turning;

pub use client::{Client, Progress};
pub use events::Events;
pub use gr_note::{Note, NoteFault, NoteKind, decode, encode};
pub use law::next_is_told_where_it_came;
pub use running::run;
