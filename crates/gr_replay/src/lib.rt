//! A schedule is carried out, and its report written to a sink.
#![tactic(auto)]

mod law;
mod ordering;
mod replaying;
mod stepping;

pub use law::every_line_is_named;
pub use replaying::{opened, replay};
pub use stepping::step;
