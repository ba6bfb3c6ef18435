//! The soak: a scenario of any size that is made from a number, and counts over the report of its replay.
//!
//! `soak_text` makes the scenario, as a text that a replay reads: `soaks_are_scenarios` says what it reads as. `soak`
//! makes it too, carries it out and prints nine lines of counts: it keeps no report, so its memory is that of the
//! scenario, the world and the lines of one step.
#![tactic(auto)]

mod draws;
mod law;
mod running;
mod summary;
mod text;

pub use law::soaks_are_scenarios;
pub use running::{soak, summary_of};
pub use summary::Summary;
pub use text::{MAX_TURNS, soak_text};
