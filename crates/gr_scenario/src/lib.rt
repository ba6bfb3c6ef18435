//! A scenario: a topology, and the steps of a schedule over it, read from the bytes of a source.
//!
//! `read` gives what the bytes ask, by their sizes first, then by the topology, then by the steps; what is refused
//! comes with the line that says why.
#![tactic(auto)]

mod asked;
mod law;
mod reading;
mod refusals;

pub use asked::Asked;
pub use law::steps_that_are_read;
pub use reading::read;
pub use refusals::{line_of_step, line_of_topology, push_shown};
