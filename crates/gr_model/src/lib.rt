//! The protocol as definitions: a machine that says what every schedule does, the lines of its report, and the headline
//! that every report meets.
//!
//! Read `specs/Net.antt`, `specs/Broker.antt` and `specs/World.antt` in this order for the machine, then
//! `specs/Headline.antt` for what every report is to meet. `specs/Text.antt` has the text of each line,
//! `specs/Arrivals.antt` a server.
#![tactic(auto)]

pub mod report;
pub mod topologies;

pub use report::{Report, Reports};
