//! Topologies: the brokers, publishers and subscribers of a run, the tree that links make of the brokers, and what a
//! user sets.
//!
//! Brokers, publishers and subscribers are numbers, from 0 in the order of the topology. `Topology::read` reads one
//! from TOML, or answers the first refusal; all other calls are look-ups.
#![tactic(auto)]

mod check;
mod draft;
pub mod fault;
pub mod limits;
mod names;
mod parts;
mod read;
pub mod settings;
mod shape;
pub mod topology;

pub use fault::{Memory, TopoFault};
pub use limits::{MAX_BROKERS, MAX_NAME, MAX_PUBLISHERS, MAX_SUBSCRIBERS, limits_of_topologies};
pub use names::is_name;
pub use settings::Settings;
pub use topology::Topology;
