//! The endpoint of the subscribers at a broker: how far they have heard, and the events that they are handed.
#![tactic(auto)]

pub mod delivery;
pub mod subend;

pub use delivery::{Deliveries, Delivery};
pub use subend::Subend;
