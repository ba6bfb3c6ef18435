//! One order over the events of all publishers, by tick and then publisher, as far as every publisher was heard.
#![tactic(auto)]

pub mod item;
pub mod law;
pub mod merge;

pub use item::{Item, Items};
pub use merge::Merge;
