//! Whether one filter matches every event that another matches.
#![tactic(auto)]

mod attribute;
pub mod cover;
mod mention;
mod search;
mod values;

pub use cover::{Cover, MAX_PARTS, covers, limit_of_parts};
