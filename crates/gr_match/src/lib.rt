//! Matching one event against many filters, without asking each of them.
#![tactic(auto)]

mod bucket;
mod marks;
mod pair;
mod rows;
pub mod tree;

pub use tree::MatchTree;
