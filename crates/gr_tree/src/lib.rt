//! Trees of numbered nodes: links between them, and where each node stands, seen from a root.
//!
//! The path between two nodes of a tree is the one walk over links without a repeat. `places` finds, for one root,
//! the next node on the path from each node to the root, and how long that path is.
#![tactic(auto)]

pub mod link;
pub mod search;

pub use link::{Link, Place};
pub use search::{Memory, places};
