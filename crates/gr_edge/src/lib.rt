//! The edges of a tree of brokers: what is known passes them, but for the events that nobody behind them wants.
#![tactic(auto)]

pub mod edge;
mod late;
mod listed;
mod wider;

pub use edge::Edge;
