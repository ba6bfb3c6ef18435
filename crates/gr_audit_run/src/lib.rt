//! The audit of journals against brokers.
//!
//! `Brokers` is the `Machine` of an audit: it runs the brokers of a process over what its journal says came to it, over
//! empty logs in memory. What it does is `behaves` of `gr_audit_theorems`.
#![tactic(auto)]

mod brokers;
mod telling;

pub use brokers::Brokers;
