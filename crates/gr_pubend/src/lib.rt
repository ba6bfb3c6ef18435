//! The endpoint of a publisher: a log, and what is known by it.
#![tactic(auto)]

pub mod answers;
pub mod cutting;
pub mod law;
mod learning;
mod planning;
mod pubend;

pub use answers::{Joined, Published, Quieted};
pub use cutting::{Cutting, cut_log, plan_cut};
pub use learning::known_by;
pub use planning::{plan, plan_join, plan_quiet};
pub use pubend::Pubend;
