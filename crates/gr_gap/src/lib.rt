//! Memory in the two forms that the crates above need: a list that is edited anywhere, with room kept ready; and a
//! value with any number of owners. Only this crate has raw pointers.
//!
//! `specs/Contents.antt` says what a contract sees of a list, `specs/Ownership.antt` what an owner of a shared value
//! owns.
#![tactic(auto)]

mod blocks;
pub mod gap;
mod loose;
mod moves;
mod owner;
mod places;
pub mod ranked;
mod rest;
pub mod shared;
mod starts;

pub use gap::Gap;
pub use ranked::Ranked;
pub use shared::Shared;

/// What a call answers where memory is refused.
pub type Memory = std::alloc::AllocError;
