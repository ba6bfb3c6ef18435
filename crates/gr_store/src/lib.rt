//! The bytes of all frames that were sent, one after another in one block of memory.
#![tactic(auto)]

mod store;

pub use store::FrameStore;
