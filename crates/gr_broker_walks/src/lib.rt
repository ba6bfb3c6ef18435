//! Walks over pieces of what is known and of what is wanted, run by run: what a child is sent, told and asked of them.
//!
//! Those that make a piece fail only where memory is refused; the other two only look.
#![tactic(auto)]

mod walks;
mod wanted;

pub use walks::{is_acknowledged, is_untouched, left_of, quenched, said_of, unacknowledged};
pub use wanted::{unknown_of, wanted_on, whole_of};
