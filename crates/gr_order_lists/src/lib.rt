//! The one list over all publishers of each subscriber that gets one. It hears the lines of a run, step by step, and
//! says behind each step what is next. What that is stands in `specs/Orders.antt` of `gr_model`.
#![tactic(auto)]

mod list;
mod orders;

pub use orders::Orders;
