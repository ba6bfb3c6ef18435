//! Filters: what subscribers ask for, as a small language over the names and values of an event.
//!
//! `specs/Productions.antt` has the grammar as one reads it, `specs/Grammar.antt` the tree or the first fault of a
//! text, and `specs/Truth.antt` the truth of a tree for an event. `specs/Print.antt` defines the printed form.
#![tactic(auto)]

pub mod evaluate;
pub mod fault;
pub mod filter;
pub mod kleene;
pub mod laws;
pub mod like;
pub mod node;
pub mod parser;
pub mod print;
pub mod token;

pub use evaluate::truth;
pub use fault::{FilterFault, Memory};
pub use filter::Filter;
pub use kleene::Kleene;
pub use node::{Node, Operand, Operands, Sign};
pub use parser::{LEVELS, MAX_FILTER_BYTES, parse};
pub use print::text;
