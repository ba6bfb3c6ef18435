//! The text of a report's lines: `put` writes a line to a sink, and `put_behind` puts it behind what a page holds.
//!
//! What each line says is the definition `whole_line` in `gr_model/specs/Text.antt`.
#![tactic(auto)]

mod lines;
mod print;
mod words;

pub use print::{Memory, PutFault, put, put_behind};
