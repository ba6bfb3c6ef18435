//! Schedules: the steps that a user states, and the lines that they stand in.
//!
//! A scenario is a topology part and a step part with a separator between them (`split`). The step part is lines:
//! `count` says how many of them are counted, and `parse` reads each as a step, or answers the first fault.
#![tactic(auto)]

pub mod fault;
mod law;
mod plain;
pub mod schedule;
pub mod step;
pub mod text;
mod verb;
mod words;

pub use fault::StepFault;
pub use law::{limits_of_schedules, printed_steps_read_back};
pub use schedule::parse;
pub use step::{Line, MAX_INPUT_BYTES, MAX_NUMBER, MAX_STEPS, Names, Step, Steps, Stop};
pub use text::{Counted, count, is_blank, line_count, next_counted, split};
pub use words::{after_word, first_word, is_number_in, trimmed, value};
