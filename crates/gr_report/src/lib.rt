//! What every run over a topology shares, whatever brings its steps: lines are put into a page that a sink takes, and
//! the steps of a topology are those that the theorems speak of.
#![tactic(auto)]

mod law;
mod putting;

pub use law::steps_fit_the_theorems;
pub use putting::{put_all, put_line};
