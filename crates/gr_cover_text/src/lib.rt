//! Which of the filters of a match text cover which others.
//!
//! `read` gives what the bytes of a source ask: they are a match text of at most 64 filters and no event, or are
//! refused with the line that says why. `print_covers` writes one line for each two of the filters.
#![tactic(auto)]

mod asked;
mod law;
mod printing;
mod reading;

pub use asked::Asked;
pub use law::limit_of_compared_filters;
pub use printing::print_covers;
pub use reading::read;
