//! The audit of the journals of several processes.
//!
//! `audit` says whether journals are one honest run of brokers that behave as a `Machine` says: exactly what `audited`
//! of `specs/Audited.antt` says of their bytes. `Comparison` compares what a process tells with its journal, and
//! `Links` notes the groups of journals, and says which arrival stays where every group that can go has gone, in the
//! joint order (`stays` in `specs/Joint.antt`). `read_scenario` reads what stands before journals.
#![tactic(auto)]

mod asked;
mod auditing;
mod comparison;
mod given;
mod joint;
mod keys;
mod law;
mod links;
mod machine;
mod mark;
mod verdict;

pub use asked::read_scenario;
pub use auditing::{audit, has_clients};
pub use comparison::Comparison;
pub use given::Given;
pub use gr_journal::AuditFault;
pub use law::{stuck_is_exact, wrong_is_exact};
pub use links::Links;
pub use machine::{Machine, Ran};
pub use verdict::{Verdict, Why};
