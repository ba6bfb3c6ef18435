//! The log of a publisher in two lanes of a disk, which takes back the room of what was cut. It keeps the events past
//! the cut and all joins of late subscribers.
//!
//! One of the two lanes is present: it begins with what was held when it was filled, and records follow. The other one
//! is filled anew, and takes its place once its gate is open. `specs/Text.antt` says what a lane spells, and
//! `specs/Lanes.antt` which of two is present and what they stand for. A record is written behind a closed gate and
//! synced before the gate is opened, and so is what a lane is filled with; `specs/Calls.antt` says what each call does
//! to the two lanes, to the counts of the disk and to the log.
#![tactic(auto)]

mod append;
mod entries;
mod fill;
mod footing;
mod head;
pub mod law;
pub mod log;
mod numbers;
mod opening;
mod read;
pub mod record;
mod steps;

pub use entries::Entries;
pub use head::{Present, Standing};
pub use log::Log;
pub use record::{Base, Entry, LogFault, Memory, Record};
pub use steps::Aside;
