//! The outside, as the product sees it: where bytes come from and where they go, and their forms in memory.
//!
//! A call on the outside answers `Failed` only where one of the object's counts rose in that call, and any other answer
//! leaves each count as it was. The forms in memory say exactly which of their calls fail.
#![tactic(auto)]

mod disk;
mod fault;
mod history;
mod journal;
pub mod law;
mod mem_disk;
mod mem_lane;
mod mem_post;
mod mem_stream;
mod page;
mod post;
mod sink;
mod source;
mod transfer;

pub use disk::{Disk, Fate, SimDisk, Stop};
pub use fault::{Failed, Memory, RunFault};
pub use mem_disk::MemDisk;
pub use mem_post::MemPost;
pub use mem_stream::{MemSink, MemSource};
pub use page::{PAGE_BYTES, Page};
pub use post::{Arrival, Post, PostFault};
pub use sink::Sink;
pub use source::Source;
pub use transfer::{ReadFault, read_all, write_all};
