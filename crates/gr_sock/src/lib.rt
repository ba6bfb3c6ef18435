//! The outside as a system has it: readers and writers, files and sockets.
//!
//! To the traits of the outside none of these tells what it holds. Beside that each call says what it does with what
//! stands below it, wherever that tells: a reader, a writer, a folder, a network. So no byte is lost, doubled or made
//! up between these and the trait. What only the system knows is left to `LogFolder` and `UdpNetwork`, each call of
//! which is a few calls of the system. Each adapter counts its failures exactly. A disk and a post keep what the system
//! said at the last one.
//!
//! Of a runtime `rt` they are made so: `StdSource::new(rt.stdin())`, `StdSink::new(rt.stdout())`,
//! `FileDisk::new(alloc, LogFolder::new(alloc, &rt))`, `UdpPost::new(alloc, UdpNetwork::new(alloc, &rt), &rt)`, whose
//! last argument is the clock of its moments. None of these calls can fail, opens a file or opens a socket.
#![tactic(auto)]

mod address;
mod bound;
mod count;
mod digest;
mod file_disk;
mod folder;
mod log_folder;
mod network;
mod std_sink;
mod std_source;
mod trouble;
mod udp_network;
mod udp_post;

pub use address::Address;
pub use bound::Bound;
pub use file_disk::FileDisk;
pub use folder::Folder;
pub use log_folder::LogFolder;
pub use network::Network;
pub use std_sink::StdSink;
pub use std_source::StdSource;
pub use trouble::{LaneError, PostError};
pub use udp_network::UdpNetwork;
pub use udp_post::UdpPost;
