//! What a publisher's process and the host of its log tell each other: notes, their bytes, and the one spelling of
//! each.
#![tactic(auto)]

mod fault;
mod field;
mod laws;
mod node;
mod note;
mod reading;
mod writing;

pub use fault::{NoteFault, NoteKind};
pub use laws::{constants_of_notes, decodes_its_spelling, spelled_decodes, spells_no_prefix};
pub use node::{FIRST_CLIENT, client_node};
pub use note::Note;
pub use reading::{begins_note, decode};
pub use writing::encode;

/// The greatest number that an event may have: 2^62.
pub const MAX_NUMBER: u64 = 1 << 62;

/// The version of the notes.
pub const VERSION: u8 = 1;

/// The kind of a Submit.
pub const SUBMIT: u8 = 1;

/// The kind of a Next.
pub const NEXT: u8 = 2;

/// The kind of a Spent.
pub const SPENT: u8 = 3;
