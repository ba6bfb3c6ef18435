//! Frames: what brokers send to each other.
//!
//! `specs/Bytes.antt` defines the bytes of a frame, `specs/Decode.antt` how bytes are read field by field, with the
//! first fault and its place, and `specs/Cut.antt` how a long frame is cut into several.
#![tactic(auto)]

pub mod fault;
mod field;
mod frames;
mod laws;
mod list;
mod part;
mod peek;
mod reading;
mod value;
mod writing;

pub use fault::{FrameFault, FrameKind};
pub use frames::Frames;
use gr_curio::Q3;
use gr_event::Joins;
use gr_know::K;
use gr_tick::Piece;
pub use laws::{
    bytes_spell_one_frame, cut_loses_nothing, decodes_what_is_spelled, limit_of_frames,
    no_joins_no_list, one_frame_is_not_cut, spells_no_prefix,
};
pub use part::parts;
pub use peek::{Kind, Peek};
pub use reading::decode;
pub use writing::{encode, encode_into};

/// How many bytes a frame has at most.
pub const MAX_FRAME_BYTES: usize = 16_384;

/// How many bytes stand before the body of a frame, and before its list of joins, if it has one.
pub(crate) const HEAD_BYTES: usize = 12;

/// How many bytes a frame with an Expect has.
pub(crate) const EXPECT_BYTES: usize = 20;

/// Who sends a frame to whom, and of which publisher it speaks, each by number.
#[derive(Clone, Copy, Debug, PartialEq, Eq)]
pub struct Head {
    /// The broker that sends.
    pub from: u16,
    /// The broker that is to get it.
    pub to: u16,
    /// The publisher.
    pub publisher: u16,
}

/// What a frame carries.
#[derive(Drop)]
pub enum Body {
    /// What is known, downwards.
    Knowledge {
        /// The runs.
        piece: Piece<K>,
        /// The joins of late subscribers to the publisher that the sender holds, in each frame of the piece.
        joins: Joins,
    },
    /// What is asked for or acknowledged, upwards.
    Curiosity(Piece<Q3>),
    /// The tick up to which all is to be asked for, from 1 to 2^62, downwards.
    Expect(u64),
}

/// A frame from one broker to a neighbour.
#[derive(Drop)]
pub struct Frame {
    /// Who sends it to whom, and of which publisher.
    pub head: Head,
    /// What it carries.
    pub body: Body,
}
