//! What the system said when a call failed.

ghost use Rattle.std.specs.Prelude.{◌≡◌, None};

use crate::address::Address;
use crate::log_folder::FOLDER;
use std::fmt::{Display, Formatter};
use std::{fmt, io};

/// What the system said when a call on the file of a lane failed.
#[derive(Clone, Copy)]
pub struct LaneError {
    /// The lane.
    pub lane: u16,
    /// What the system said.
    pub error: io::Error,
}

/// What the system said when a call on a socket failed.
#[derive(Clone, Copy)]
pub struct PostError {
    /// The address that was bound, at which a datagram was taken, or to which one was to go; none where the call was
    /// not about one address, or its text is none.
    pub address: Option<Address>,
    /// What the system said.
    pub error: io::Error,
}

impl From<io::Error> for PostError {
    ghost from_gives = { λ error said. said ≡ record { address = None; error = error } };

    fn from(error: io::Error) -> PostError {
        PostError {
            address: None,
            error,
        }
    }
}

/// The path of the lane's file, as `LogFolder` has it, and what the system said.
impl Display for LaneError {
    fn fmt<W: fmt::Write>(&self, f: &mut Formatter<W>) -> fmt::Result {
        write!(f, "{FOLDER}/lane-{}: {}", self.lane, self.error)
    }
}

/// The address, where there is one, and what the system said.
impl Display for PostError {
    fn fmt<W: fmt::Write>(&self, f: &mut Formatter<W>) -> fmt::Result {
        match self.address {
            Some(address) => write!(f, "{address}: {}", self.error),
            None => write!(f, "{}", self.error),
        }
    }
}
