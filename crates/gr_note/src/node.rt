//! The nodes at which clients are.

ghost use Rattle.std.specs.Prelude.{◌≡◌, ◌<◌, ◌+◌, ◌^◌};
ghost use Rattle.gr_note.specs.Nodes.{client_node};

/// The node of the client of publisher 0; below are the brokers, at most so many.
pub const FIRST_CLIENT: u16 = 64;

/// The node of the client of a publisher.
pub fn client_node(p: u16) -> u16
    requires { FIRST_CLIENT + p < 2 ^ 16 }
    ensures { result ≡ client_node p }
{
    FIRST_CLIENT + p
}
