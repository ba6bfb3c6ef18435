//! What is seen of a frame without reading it: its kind, its receiver and its publisher.

ghost use Rattle.std.specs.Prelude.{◌≡◌};
ghost use Rattle.gr_frame.specs.Limits.{IsFrame};
ghost use Rattle.gr_frame.specs.Peek.{peeked};
ghost use Rattle.gr_model.specs.World.{is_want, is_know_to};
ghost use Rattle.gr_world.specs.Seen.{frame_said};

use gr_frame::{Kind, Peek};

/// The broker that a frame is for. Takes no memory.
pub(crate) fn receiver(bytes: &[u8]) -> u16
    requires { IsFrame bytes.now (frame_said bytes.now) }
    ensures { result ≡ (frame_said bytes.now).head.to }
{
    peek(bytes).to
}

/// Whether a frame goes upwards. Takes no memory.
pub(crate) fn is_want(bytes: &[u8]) -> bool
    requires { IsFrame bytes.now (frame_said bytes.now) }
    ensures { result ≡ is_want (frame_said bytes.now) }
{
    matches!(peek(bytes).kind, Kind::Curiosity)
}

/// Whether a frame brings knowledge of a publisher to a broker. Takes no memory.
pub(crate) fn is_know_to(bytes: &[u8], p: u16, b: u16) -> bool
    requires { IsFrame bytes.now (frame_said bytes.now) }
    ensures { result ≡ is_know_to p b (frame_said bytes.now) }
{
    let seen = peek(bytes);
    match seen.kind {
        Kind::Knowledge => seen.publisher == p && seen.to == b,
        Kind::Curiosity | Kind::Expect => false,
    }
}

/// What is seen of a frame. Takes no memory.
fn peek(bytes: &[u8]) -> Peek
    requires { IsFrame bytes.now (frame_said bytes.now) }
    ensures { result ≡ peeked (frame_said bytes.now) }
{
    Peek::of(bytes)
}
