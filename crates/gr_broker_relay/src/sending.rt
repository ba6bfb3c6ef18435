//! Pieces are sent to the neighbours in a publisher's tree.

ghost use Rattle.std.specs.Prelude.{◌≡◌, [], OnOk};
ghost use Rattle.gr_model.specs.NetOf.{net_of};
ghost use Rattle.gr_model.specs.Broker.{know_frames, want_frames, up_frames};
ghost use Rattle.gr_broker_relay.specs.Held.{IsSite};
ghost use Rattle.gr_broker_relay.specs.Told.{AddsFrames};

use crate::outcome::Memory;
use crate::site::Site;
use gr_curio::Q3;
use gr_event::Joins;
use gr_frame::{Body, Frame, Head};
use gr_know::K;
use gr_outbox::Outbox;
use gr_tick::Piece;

/// Puts the frames of a piece for a child at the end of a list, each with these joins. A piece with no run makes no
/// frame.
pub(crate) fn send_down(
    site: &Site<'_>,
    joins: &Joins,
    child: u16,
    piece: Piece<K>,
    into: &mut Outbox,
) -> Result<(), Memory>
    ensures { OnOk result (AddsFrames
        (know_frames joins.now site.now.broker child site.now.publisher piece) into.old into.new) }
{
    if piece.is_empty() {
        drop(piece);
        return Ok(());
    }
    let frame = Frame {
        head: Head {
            from: site.broker,
            to: child,
            publisher: site.publisher,
        },
        body: Body::Knowledge {
            piece,
            joins: joins.share(),
        },
    };
    into.push(site.alloc, frame)
}

/// Puts the frames of a piece for the next broker towards the host at the end of a list. The host sends none, and a
/// piece with no run makes none.
pub(crate) fn send_up(site: &Site<'_>, piece: Piece<Q3>, into: &mut Outbox) -> Result<(), Memory>
    requires { IsSite site.now }
    ensures { OnOk result (AddsFrames
        (up_frames (net_of site.now.topo.now) site.now.publisher site.now.broker piece) into.old into.new) }
{
    match site.position.up {
        None => {
            drop(piece);
            Ok(())
        }
        Some(up) => send_wanted(site, up, piece, into),
    }
}

/// Puts the frames of a piece for a broker at the end of a list. A piece with no run makes no frame.
fn send_wanted(site: &Site<'_>, to: u16, piece: Piece<Q3>, into: &mut Outbox) -> Result<(), Memory>
    ensures { OnOk result (AddsFrames (want_frames site.now.broker to site.now.publisher piece) into.old into.new) }
{
    if piece.is_empty() {
        drop(piece);
        return Ok(());
    }
    let frame = Frame {
        head: Head {
            from: site.broker,
            to,
            publisher: site.publisher,
        },
        body: Body::Curiosity(piece),
    };
    into.push(site.alloc, frame)
}
