//! What a client offers to its host.

ghost use Rattle.std.specs.Prelude.{◌≡◌, ◌+◌, ◌<◌, ◌^◌, ◌++◌, [], ◌∷◌, OnOk};
ghost use Rattle.gr_out.specs.Entry.{offered as offered_entry};
ghost use Rattle.gr_note.specs.declared.node.TheConstants.{FIRST_CLIENT};
ghost use Rattle.gr_note.specs.Bytes.{note_bytes};
ghost use Rattle.gr_note.specs.Limits.{IsInRange};
ghost use Rattle.gr_note.specs.Nodes.{client_node};
ghost use Rattle.gr_client.specs.Moves.{OfferKeeps};
ghost use Rattle.gr_client.specs.Run.{offer_entries, told_offers};

use crate::client::Client;
use gr_note::{Note, client_node, encode};
use gr_out::{Post, PostFault, RunFault};
use std::alloc::Global;

/// Offers the bytes of a note. An offer that fails is a loss.
fn offer_note<P: Post>(
    alloc: Global,
    from: u16,
    to: u16,
    note: &Note,
    post: &mut P,
) -> Result<(), RunFault>
    requires { IsInRange note.now }
    ensures sent { P.tells → OnOk result (P.journal post.new
        ≡ P.journal post.old ++ offered_entry from to (note_bytes note.now) ∷ []) }
    ensures keeps { OfferKeeps P.tells (P.journal post.old) (P.journal post.new)
        (P.faults post.old) (P.faults post.new) result }
{
    let bytes = encode(alloc, note)?;
    match post.offer(from, to, bytes.as_slice()) {
        Ok(()) => Ok(()),
        Err(fault) => match fault {
            PostFault::Failed => Ok(()),
            PostFault::Memory => Err(RunFault::Memory),
        },
    }
}

/// Offers the event that a client submits next to its host, where it runs. An offer that fails is a loss.
pub(crate) fn offer<P: Post>(
    alloc: Global,
    client: &Client,
    host: u16,
    post: &mut P,
) -> Result<(), RunFault>
    requires { FIRST_CLIENT + client.now.publisher < 2 ^ 16 }
    ensures sent { P.tells → OnOk result (P.journal post.new
        ≡ P.journal post.old ++ offer_entries host client.now) }
    ensures keeps { OfferKeeps P.tells (P.journal post.old) (P.journal post.new)
        (P.faults post.old) (P.faults post.new) result }
{
    match client.offer()? {
        Some(note) => {
            let node = client_node(client.publisher());
            offer_note(alloc, node, host, &note, post)
        }
        None => Ok(()),
    }
}

/// Offers the event that a client submits next, where a number is told.
pub(crate) fn offer_told<P: Post>(
    alloc: Global,
    client: &Client,
    host: u16,
    told: Option<u64>,
    post: &mut P,
) -> Result<(), RunFault>
    requires { FIRST_CLIENT + client.now.publisher < 2 ^ 16 }
    ensures sent { P.tells → OnOk result (P.journal post.new
        ≡ P.journal post.old ++ told_offers host client.now told) }
    ensures keeps { OfferKeeps P.tells (P.journal post.old) (P.journal post.new)
        (P.faults post.old) (P.faults post.new) result }
{
    match told {
        Some(_) => offer(alloc, client, host, post),
        None => Ok(()),
    }
}
