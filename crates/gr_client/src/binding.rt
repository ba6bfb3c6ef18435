//! The two nodes of a client are named to the post.

ghost use Rattle.std.specs.Prelude.{◌≡◌, ℕ, ◌<◌, ◌≤◌, ◌+◌, ◌^◌, ◌++◌, take, length, IsSome, IfErr, OnOk, OnErr};
ghost use Rattle.gr_note.specs.declared.node.TheConstants.{FIRST_CLIENT};
ghost use Rattle.gr_client.specs.Moves.{PostMoves, fault_entries};
ghost use Rattle.gr_topo.specs.Topology.{client_of, host_of, address_of};
ghost use Rattle.gr_client.specs.Ran.{IsPostFault};
ghost use Rattle.gr_client.specs.Run.{bound_entries, nodes};

use gr_note::client_node;
use gr_out::{Post, PostFault, RunFault};
use gr_topo::Topology;

/// A failure of the post as one of the run.
pub(crate) fn post_fault(fault: PostFault) -> RunFault
    ensures cause { IsPostFault result }
    ensures failed { fault ≡ PostFault.Failed → result ≡ RunFault.Post }
    ensures memory { fault ≡ PostFault.Memory → result ≡ RunFault.Memory }
{
    match fault {
        PostFault::Failed => RunFault::Post,
        PostFault::Memory => RunFault::Memory,
    }
}

/// Binds a node to its address.
///
/// `Post` only where the binding failed, and `Memory` where memory is refused.
fn bind<P: Post>(node: u16, address: &[u8], here: bool, post: &mut P) -> Result<(), RunFault>
    ensures journal { P.tells → P.journal post.new ≡ P.journal post.old
        ++ bound_entries node address.now here result }
    ensures cause { IfErr result IsPostFault }
    ensures post { PostMoves (P.faults post.old) (P.faults post.new) result }
{
    match post.bind(node, address, here) {
        Ok(()) => Ok(()),
        Err(fault) => Err(post_fault(fault)),
    }
}

/// Binds the client of a publisher to its address, as here, and then the publisher's host to its own, as not here.
///
/// `Post` only where a binding failed, and `Memory` where memory is refused; those before are bound then.
pub(crate) fn bind_nodes<P: Post>(topo: &Topology, p: u16, post: &mut P) -> Result<(), RunFault>
    requires publisher { p < length topo.now.publishers }
    requires node { FIRST_CLIENT + p < 2 ^ 16 }
    requires client { IsSome (client_of topo.now p) }
    requires host { IsSome (address_of topo.now (host_of topo.now p)) }
    ensures cause { IfErr result IsPostFault }
    ensures moves { PostMoves (P.faults post.old) (P.faults post.new) result }
    // So many were bound, and then one failed
    ensures bound { (k : ℕ) × ((k ≤ 2) × (OnOk result (k ≡ 2) × (OnErr result (k < 2)
        × (P.tells → P.journal post.new ≡ P.journal post.old
        ++ (take k (nodes topo.now p) ++ fault_entries result))))) }
{
    let Some(own) = topo.client(p) else {
        unreachable!();
    };
    bind(client_node(p), own.as_slice(), true, post)?;
    let host = topo.host(p);
    let Some(address) = topo.address(host) else {
        unreachable!();
    };
    bind(host, address.as_slice(), false, post)
}
