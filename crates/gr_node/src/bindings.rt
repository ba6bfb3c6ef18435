//! The address of each node that a run may speak to is named to the post.

ghost use Rattle.std.specs.Prelude.{◌≡◌, ◌<◌, [], ◌∷◌, length, Some, flat_map, IfErr};
ghost use Rattle.gr_out.specs.Journal.{is_among};
ghost use Rattle.gr_note.specs.declared.node.TheConstants.{FIRST_CLIENT};
ghost use Rattle.gr_note.specs.Nodes.{client_node};
ghost use Rattle.gr_model.specs.Net.{numbers};
ghost use Rattle.gr_node.specs.Of.{AreAddressed};
ghost use Rattle.gr_node.specs.Plan.{client_nodes, nodes, address_at};
ghost use Rattle.gr_node.specs.Went.{IsPostFault, PostMoves, Bound};

use crate::node::Site;
use gr_note::client_node;
use gr_out::{Post, PostFault, RunFault};
use gr_topo::Topology;

/// Whether a broker is among those that are to be hosted.
pub fn is_among(hosted: &[u16], b: u16) -> bool
    ensures { result ≡ is_among hosted.now b }
{
    hosted.contains(&b)
}

/// A failure of the post as one of the run.
pub(crate) fn post_fault(fault: PostFault) -> RunFault
    ensures cause { IsPostFault result }
    ensures failed { fault ≡ PostFault.Failed → result ≡ RunFault.Post }
    ensures memory { fault ≡ PostFault.Memory → result ≡ RunFault.Memory }
{
    match fault {
        PostFault::Failed => RunFault::Post,
        PostFault::Memory => RunFault::Memory,
    }
}

/// The node of the client of a publisher.
pub(crate) fn node_of_client(topo: &Topology, p: u16) -> u16
    requires { p < length topo.now.publishers }
    ensures { result ≡ client_node p }
{
    // Proof only: publishers are few, so that the node is a number.
    let _ = topo.publishers();
    client_node(p)
}

/// Names the address of a node, and whether it is hosted here.
fn bind_node<P: Post>(
    site: &Site<'_>,
    node: u16,
    address: &[u8],
    post: &mut P,
) -> Result<(), RunFault>
    requires { address_at site.now.topo.now node ≡ Some address.now }
    ensures cause { IfErr result IsPostFault }
    ensures moves { PostMoves (P.faults post.old) (P.faults post.new) result }
    ensures bound { Bound site.now.topo.now site.now.hosted.now P.tells (node ∷ [])
        (P.journal post.old) (P.journal post.new) result }
{
    match post.bind(node, address, is_among(site.hosted, node)) {
        Ok(()) => Ok(()),
        Err(fault) => Err(post_fault(fault)),
    }
}

/// Names the address of a broker.
fn bind_broker<P: Post>(site: &Site<'_>, b: u16, post: &mut P) -> Result<(), RunFault>
    requires addressed { AreAddressed site.now.topo.now }
    requires broker { b < length site.now.topo.now.brokers }
    requires few { b < FIRST_CLIENT }
    ensures cause { IfErr result IsPostFault }
    ensures moves { PostMoves (P.faults post.old) (P.faults post.new) result }
    ensures bound { Bound site.now.topo.now site.now.hosted.now P.tells (b ∷ [])
        (P.journal post.old) (P.journal post.new) result }
{
    let Some(address) = site.topo.address(b) else {
        unreachable!();
    };
    bind_node(site, b, address.as_slice(), post)
}

/// Names the address of the client of a publisher, where it has one and is at a hosted broker.
fn bind_client<P: Post>(site: &Site<'_>, p: u16, post: &mut P) -> Result<(), RunFault>
    requires { p < length site.now.topo.now.publishers }
    ensures cause { IfErr result IsPostFault }
    ensures moves { PostMoves (P.faults post.old) (P.faults post.new) result }
    ensures bound { Bound site.now.topo.now site.now.hosted.now P.tells
        (client_nodes site.now.topo.now site.now.hosted.now p) (P.journal post.old) (P.journal post.new) result }
{
    match site.topo.client(p) {
        Some(address) => {
            if !is_among(site.hosted, site.topo.host(p)) {
                return Ok(());
            }
            let node = node_of_client(site.topo, p);
            bind_node(site, node, address.as_slice(), post)
        }
        None => Ok(()),
    }
}

/// Names the address of each broker, in order.
fn bind_brokers<P: Post>(site: &Site<'_>, post: &mut P) -> Result<(), RunFault>
    requires addressed { AreAddressed site.now.topo.now }
    ensures cause { IfErr result IsPostFault }
    ensures moves { PostMoves (P.faults post.old) (P.faults post.new) result }
    ensures bound { Bound site.now.topo.now site.now.hosted.now P.tells
        (numbers (length site.now.topo.now.brokers)) (P.journal post.old) (P.journal post.new) result }
{
    'brokers: for b in 0..site.topo.brokers() {
        match bind_broker(site, b, post) {
            Ok(()) => {}
            Err(fault) => return Err(fault),
        }
    }
    Ok(())
}

/// Names the address of each client of a publisher at a hosted broker, in order.
fn bind_clients<P: Post>(site: &Site<'_>, post: &mut P) -> Result<(), RunFault>
    ensures cause { IfErr result IsPostFault }
    ensures moves { PostMoves (P.faults post.old) (P.faults post.new) result }
    ensures bound { Bound site.now.topo.now site.now.hosted.now P.tells
        (flat_map (client_nodes site.now.topo.now site.now.hosted.now)
        (numbers (length site.now.topo.now.publishers))) (P.journal post.old) (P.journal post.new) result }
{
    'publishers: for p in 0..site.topo.publishers() {
        match bind_client(site, p, post) {
            Ok(()) => {}
            Err(fault) => return Err(fault),
        }
    }
    Ok(())
}

/// Names the address of each broker, in order, and whether it is hosted here, and then those of the clients of the
/// publishers at hosted brokers.
///
/// `Post` only where a binding failed, and `Memory` where memory is refused; those before are bound then.
pub fn bind_all<P: Post>(site: &Site<'_>, post: &mut P) -> Result<(), RunFault>
    requires addressed { AreAddressed site.now.topo.now }
    ensures cause { IfErr result IsPostFault }
    ensures moves { PostMoves (P.faults post.old) (P.faults post.new) result }
    ensures bound { Bound site.now.topo.now site.now.hosted.now P.tells
        (nodes site.now.topo.now site.now.hosted.now) (P.journal post.old) (P.journal post.new) result }
{
    match bind_brokers(site, post) {
        Ok(()) => bind_clients(site, post),
        Err(fault) => Err(fault),
    }
}
