//! What was gathered is written, and what was offered is sent.

ghost use Rattle.std.specs.Prelude.{◌≡◌, ◌++◌, OnOk, OnErr, IsOkUnless};
ghost use Rattle.gr_node.specs.Went.{Begins};
ghost use Rattle.gr_trace.specs.Offered.{entries_of};
ghost use Rattle.gr_trace.specs.Traced.{outs_of};

use crate::offers::Offer;
use gr_event::Text;
use gr_journal::push_offer;
use gr_node::offer;
use gr_out::{Memory, Post, RunFault};
use gr_topo::Topology;

/// Puts the lines of offers at the end.
pub fn push_outs(topo: &Topology, offers: &[Offer], text: &mut Text) -> Result<(), Memory>
    ensures { OnOk result (text.new ≡ text.old ++ outs_of topo.now (entries_of offers.now)) }
{
    'offers: for offer in offers {
        push_offer(topo, offer.from, offer.to, offer.bytes.as_slice(), text)?;
    }
    Ok(())
}

/// Makes offers at a post, in order. One that fails is a loss.
pub(crate) fn offer_all<P: Post>(offers: &[Offer], post: &mut P) -> Result<(), RunFault>
    ensures sent { P.tells → OnOk result (P.journal post.new ≡ P.journal post.old ++ entries_of offers.now) }
    ensures front { P.tells → OnErr result
        (Begins (P.journal post.old) (P.journal post.new) (entries_of offers.now)) }
    ensures cause { IsOkUnless result RunFault.Memory }
    ensures post { P.faults post.new ≡ P.faults post.old }
{
    'offers: for waiting in offers {
        match offer(waiting.from, waiting.to, waiting.bytes.as_slice(), post) {
            Ok(()) => {}
            Err(fault) => return Err(fault),
        }
    }
    Ok(())
}
