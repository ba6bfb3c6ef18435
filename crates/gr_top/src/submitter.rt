//! Which publisher of a topology has its client submit.

ghost use Rattle.std.specs.Prelude.{◌≡◌, ◌<◌, length, IfOk, IfSome, IsSome};
ghost use Rattle.gr_topo.specs.Topology.{client_of};
ghost use Rattle.gr_top.specs.Submitter.{client_named, no_client_line, submitter_of, IsAble};

use crate::hosting::{unaddressed_in, unaddressed_line};
use gr_event::Text;
use gr_scenario::push_shown;
use gr_sched::Names;
use gr_topo::Topology;
use std::alloc::{AllocError, Global};

/// What the word that names a publisher comes to.
#[derive(Drop)]
pub enum Submitter {
    /// No client can submit; with the line that says why.
    Refused(Text),
    /// The client of the publisher of this number is to submit.
    Client(u16),
}

/// Finds the publisher with a client that a word names, or that there is none, or the first broker of the topology that
/// has no address.
pub(crate) fn submitter_in(
    alloc: Global,
    topo: &Topology,
    word: &str,
) -> Result<Submitter, AllocError>
    ensures submitter { IfOk result (λ s. s ≡ submitter_of topo.now word.now) }
    ensures able { IfOk result (IsAble topo.now) }
{
    let Some(publisher) = client_in(topo, word) else {
        return Ok(Submitter::Refused(no_client_line(alloc, word)?));
    };
    if let Some(b) = unaddressed_in(topo) {
        return Ok(Submitter::Refused(unaddressed_line(alloc, topo, b)?));
    }
    // Proof only: its host is a broker of the topology.
    let _ = topo.host(publisher);
    Ok(Submitter::Client(publisher))
}

/// The publisher of a name, where there is one and it has a client.
fn client_in(topo: &Topology, word: &str) -> Option<u16>
    ensures named { result ≡ client_named topo.now word.now }
    ensures publisher { IfSome result (λ p. p < length topo.now.publishers) }
    ensures client { IfSome result (λ p. IsSome (client_of topo.now p)) }
{
    match topo.publisher(word.as_bytes()) {
        Some(publisher) => {
            if topo.client(publisher).is_none() {
                return None;
            }
            Some(publisher)
        }
        None => None,
    }
}

/// The line of a word that names no publisher with a client.
fn no_client_line(alloc: Global, word: &str) -> Result<Text, AllocError>
    ensures { IfOk result (λ line. line ≡ no_client_line word.now) }
{
    let mut line = Text::from_slice(alloc, b"publish no-client")?;
    push_shown(&mut line, word.as_bytes())?;
    Ok(line)
}
