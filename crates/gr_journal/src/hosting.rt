//! Whether each broker of a topology is in one process and in no other, and the brokers of one in order.

ghost use Rattle.std.specs.Prelude.{◌≡◌, length, if◌then◌else◌, IfOk, Some, None};
ghost use Rattle.std.specs.List.{list_all};
ghost use Rattle.gr_tree.specs.Walks.{numbers};
ghost use Rattle.gr_journal.specs.Lines.{is_among, rising};
ghost use Rattle.gr_journal.specs.Hosting.{with_brokers, unhosted};

use crate::form::is_among;
use crate::journal::Journal;
use gr_event::Numbers;
use gr_topo::Topology;
use std::alloc::{AllocError, Global};

/// The line that says that the processes are not those of a topology: the first process line that names a broker twice
/// or one that stands in a line before it; else 0 where some broker is in no process. None where all is well.
pub fn unhosted(
    alloc: Global,
    topo: &Topology,
    journals: &[Journal],
) -> Result<Option<u32>, AllocError>
    ensures { IfOk result (λ line. line ≡ unhosted topo.now journals.now) }
{
    let mut named = Numbers::new(alloc);
    'journals: for journal in journals {
        let fine = put_brokers(&mut named, journal.brokers.as_slice())?;
        if !fine {
            return Ok(Some(journal.first));
        }
    }
    if are_all_among(topo, named.as_slice()) {
        return Ok(None);
    }
    Ok(Some(0))
}

/// Puts brokers behind those that are named already, and says whether none of them is one of these.
fn put_brokers(named: &mut Numbers, brokers: &[u16]) -> Result<bool, AllocError>
    ensures { IfOk result (λ fine. with_brokers named.old brokers.now ≡ if fine then Some named.new else None) }
{
    'brokers: for broker in brokers {
        if is_among(named.as_slice(), *broker) {
            return Ok(false);
        }
        named.push(*broker)?;
    }
    Ok(true)
}

/// Whether each broker of a topology is one of these.
fn are_all_among(topo: &Topology, named: &[u16]) -> bool
    ensures { result ≡ list_all (is_among named.now) (numbers (length topo.now.brokers)) }
{
    let all = topo.brokers();
    'brokers: for b in 0..all {
        if !is_among(named, b) {
            return false;
        }
    }
    true
}

/// Those of a topology's brokers that are among these, rising.
pub fn rising(alloc: Global, topo: &Topology, brokers: &[u16]) -> Result<Numbers, AllocError>
    ensures { IfOk result (λ found. found ≡ rising topo.now brokers.now) }
{
    let mut found = Numbers::new(alloc);
    let all = topo.brokers();
    'brokers: for b in 0..all {
        if is_among(brokers, b) {
            found.push(b)?;
        }
    }
    Ok(found)
}
