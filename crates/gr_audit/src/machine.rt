//! What an audit asks of the machine.

ghost use Rattle.std.specs.Prelude.{◌≡◌, ℕ, false, List, Ok};
ghost use Rattle.gr_topo.specs.Topology.{TopologyView};
ghost use Rattle.gr_journal.specs.Groups.{Behavior};
ghost use Rattle.gr_journal.specs.Lines.{rising};
ghost use Rattle.gr_audit.specs.Audited.{has_clients};
ghost use Rattle.gr_audit.specs.Coming.{AllComeTo};
ghost use Rattle.gr_audit.specs.Ran.{IsWhole, IsCut};

use crate::comparison::Comparison;
use crate::given::Given;
use gr_topo::Topology;
use std::alloc::{AllocError, Global};

/// How far a process ran.
#[derive(Clone, Copy, Debug, PartialEq, Eq)]
pub enum Ran {
    /// Over all that came.
    Whole,
    /// Up to a difference between what it told and its journal.
    Cut,
}

/// What runs the brokers of a process.
pub trait Machine {
    /// That it runs brokers of this topology.
    ghost fits: { Self → TopologyView → Type 0 };

    /// What a process of these brokers of a topology does, of which this came before, at an arrival.
    ghost behaves: { Self → TopologyView → Behavior };

    /// Runs a process of these brokers, started on empty logs, over what is still to come to them; has told what it
    /// tells, and noted what it offers. No publisher has a client.
    fn run(
        &self,
        alloc: Global,
        topo: &Topology,
        brokers: &[u16],
        given: &mut Given<'_>,
        told: &mut Comparison<'_>,
    ) -> Result<Ran, AllocError>
        requires fits { fits self.now topo.now }
        requires unheard { has_clients topo.now ≡ false }
        requires rising { (named : List ℕ) × (brokers.now ≡ rising topo.now named) }
        requires come { AllComeTo brokers.now given.old.left }
        ensures whole { result ≡ Ok Ran.Whole → IsWhole (behaves self.now topo.now) topo.now brokers.now
            given.old given.new told.old told.new }
        ensures cut { result ≡ Ok Ran.Cut → IsCut (behaves self.now topo.now) topo.now brokers.now
            given.old told.old told.new };
}
