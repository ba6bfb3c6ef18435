//! The limits of topologies. The function here does nothing: its contract says each number.

ghost use Rattle.std.specs.Prelude.{◌≡◌};
ghost use Rattle.gr_topo.specs.declared.limits.TheConstants.{MAX_BROKERS, MAX_PUBLISHERS, MAX_SUBSCRIBERS, MAX_LATE};
ghost use Rattle.gr_topo.specs.declared.limits.TheConstants.{MAX_NAME};
ghost use Rattle.gr_topo.specs.declared.settings.TheConstants.{MOST_TIME, MOST_CACHE, LEAST_RECLAIM, MOST_RECLAIM};
ghost use Rattle.gr_topo.specs.Topology.{default_values};

/// How many brokers a topology has at most.
pub const MAX_BROKERS: usize = 64;

/// How many publishers a topology has at most.
pub const MAX_PUBLISHERS: usize = 64;

/// How many subscribers a topology has at most.
pub const MAX_SUBSCRIBERS: usize = 1_024;

/// How many late subscribers a topology has at most.
pub const MAX_LATE: usize = 64;

/// How many bytes a name has at most.
pub const MAX_NAME: usize = 64;

/// What the limits of topologies and settings are, and what a setting is that is not written.
pub fn limits_of_topologies()
    ensures brokers { MAX_BROKERS ≡ 64 }
    ensures publishers { MAX_PUBLISHERS ≡ 64 }
    ensures subscribers { MAX_SUBSCRIBERS ≡ 1024 }
    ensures late { MAX_LATE ≡ 64 }
    ensures name { MAX_NAME ≡ 64 }
    ensures time { MOST_TIME ≡ 1000000000 }
    ensures cache { MOST_CACHE ≡ 1000000 }
    ensures reclaim { (LEAST_RECLAIM ≡ 64) × (MOST_RECLAIM ≡ 1000000000) }
    ensures defaults { default_values ≡ record {
      gap = 200;
      idle = 1000;
      retry = 500;
      quiet = 1000;
      cache = 1024;
      reclaim = 65536;
    } }
{}
