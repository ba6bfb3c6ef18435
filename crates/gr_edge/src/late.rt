//! Late subscribers behind an edge: each wants events past its join alone.

ghost use Rattle.std.specs.Prelude.{◌≡◌, ℕ, ◌≤◌, ◌&&◌, nat_le, option_map};
ghost use Rattle.gr_event.specs.Joins.{joined_below};
ghost use Rattle.gr_filter.specs.Tree.{tree_of};
ghost use Rattle.gr_tick.specs.declared.TheConstants.{MAX_TICK};
ghost use Rattle.gr_edge.specs.Pass.{wants, wanted};
ghost use Rattle.gr_edge.specs.Lates.{wanting_of, wantings_of};

use gr_event::{Event, Joins};
use gr_filter::{Filter, Kleene, truth};
use gr_tick::MAX_TICK;

/// The tick that stands for none: it is past all others.
pub(crate) const NEVER: u64 = MAX_TICK + 1;

/// A late subscriber behind an edge.
#[derive(Drop)]
pub(crate) struct Late {
    /// Its number.
    pub(crate) subscriber: u16,
    /// Its filter; one without a filter wants every event past its join.
    pub(crate) filter: Option<Filter>,
}

/// The first tick at which one of these subscribers wants the event, or `NEVER`. Takes no memory.
pub(crate) fn first_wanted(lates: &[Late], event: &Event, joins: &Joins) -> u64
    ensures { (t : ℕ) → t ≤ MAX_TICK
        → wanted (wantings_of lates.now) joins.now t event.now ≡ nat_le result t }
{
    let mut first = NEVER;
    'lates: for late in lates {
        let tick = wanted_from(late, event, joins);
        if tick < first {
            first = tick;
        }
    }
    first
}

/// The first tick at which the subscriber wants the event: the one behind its join, or `NEVER`.
fn wanted_from(late: &Late, event: &Event, joins: &Joins) -> u64
    ensures { (t : ℕ) → t ≤ MAX_TICK
        → (wants (wanting_of late.now).filter event.now && joined_below joins.now late.now.subscriber t) ≡ nat_le result t }
{
    // Proof only: the ticks of joins are in range.
    let _ = joins.len();
    let Some(join) = joins.tick_of(late.subscriber) else {
        return NEVER;
    };
    if !passes(&late.filter, event) {
        return NEVER;
    }
    join + 1
}

/// Whether a filter passes an event; where there is none every event passes.
fn passes(filter: &Option<Filter>, event: &Event) -> bool
    ensures { result ≡ wants (option_map tree_of filter.now) event.now }
{
    match filter {
        None => true,
        Some(filter) => truth(filter, event) == Kleene::True,
    }
}
