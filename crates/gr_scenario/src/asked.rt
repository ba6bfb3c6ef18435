//! What the bytes of a source ask.

use gr_event::Text;
use gr_sched::Steps;
use gr_topo::Topology;

/// What the bytes of a source ask.
#[derive(Drop)]
pub enum Asked {
    /// They are more than a source may have.
    TooManyBytes,
    /// They have more counted lines behind the separator than a schedule may have.
    TooManySteps,
    /// They are no scenario; with the line that says why.
    Refused(Text),
    /// They are a scenario: its steps are to be carried out over its topology.
    Scenario { topology: Topology, steps: Steps },
}
