//! Which request of a schedule is next.

ghost use Rattle.std.specs.Prelude.{◌≡◌, ◌≢◌, ℕ, ◌≤◌, ◌<◌, true, false, [], length, drop};
ghost use Rattle.gr_scenario.specs.Steps.{AreStepsOf, IsStepOf};
ghost use Rattle.gr_model.specs.NetOf.{net_of};
ghost use Rattle.gr_model.specs.Arrivals.{quiet, is_hosted, is_scheduled, requests_in, requests_of, left_after};
ghost use Rattle.gr_node.specs.Turns.{IsFirst};

use crate::bindings::is_among;
use crate::node::Site;
use gr_sched::{Line, Step};

/// Whether a publisher is at a hosted broker.
fn is_hosted(site: &Site<'_>, p: u16) -> bool
    requires { p < length site.now.topo.now.publishers }
    ensures { result ≡ is_hosted (net_of site.now.topo.now) site.now.hosted.now p }
{
    is_among(site.hosted, site.topo.host(p))
}

/// Whether a schedule publishes for a publisher: it is at a hosted broker, and has no client.
fn is_scheduled(site: &Site<'_>, p: u16) -> bool
    requires { p < length site.now.topo.now.publishers }
    ensures { result ≡ is_scheduled (net_of site.now.topo.now) site.now.hosted.now p }
{
    match site.topo.client(p) {
        Some(_) => false,
        None => is_hosted(site, p),
    }
}

/// Whether a step is a request to be carried out here: a publish of a hosted publisher that has no client, or a join to
/// a hosted publisher.
fn is_request(site: &Site<'_>, line: &Line) -> bool
    requires step { IsStepOf site.now.topo.now line.now.step }
    ensures some { result ≡ true → requests_in (net_of site.now.topo.now) site.now.hosted.now line.now ≢ [] }
    ensures none { result ≡ false → requests_in (net_of site.now.topo.now) site.now.hosted.now line.now ≡ [] }
{
    match &line.step {
        Step::Publish { publisher, .. } => is_scheduled(site, *publisher),
        Step::Join { publisher, .. } => is_hosted(site, *publisher),
        _ => false,
    }
}

/// The place of the next request that is to be carried out here, from a place on; the end where there is none.
pub fn next_request(site: &Site<'_>, steps: &[Line], from: usize) -> usize
    requires steps { AreStepsOf site.now.topo.now steps.now }
    requires from { from ≤ length steps.now }
    ensures within { (from ≤ result) × (result ≤ length steps.now) }
    ensures first { IsFirst (net_of site.now.topo.now) site.now.hosted.now (drop result steps.now) }
    ensures same { requests_of (net_of site.now.topo.now) site.now.hosted.now (drop result steps.now)
        ≡ requests_of (net_of site.now.topo.now) site.now.hosted.now (drop from steps.now) }
{
    'steps: for at in from..steps.len() {
        if is_request(site, &steps[at]) {
            return at;
        }
    }
    steps.len()
}

/// The place of the request that is next once a quiet moment has taken the one at a place, where there is one.
pub fn next_after(site: &Site<'_>, steps: &[Line], next: usize) -> usize
    requires steps { AreStepsOf site.now.topo.now steps.now }
    requires within { next ≤ length steps.now }
    requires first { IsFirst (net_of site.now.topo.now) site.now.hosted.now (drop next steps.now) }
    ensures within { result ≤ length steps.now }
    ensures first { IsFirst (net_of site.now.topo.now) site.now.hosted.now (drop result steps.now) }
    ensures left { (moment : ℕ) → requests_of (net_of site.now.topo.now) site.now.hosted.now (drop result steps.now)
        ≡ left_after (requests_of (net_of site.now.topo.now) site.now.hosted.now (drop next steps.now))
        (quiet moment) }
{
    if next >= steps.len() {
        return next;
    }
    next_request(site, steps, next + 1)
}
