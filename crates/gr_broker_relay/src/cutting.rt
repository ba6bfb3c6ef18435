//! How far the log of a publisher that is here is to be cut.

ghost use Rattle.std.specs.Prelude.{◌≡◌, ◌<◌, ◌≤◌, length, IfSome};
ghost use Rattle.std.specs.Option.{ForSome, ForNone};
ghost use Rattle.gr_tick.specs.declared.TheConstants.{MAX_TICK};
ghost use Rattle.gr_pubend.specs.Log.{said};
ghost use Rattle.gr_model.specs.Net.{keeps_horizon};
ghost use Rattle.gr_model.specs.NetOf.{net_of};
ghost use Rattle.gr_model.specs.Broker.{horizon_if};
ghost use Rattle.gr_broker_relay.specs.Cuts.{tick_cut};
ghost use Rattle.gr_broker_relay.specs.Kept.{IsKept};
ghost use Rattle.gr_broker_relay.specs.Held.{held_view, IsSite};

use crate::held::Held;
use crate::site::Site;
use gr_publog::Log;
use gr_tick::MAX_TICK;

/// The horizon, where one is kept. Takes no memory.
fn horizon_of(site: &Site<'_>, held: &Held) -> Option<u64>
    requires site { IsSite site.now }
    requires kept { IsKept (net_of site.now.topo.now) site.now.publisher site.now.broker (held_view held.now) }
    ensures value { result ≡ horizon_if (keeps_horizon
        (net_of site.now.topo.now) site.now.publisher site.now.broker) held.now.horizon }
    ensures upto { ForSome result (λ h. h ≤ MAX_TICK) }
    ensures some { ForNone result (0 < length held.now.wants) }
{
    if site.position.keeps {
        return Some(held.horizon.horizon());
    }
    None
}

/// Up to which tick the log is to be cut: where more is consolidated than was cut. Takes no memory.
pub fn cut_due(site: &Site<'_>, held: &Held, log: &Log) -> Option<u64>
    requires site { IsSite site.now }
    requires kept { IsKept (net_of site.now.topo.now) site.now.publisher site.now.broker (held_view held.now) }
    ensures tick { result ≡ tick_cut (net_of site.now.topo.now) site.now.publisher site.now.broker
        (held_view held.now) (said log.now) }
    ensures past { IfSome result (λ tick. log.now.state.cut < tick) }
    ensures upto { IfSome result (λ tick. tick ≤ log.now.state.settled) }
{
    // Proof only: what the log holds is in order.
    let _ = log.is_broken();
    let upto = held
        .wants
        .consolidated_upto(horizon_of(site, held), log.settled());
    if log.cut() < upto {
        return Some(upto);
    }
    None
}
