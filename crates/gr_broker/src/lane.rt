//! Which lanes of a disk are whose.

ghost use Rattle.std.specs.Prelude.{◌≡◌, ◌<◌};
ghost use Rattle.gr_broker.specs.Lanes.{log_lane};

/// The first of the two lanes of a publisher's log; the second one is the next.
pub fn log_lane(publisher: u16) -> u16
    requires { publisher < 32768 }
    ensures { result ≡ log_lane publisher }
{
    2 * publisher
}
