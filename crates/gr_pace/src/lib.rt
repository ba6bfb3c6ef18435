//! A post that learns from its caller whether more is to be done.
//!
//! `serve` says at each turn whether it has a publish line left, so that it need not wait for the next quiet moment as
//! long as one that has nothing to do. Of how long a wait is no clause of a post speaks; `UdpPost` of `gr_sock` says it.
#![tactic(auto)]

ghost use Rattle.std.specs.Prelude.{◌≡◌};

use gr_out::{MemPost, Post};

/// A post whose quiet moments come sooner where there is more to do.
pub trait Paced: Post {
    /// Says whether the caller has more to do at the next quiet moment, whatever comes until then. It holds until it is
    /// said again. Nothing stands in the journal, and no count changes.
    fn pace(&mut self, has_more: bool)
        ensures journal { Self.journal self.new ≡ Self.journal self.old }
        ensures faults { Self.faults self.new ≡ Self.faults self.old }
        ensures lost { Self.lost self.new ≡ Self.lost self.old };
}

/// What comes at a post in memory stands in its script, so nothing changes.
impl Paced for MemPost {
    fn pace(&mut self, has_more: bool)
        ensures same { self.new ≡ self.old }
    {
        let _ = has_more;
    }
}
