//! Where datagrams come from and go to.

ghost use Rattle.std.specs.Prelude.{◌≡◌, ℕ, ◌++◌, List, length, IfOk};
ghost use Rattle.gr_out.specs.Entry.{Entry};
ghost use Rattle.gr_out.specs.Journal.{bind_entries, next_entries, offer_entries, hosted, Fits, CameAt, CountsFailed};

/// What comes next at the hosted brokers.
#[derive(Clone, Copy, Debug, PartialEq, Eq)]
pub enum Arrival {
    /// A datagram of `len` bytes at the broker `at`, at a moment in milliseconds.
    Datagram { at: u16, len: usize, moment: u64 },
    /// A quiet moment, in milliseconds: nothing is taken now. A datagram that came before it may still wait.
    Quiet { moment: u64 },
    /// Nothing comes any more.
    Closed,
}

/// Why a call on a post was not carried out.
#[derive(Clone, Copy, Debug, PartialEq, Eq)]
pub enum PostFault {
    /// The post failed. Its count of faults rose in that call, or at an offer its count of losses.
    Failed,
    /// Want of memory. The journal is as before, and no arrival was taken.
    Memory,
}

/// Where datagrams come from and go to.
///
/// A post that tells what came and went tells its journal: the bindings, the offers with their bytes, the datagrams
/// with the bytes that were written, the quiet moments, the failures and the end, in their order. Each call puts its
/// entry behind the others.
pub trait Post {
    /// That the post tells what came and went.
    ghost tells: { Type 0 };

    /// What came and went, the earliest first.
    ghost journal: { Self → List Entry };

    /// How many bindings and arrivals failed.
    ghost faults: { Self → ℕ };

    /// How many offers failed.
    ghost lost: { Self → ℕ };

    /// Names a broker's address, and says whether the broker is hosted here.
    fn bind(&mut self, broker: u16, address: &[u8], here: bool) -> Result<(), PostFault>
        ensures journal { tells → journal self.new ≡ journal self.old ++ bind_entries broker address.now here result }
        ensures cause { CountsFailed (faults self.old) (faults self.new) result }
        ensures lost { lost self.new ≡ lost self.old };

    /// What comes next. A datagram is written to the front of `into`, as much of it as there is room for; it came at a
    /// broker that is hosted here.
    fn next(&mut self, into: &mut [u8]) -> Result<Arrival, PostFault>
        ensures journal { tells → journal self.new ≡ journal self.old ++ next_entries into.new result }
        ensures fits { IfOk result (λ a. Fits (length into.old) a) }
        ensures hosted { tells → IfOk result (λ a. CameAt (hosted (journal self.old)) a) }
        ensures len { length into.new ≡ length into.old }
        ensures cause { CountsFailed (faults self.old) (faults self.new) result }
        ensures lost { lost self.new ≡ lost self.old };

    /// Offers bytes of one broker to another. An offer that fails stands in the journal all the same, and is a loss.
    fn offer(&mut self, from: u16, to: u16, bytes: &[u8]) -> Result<(), PostFault>
        ensures journal { tells → journal self.new ≡ journal self.old ++ offer_entries from to bytes.now result }
        ensures faults { faults self.new ≡ faults self.old }
        ensures cause { CountsFailed (lost self.old) (lost self.new) result };
}
