//! What an endpoint answers.

use gr_know::K;
use gr_tick::Piece;

/// What a publish is answered.
#[derive(Drop)]
pub enum Published {
    /// It is logged at this tick. The tick is new, and so is the silence before it.
    Logged { tick: u64, fresh: Piece<K> },
    /// An event of this number was logged before.
    Already,
    /// The number is not the next one, which is `next`.
    Gap { next: u64 },
    /// No tick is left.
    Exhausted,
}

/// What a time of silence is answered.
#[derive(Drop)]
pub enum Quieted {
    /// It was not long enough.
    NotYet,
    /// A mark is logged at this tick. The silence up to it is new.
    Marked { tick: u64, fresh: Piece<K> },
}

/// What a join is answered.
#[derive(Drop)]
pub enum Joined {
    /// It is logged at this tick. The silence up to it is new.
    Logged { tick: u64, fresh: Piece<K> },
    /// The subscriber has joined before.
    Already,
    /// No tick is left.
    Exhausted,
}
