//! What the values at ticks have in common: an order in which any two have a least upper bound, their join.
ghost use Rattle.std.specs.Prelude.{◌≡◌, ◌↔◌, Bool, IsTrue};
ghost use Rattle.gr_tick.specs.Laws.{LatticeLaws};

/// Values with a least one, in which any two have a least upper bound, as `laws` says. A tick has the least value where
/// nothing else was said of it. No call takes memory, and none can be refused.
pub trait Lattice: Drop {
    /// The least value.
    ghost least: { Self };

    /// The least upper bound of two values.
    ghost join_of: { Self → Self → Self };

    /// Whether the first value is at most the second.
    ghost is_at_most: { Self → Self → Bool };

    /// The least value.
    fn bottom() -> Self
        ensures { result ≡ least };

    /// The least upper bound of both: what is known, or asked, once both are.
    fn join(self, other: Self) -> Self
        ensures { result ≡ join_of self other };

    /// Whether this value is at most the other one.
    fn at_most(&self, other: &Self) -> bool
        ensures { result ≡ is_at_most self.now other.now };

    /// Whether the two values are equal.
    fn same(&self, other: &Self) -> bool
        ensures { IsTrue result ↔ (self.now ≡ other.now) };

    /// An equal value. It takes no memory.
    fn share(&self) -> Self
        ensures { result ≡ self.now };

    /// A partial order with a least value and least upper bounds.
    ghost laws: { LatticeLaws least join_of is_at_most };
}

/// Whether a value is the least one.
pub fn is_bottom<V: Lattice>(value: &V) -> bool
    ensures { IsTrue result ↔ (value.now ≡ V.least) }
{
    let bottom = V::bottom();
    value.same(&bottom)
}
