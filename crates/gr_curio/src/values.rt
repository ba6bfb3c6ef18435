//! The curiosity values: not asked, asked, acknowledged.

ghost use Rattle.std.specs.Prelude.{◌≡◌};
ghost use Rattle.gr_curio.specs.Values.{is_A, is_C};
ghost use Rattle.gr_curio.specs.Order.{is_at_most, greater_of};
ghost use Rattle.gr_curio.specs.OrderLaws.{curiosity_laws};
ghost use Rattle.gr_curio.specs.declared.values.Q3.TheVariants.{N};

use gr_tick::Lattice;

/// What a neighbour wants to know of a tick of one publisher. Nothing asked is below asked, and that is below
/// acknowledged; the join is the greater one.
#[derive(Clone, Copy, Debug, PartialEq, Eq)]
pub enum Q3 {
    /// Nothing is asked.
    N,
    /// The tick is asked.
    C,
    /// The tick is acknowledged: it was heard, and is not asked again.
    A,
}

impl Lattice for Q3 {
    ghost least = { N };

    ghost join_of = { greater_of };

    ghost is_at_most = { is_at_most };

    ghost laws = { curiosity_laws };

    fn bottom() -> Q3 {
        Q3::N
    }

    fn join(self, other: Q3) -> Q3 {
        match self {
            Q3::N => other,
            Q3::C => match other {
                Q3::N | Q3::C => Q3::C,
                Q3::A => Q3::A,
            },
            Q3::A => Q3::A,
        }
    }

    fn at_most(&self, other: &Q3) -> bool {
        match self {
            Q3::N => true,
            Q3::C => match other {
                Q3::N => false,
                Q3::C | Q3::A => true,
            },
            Q3::A => match other {
                Q3::N | Q3::C => false,
                Q3::A => true,
            },
        }
    }

    fn same(&self, other: &Q3) -> bool {
        *self == *other
    }

    fn share(&self) -> Q3 {
        *self
    }
}

/// Whether a value is that of a tick that is asked for.
pub(crate) fn is_asked(value: Q3) -> bool
    ensures { result ≡ is_C value }
{
    matches!(value, Q3::C)
}

/// Whether a value is that of a tick that is acknowledged.
pub(crate) fn is_acknowledged(value: Q3) -> bool
    ensures { result ≡ is_A value }
{
    matches!(value, Q3::A)
}
