//! Truth with a third value, for what an event does not say.

ghost use Rattle.std.specs.Prelude.{◌≡◌};
ghost use Rattle.gr_filter.specs.Kleene.{known, opposite, opposite_if, least, greatest};

/// Whether a filter holds of an event: false < unknown < true.
#[derive(Clone, Copy, Debug, PartialEq, Eq)]
pub enum Kleene {
    /// It does not hold.
    False,
    /// The event does not say what the filter asks.
    Unknown,
    /// It holds.
    True,
}

impl Kleene {
    /// What is known to be true or false.
    pub fn known(holds: bool) -> Kleene
        ensures { result ≡ known holds }
    {
        if holds { Kleene::True } else { Kleene::False }
    }

    /// False and true exchanged; unknown stays.
    pub fn opposite(self) -> Kleene
        ensures { result ≡ opposite self }
    {
        match self {
            Kleene::False => Kleene::True,
            Kleene::Unknown => Kleene::Unknown,
            Kleene::True => Kleene::False,
        }
    }

    /// The opposite, where NOT stands before.
    pub fn opposite_if(self, negated: bool) -> Kleene
        ensures { result ≡ opposite_if negated self }
    {
        if negated { self.opposite() } else { self }
    }

    /// The least of both, for AND.
    pub fn least(self, other: Kleene) -> Kleene
        ensures { result ≡ least self other }
    {
        match self {
            Kleene::False => Kleene::False,
            Kleene::Unknown => match other {
                Kleene::False => Kleene::False,
                Kleene::Unknown | Kleene::True => Kleene::Unknown,
            },
            Kleene::True => other,
        }
    }

    /// The greatest of both, for OR.
    pub fn greatest(self, other: Kleene) -> Kleene
        ensures { result ≡ greatest self other }
    {
        match self {
            Kleene::True => Kleene::True,
            Kleene::Unknown => match other {
                Kleene::True => Kleene::True,
                Kleene::Unknown | Kleene::False => Kleene::Unknown,
            },
            Kleene::False => other,
        }
    }
}
