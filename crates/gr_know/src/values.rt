//! The knowledge values: unknown, silence, an event, final.

ghost use Rattle.gr_know.specs.Values.{join_K};
ghost use Rattle.gr_know.specs.Order.{is_at_most};
ghost use Rattle.gr_know.specs.OrderLaws.{knowledge_laws};
ghost use Rattle.gr_know.specs.declared.values.K.TheVariants.{Q};

use gr_event::Event;
use gr_tick::Lattice;

/// What is known of a tick of one publisher. Unknown is below all, final is above all, and no two others are related:
/// silence and an event, or two events, join to final.
#[derive(Drop)]
pub enum K {
    /// Unknown.
    Q,
    /// Silence: nothing was published.
    S,
    /// This event was published.
    D(Event),
    /// Final: nobody below needs to know more.
    F,
}

impl Lattice for K {
    ghost least = { Q };

    ghost join_of = { join_K };

    ghost is_at_most = { is_at_most };

    ghost laws = { knowledge_laws };

    fn bottom() -> K {
        K::Q
    }

    fn join(self, other: K) -> K {
        match self {
            K::Q => other,
            K::S => match other {
                K::Q | K::S => K::S,
                K::D(_) | K::F => K::F,
            },
            K::D(event) => match other {
                K::Q => K::D(event),
                K::D(second) => {
                    if event.same(&second) {
                        K::D(event)
                    } else {
                        K::F
                    }
                }
                K::S | K::F => K::F,
            },
            K::F => K::F,
        }
    }

    fn at_most(&self, other: &K) -> bool {
        match self {
            K::Q => true,
            K::S => matches!(other, K::S | K::F),
            K::D(event) => match other {
                K::D(second) => event.same(second),
                K::F => true,
                K::Q | K::S => false,
            },
            K::F => matches!(other, K::F),
        }
    }

    fn same(&self, other: &K) -> bool {
        match self {
            K::Q => matches!(other, K::Q),
            K::S => matches!(other, K::S),
            K::D(event) => match other {
                K::D(second) => event.same(second),
                K::Q | K::S | K::F => false,
            },
            K::F => matches!(other, K::F),
        }
    }

    fn share(&self) -> K {
        match self {
            K::Q => K::Q,
            K::S => K::S,
            K::D(event) => K::D(event.share()),
            K::F => K::F,
        }
    }
}
