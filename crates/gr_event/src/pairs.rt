//! A walk over the pairs of an event.

ghost use Rattle.std.specs.Prelude.{◌≡◌, ◌∷◌, [], MatchOption};
ghost use Rattle.gr_event.specs.Get.{part_value};

use crate::value::Part;
use crate::walk::front;
use std::marker::Model;

/// The pairs of an event that a walk has not come to yet, seen as their list.
#[derive(Drop)]
pub struct Pairs<'a> {
    /// How many pairs are left.
    pub(crate) count: u8,
    /// The bytes of these pairs, in the form of the event.
    pub(crate) rest: &'a [u8],
}

impl<'a> Model for Pairs<'a> {
    ghost use Rattle.std.specs.Prelude.{List, ℕ, ◌∷◌};
    ghost use Rattle.gr_event.specs.declared.value.Value.{Value as EventValue};

    ghost Value = { List (List ℕ × EventValue) };

    ghost use Rattle.gr_event.specs.Form.{AreOfEvent, event_of};

    ghost view = { λ p. event_of (p.count ∷ p.rest.now) };

    ghost invariant = { λ p. AreOfEvent (p.count ∷ p.rest.now) };
}

impl<'a> Pairs<'a> {
    /// Takes the name and the value of the first pair, if one is left. Takes no memory.
    pub fn next(&mut self) -> Option<(&'a [u8], Part<'a>)>
        ensures { MatchOption result (self.old ≡ []) (λ p. self.old ≡ (p.0.now, part_value p.1) ∷ self.new) }
    {
        if self.count == 0 {
            return None;
        }
        let (name, part, others) = front(self.rest);
        *self = Pairs {
            count: self.count - 1,
            rest: others,
        };
        Some((name, part))
    }
}
