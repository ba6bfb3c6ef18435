//! Events on their way to subscribers.

ghost use Rattle.std.specs.Prelude.{◌≡◌, ◌++◌, ◌∷◌, [], length, OnOk, OnErr};
ghost use Rattle.gr_subend.specs.Deliveries.{listed, IsAlone};

use gr_event::{Event, Memory};
use std::alloc::Global;
use std::marker::Model;
use std::{mem, slice};

/// An event that is handed over, with its tick.
#[derive(Drop)]
pub struct Delivery {
    /// The tick, in milliseconds, from 1 to 2^62.
    pub tick: u64,
    /// The event of that tick.
    pub event: Event,
}

/// How many deliveries a list has room for when it gets its second one.
const FIRST_ROOM: usize = 2;

/// Where the deliveries of a list stand.
#[derive(Drop)]
enum Place {
    Empty,
    Alone(Delivery),
    Many(Vec<Delivery>),
}

/// A list of deliveries, seen as it is. One alone stands in the list itself, and takes no memory.
#[derive(Drop)]
pub struct Deliveries {
    alloc: Global,
    place: Place,
}

impl Model for Deliveries {
    ghost use Rattle.std.specs.Prelude.{List};
    ghost use Rattle.gr_subend.specs.declared.delivery.Delivery.{Delivery};
    ghost use Rattle.gr_subend.specs.Deliveries.{listed};

    ghost Value = { List Delivery };

    ghost view = { λ d. listed d.place };
}

impl Deliveries {
    /// No deliveries. Takes no memory.
    pub fn new(alloc: Global) -> Deliveries
        ensures { result ≡ [] }
    {
        Deliveries {
            alloc,
            place: Place::Empty,
        }
    }

    /// Puts a delivery at the end. At want of memory the list is as it was.
    pub fn push(&mut self, delivery: Delivery) -> Result<(), Memory>
        ensures ok { OnOk result (self.new ≡ self.old ++ delivery ∷ []) }
        ensures err { OnErr result (self.new ≡ self.old) }
    {
        match &mut self.place {
            Place::Empty => {
                self.place = Place::Alone(delivery);
                Ok(())
            }
            Place::Alone(_) => put_second(self.alloc, &mut self.place, delivery),
            Place::Many(deliveries) => {
                deliveries.push(delivery)?;
                Ok(())
            }
        }
    }

    /// How many deliveries there are.
    pub fn len(&self) -> usize
        ensures { result ≡ length self.now }
    {
        self.as_slice().len()
    }

    /// The deliveries.
    pub fn as_slice(&self) -> &[Delivery]
        ensures { result.now ≡ self.now }
    {
        match &self.place {
            Place::Empty => &[],
            Place::Alone(only) => slice::from_ref(only),
            Place::Many(deliveries) => deliveries.as_slice(),
        }
    }
}

/// Puts a second delivery behind the one that stands alone. At want of memory all is as it was.
fn put_second(alloc: Global, place: &mut Place, delivery: Delivery) -> Result<(), Memory>
    requires { IsAlone place.old }
    ensures ok { OnOk result (listed place.new ≡ listed place.old ++ delivery ∷ []) }
    ensures err { OnErr result (place.new ≡ place.old) }
{
    let mut both = Vec::with_capacity(alloc, FIRST_ROOM)?;
    let Place::Alone(first) = mem::replace(place, Place::Empty) else {
        unreachable!()
    };
    both.push_reserved(first);
    both.push_reserved(delivery);
    *place = Place::Many(both);
    Ok(())
}
