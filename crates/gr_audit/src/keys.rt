//! Datagrams with their numbers.

ghost use Rattle.std.specs.Prelude.{◌≡◌, [], length, IfOk, OnOk, OnErr};
ghost use Rattle.std.specs.List.{IsDistinct};
ghost use Rattle.gr_audit.specs.Joint.{same_key};
ghost use Rattle.gr_audit.specs.Links.{with_key, key_number};

use indexmap::IndexSet;
use std::alloc::{AllocError, Global};
use std::marker::Model;

/// How many datagrams have a number at most.
const MOST_KEYS: usize = 4_294_967_295;

/// The datagrams that some group needs or offers, each once, in the order in which they were first met: the broker that
/// each goes to, and its bytes.
#[derive(Drop)]
pub struct Keys {
    keys: IndexSet<(u16, Vec<u8>)>,
}

impl Model for Keys {
    ghost use Rattle.std.specs.Prelude.{List};
    ghost use Rattle.gr_audit.specs.Joint.{Key};
    ghost use Rattle.gr_audit.specs.Links.{keys_seen};

    ghost Value = { List Key };

    ghost view = { λ k. keys_seen k.keys.keys };
}

impl Keys {
    /// No datagrams. Takes no memory.
    pub fn new(alloc: Global) -> Keys
        ensures { result ≡ [] }
    {
        Keys {
            keys: IndexSet::new(alloc),
        }
    }

    /// How many datagrams there are. No two are the same.
    pub fn len(&self) -> usize
        ensures count { result ≡ length self.now }
        ensures apart { IsDistinct same_key self.now }
    {
        self.keys.len()
    }

    /// The number of a datagram: the one that it has, or the next one. Those of all others stay. At want of memory, and
    /// where all numbers are given, the datagrams stay as they were.
    pub fn number(&mut self, alloc: Global, to: u16, bytes: &[u8]) -> Result<u32, AllocError>
        ensures keys { OnOk result (self.new ≡ with_key self.old (to, bytes.now)) }
        ensures number { IfOk result (λ n. n ≡ key_number self.old (to, bytes.now)) }
        ensures err { OnErr result (self.new ≡ self.old) }
    {
        if self.keys.len() >= MOST_KEYS {
            return Err(AllocError);
        }
        let copy = Vec::from_slice(alloc, bytes)?;
        let (place, _) = self.keys.insert_full((to, copy))?;
        Ok(place as u32)
    }
}
