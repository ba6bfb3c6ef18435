//! Lists of joins, which can always be shared.

ghost use Rattle.std.specs.Prelude.{◌≡◌, ◌&&◌, ◌++◌, ◌∷◌, [], IfOk, true, not, length, nat_eq, nat_le, nat_lt};
ghost use Rattle.gr_event.specs.Joins.{AreJoins, first_split, has_joined, last_join_tick, may_join, tick_of};
ghost use Rattle.gr_event.specs.declared.limits.TheConstants.{MAX_JOINS, MAX_JOIN_TICK};

use crate::event::Memory;
use crate::join::{Join, Split};
use crate::limits::{MAX_JOIN_TICK, MAX_JOINS};
use gr_gap::Shared;
use smallvec::SmallVec;
use std::alloc::Global;
use std::marker::Model;

/// Up to how many joins stand in the one block that the owners of a list share.
const FEW: usize = 4;

/// The joins of late subscribers to one publisher, in the order of their ticks, seen as their list. There are at most
/// `MAX_JOINS`, their ticks rise, and no subscriber has two. A list can always be shared; an empty one takes no memory.
pub struct Joins {
    alloc: Global,
    // None for the empty list.
    block: Option<Shared<SmallVec<Join, FEW>>>,
}

impl Model for Joins {
    ghost use Rattle.std.specs.Prelude.{List};
    ghost use Rattle.gr_event.specs.declared.join.Join.{Join as OneJoin};

    ghost Value = { List OneJoin };

    ghost use Rattle.gr_event.specs.Joins.{AreJoins, items_of};

    ghost view = { λ j. items_of j.block };

    ghost invariant = { λ j. AreJoins (items_of j.block) };
}

// Written out, so that a caller's proof sees one drop and not those of the parts.
impl Drop for Joins {
    fn drop(self) {
        let Joins { alloc: _, block } = self;
        drop(block);
    }
}

impl Joins {
    /// The empty list. Takes no memory.
    pub fn new(alloc: Global) -> Joins
        ensures { result ≡ [] }
    {
        Joins { alloc, block: None }
    }

    /// The list of these joins.
    pub fn of(alloc: Global, joins: &[Join]) -> Result<Joins, Memory>
        requires { AreJoins joins.now }
        ensures { IfOk result (λ js. js ≡ joins.now) }
    {
        if joins.is_empty() {
            return Ok(Joins::new(alloc));
        }
        let items = SmallVec::from_slice(alloc, joins)?;
        Ok(Joins {
            alloc,
            block: Some(Shared::new(alloc, items)?),
        })
    }

    /// The list with one join more behind its others. This list stays as it is.
    pub fn with(&self, join: Join) -> Result<Joins, Memory>
        requires { may_join self.now join ≡ true }
        ensures { IfOk result (λ js. js ≡ self.now ++ join ∷ []) }
    {
        let mut items = SmallVec::from_slice(self.alloc, self.as_slice())?;
        items.push(join)?;
        Ok(Joins {
            alloc: self.alloc,
            block: Some(Shared::new(self.alloc, items)?),
        })
    }

    /// Whether a join may stand behind those of the list: the list is not full, the subscriber has none in it, and the
    /// tick is past the last one's and at most `MAX_JOIN_TICK`. Takes no memory.
    pub fn allows(&self, join: Join) -> bool
        ensures { result ≡ may_join self.now join }
    {
        is_next(
            self.len(),
            self.has(join.subscriber),
            self.last_tick(),
            join.tick,
        )
    }

    /// An equal list. Takes no memory and is never refused.
    pub fn share(&self) -> Joins
        ensures { result ≡ self.now }
    {
        match &self.block {
            Some(block) => Joins {
                alloc: self.alloc,
                block: Some(block.share()),
            },
            None => Joins::new(self.alloc),
        }
    }

    /// How many joins it has, at most `MAX_JOINS`. Takes no memory.
    pub fn len(&self) -> usize
        ensures len { result ≡ length self.now }
        ensures joins { AreJoins self.now }
    {
        self.as_slice().len()
    }

    /// Whether it has no join. Takes no memory.
    pub fn is_empty(&self) -> bool
        ensures { result ≡ nat_eq (length self.now) 0 }
    {
        self.len() == 0
    }

    /// The joins, in their order. Takes no memory.
    pub fn as_slice(&self) -> &[Join]
        ensures slice { result.now ≡ self.now }
        ensures joins { AreJoins self.now }
    {
        match &self.block {
            Some(block) => block.get().as_slice(),
            None => &[],
        }
    }

    /// Whether a subscriber has joined. Takes no memory.
    pub fn has(&self, subscriber: u16) -> bool
        ensures { result ≡ has_joined self.now subscriber }
    {
        let joins = self.as_slice();
        let mut at = 0;
        'joins: while at < joins.len() {
            if joins[at].subscriber == subscriber {
                return true;
            }
            at += 1;
        }
        false
    }

    /// The tick at which a subscriber joined, if it has. Takes no memory.
    pub fn tick_of(&self, subscriber: u16) -> Option<u64>
        ensures { result ≡ tick_of self.now subscriber }
    {
        let joins = self.as_slice();
        let mut at = 0;
        'joins: while at < joins.len() {
            let join = joins[at];
            if join.subscriber == subscriber {
                return Some(join.tick);
            }
            at += 1;
        }
        None
    }

    /// The first place at which this list, the kept one, and another have different joins. There is none where one of
    /// the two begins with the other. Takes no memory.
    pub fn split_from(&self, other: &Joins) -> Option<Split>
        ensures { result ≡ first_split 0 self.now other.now }
    {
        let (kept, came) = (self.as_slice(), other.as_slice());
        let mut at = 0;
        'joins: while at < kept.len() && at < came.len() {
            if kept[at].subscriber != came[at].subscriber || kept[at].tick != came[at].tick {
                return Some(Split {
                    at: at as u16,
                    kept: kept[at],
                    came: came[at],
                });
            }
            at += 1;
        }
        None
    }

    /// The tick of the last join, 0 where there is none.
    fn last_tick(&self) -> u64
        ensures { result ≡ last_join_tick self.now }
    {
        match self.as_slice() {
            [] => 0,
            [.., last] => last.tick,
        }
    }
}

/// Whether a join of a tick may stand behind so many others, the last of which has the tick `last`, and one of which
/// may be its subscriber's.
fn is_next(len: usize, joined: bool, last: u64, tick: u64) -> bool
    ensures { result ≡ (nat_lt len MAX_JOINS && not joined && nat_lt last tick && nat_le tick MAX_JOIN_TICK) }
{
    if len >= MAX_JOINS {
        return false;
    }
    if joined {
        return false;
    }
    if tick <= last {
        return false;
    }
    tick <= MAX_JOIN_TICK
}
