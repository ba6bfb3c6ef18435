//! Where a log stands but for its events: its numbers, its joins, and the subscribers that may join.

ghost use Rattle.std.specs.Prelude.{◌≡◌, ◌+◌, ◌≤◌, ◌==◌, true, length, nat_eq, IfOk};
ghost use Rattle.std.specs.List.{list_any};
ghost use Rattle.gr_event.specs.declared.limits.TheConstants.{MAX_JOINS};
ghost use Rattle.gr_publog.specs.State.{empty_state, footing, stands_after, joins_after, is_new, may_settle, may_cut};
ghost use Rattle.gr_publog.specs.State.{may_enter, may_note, AreHeld};

use crate::append::is_sound;
use crate::record::{Memory, Record, State};
use gr_event::{Join, Joins};
use smallvec::SmallVec;
use std::alloc::Global;
use std::marker::Model;

/// Up to how many late subscribers are kept with no memory of their own.
const FEW: usize = 4;

/// Where a log stands but for its events. There is always room for each late subscriber to join.
#[derive(Drop)]
pub struct Footing {
    state: State,
    joins: Joins,
    late: SmallVec<u16, FEW>,
}

impl Model for Footing {
    ghost use Rattle.gr_publog.specs.State.{Footing as Place};
    ghost use Rattle.gr_publog.specs.State.{AreHeld};

    ghost Value = { Place };

    ghost view = { λ f. record { state = f.state; joins = f.joins; late = f.late.items } };

    ghost invariant = { λ f. AreHeld f.late.items f.joins f.state.settled };
}

impl Footing {
    /// With these numbers and joins, where these subscribers may join. A few of them take no memory.
    pub fn new(alloc: Global, state: State, joins: Joins, late: &[u16]) -> Result<Footing, Memory>
        requires { AreHeld late.now joins state.settled }
        ensures { IfOk result (λ f. f ≡ record { state = state; joins = joins; late = late.now }) }
    {
        let items = SmallVec::from_slice(alloc, late)?;
        Ok(Footing {
            state,
            joins,
            late: items,
        })
    }

    /// Before the first record, where these subscribers may join.
    pub fn first(alloc: Global, late: &[u16]) -> Result<Footing, Memory>
        requires { length late.now ≤ MAX_JOINS }
        ensures { IfOk result (λ f. f ≡ footing (empty_state late.now)) }
    {
        let state = State::new();
        let joins = Joins::new(alloc);
        Footing::new(alloc, state, joins, late)
    }

    /// The numbers. Takes no memory.
    pub fn state(&self) -> &State
        ensures { result.now ≡ self.now.state }
    {
        &self.state
    }

    /// The joins, in order. Takes no memory.
    pub fn joins(&self) -> &Joins
        ensures { result.now ≡ self.now.joins }
    {
        &self.joins
    }

    /// Whether an Event, a Mark or a Join may have this tick. Takes no memory.
    pub fn may_settle(&self, tick: u64) -> bool
        ensures { result ≡ may_settle self.now.state tick }
    {
        self.state.may_settle(tick)
    }

    /// Whether a Cut may have this tick. Takes no memory.
    pub fn may_cut(&self, tick: u64) -> bool
        ensures { result ≡ may_cut self.now.state tick }
    {
        self.state.may_cut(tick)
    }

    /// Whether an Event may have this number. Takes no memory.
    pub fn is_next(&self, number: u64) -> bool
        ensures { result ≡ (number == self.now.state.last + 1) }
    {
        number > 0 && number - 1 == self.state.last
    }

    /// Whether a subscriber is a late one, and has not joined. Takes no memory.
    pub fn may_enter(&self, subscriber: u16) -> bool
        ensures { result ≡ may_enter self.now subscriber }
    {
        is_new(self.late.as_slice(), &self.joins, subscriber)
    }

    /// Whether a record may follow. Takes no memory.
    pub fn may_follow(&self, entry: &Record) -> bool
        ensures { result ≡ may_note self.now entry.now }
    {
        match entry {
            Record::Event { tick, number, .. } => {
                self.may_settle(*tick) && self.is_next(*number)
            }
            Record::Mark { tick } => self.may_settle(*tick),
            Record::Cut { tick } => self.may_cut(*tick),
            Record::Join { tick, subscriber } => {
                self.may_settle(*tick) && self.may_enter(*subscriber)
            }
        }
    }

    /// The joins with one more behind them.
    fn with_join(&self, tick: u64, subscriber: u16) -> Result<Joins, Memory>
        requires { may_note self.now (Record.Join tick subscriber) ≡ true }
        ensures { IfOk result (λ js. js ≡ joins_after self.now.joins (Record.Join tick subscriber)) }
    {
        self.joins.with(Join { subscriber, tick })
    }

    /// The joins after one more record. Takes memory for a Join alone.
    pub fn joins_with(&self, entry: &Record) -> Result<Joins, Memory>
        requires { may_note self.now entry.now ≡ true }
        ensures { IfOk result (λ js. js ≡ joins_after self.now.joins entry.now) }
    {
        match entry {
            Record::Join { tick, subscriber } => self.with_join(*tick, *subscriber),
            Record::Event { .. } | Record::Mark { .. } | Record::Cut { .. } => {
                Ok(self.joins.share())
            }
        }
    }

    /// Cuts it at a tick. Takes no memory.
    pub fn cut_at(&mut self, tick: u64)
        ensures { self.new ≡ stands_after self.old (Record.Cut tick) }
    {
        self.state.cut = tick;
    }

    /// Notes one more record, with the joins after it.
    pub fn note(&mut self, entry: &Record, joins: Joins)
        requires follows { may_note self.old entry.now ≡ true }
        requires joins { joins ≡ joins_after self.old.joins entry.now }
        ensures { self.new ≡ stands_after self.old entry.now }
    {
        // Proof only: the record is sound.
        is_sound(entry);
        self.state.note(entry);
        self.joins = joins;
    }
}

/// Whether a subscriber stands among some.
fn is_among(some: &[u16], subscriber: u16) -> bool
    ensures { result ≡ list_any (λ x. nat_eq x subscriber) some.now }
{
    let mut at = 0;
    'some: while at < some.len() {
        if some[at] == subscriber {
            return true;
        }
        at += 1;
    }
    false
}

/// Whether a subscriber stands among the late ones, and has no join among these.
pub(crate) fn is_new(late: &[u16], joins: &Joins, subscriber: u16) -> bool
    ensures { result ≡ is_new late.now joins.now subscriber }
{
    is_among(late, subscriber) && !joins.has(subscriber)
}
