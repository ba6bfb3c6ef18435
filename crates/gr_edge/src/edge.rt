//! An edge from a broker to one of its children.

ghost use Rattle.std.specs.Prelude.{◌≡◌, ℕ, ◌+◌, ◌<◌, ◌≤◌, ◌++◌, ◌∷◌, [], true, if◌then◌else◌, nat_le, length};
ghost use Rattle.std.specs.Prelude.{option_map, IfOk, OnOk, OnErr};
ghost use Rattle.gr_event.specs.declared.event.Event.{Event};
ghost use Rattle.std.specs.List.{list_any};
ghost use Rattle.gr_filter.specs.Tree.{tree_of};
ghost use Rattle.gr_tick.specs.declared.TheConstants.{MAX_TICK};
ghost use Rattle.gr_tick.specs.Runs.{value_at, is_in};
ghost use Rattle.gr_tick.specs.Stored.{IsRun, EndBefore, RunsGive};
ghost use Rattle.gr_know.specs.Values.{known_at};
ghost use Rattle.gr_know.specs.declared.values.K.TheVariants.{Q, S};
ghost use Rattle.gr_edge.specs.Pass.{wants, wanted, pass};
ghost use Rattle.gr_event.specs.Limits.{IsEvent};
ghost use Rattle.gr_filter.specs.Truth.{matches};
ghost use Rattle.gr_match.specs.Matches.{any};

use crate::late::{Late, first_wanted};
use crate::listed::{Listed, Wish};
use crate::wider::is_wider;
use gr_event::{Event, Joins, Memory};
use gr_filter::{Filter, Node, Operand, Sign};
use gr_know::K;
use gr_match::MatchTree;
use gr_tick::{Lattice, Piece, Run};
use std::alloc::Global;
use std::marker::Model;

/// How many wide filters an edge keeps in mind.
const PLACES: usize = 64;

/// A wide filter that an edge keeps in mind.
#[derive(Clone, Copy, Drop)]
struct Wide {
    /// The mark of its first comparison.
    mark: u64,
    /// Its place among those that are asked.
    place: u16,
}

/// What the subscribers behind an edge want, seen as their list: of each its filter, if it has one, and its number, if
/// it is late. There are at most 65,536.
///
/// A filter that another one covers need not be asked. That of a subscriber in time covers those of late ones too; that
/// of a late one covers no other, since it is asked past its join alone. Filters of subscribers in time that are asked
/// stand in an index, and late subscribers whose filters are asked in a list; the list of all exists only in proofs.
#[derive(Drop)]
pub struct Edge {
    alloc: Global,
    listed: Listed,
    /// Whether one of the subscribers is in time and has no filter.
    is_open: bool,
    asked: MatchTree,
    /// Wide filters by the marks of their first comparisons; none before a second filter is asked.
    widest: Vec<Option<Wide>>,
    /// The late subscribers whose filters are asked.
    lates: Vec<Late>,
}

impl Model for Edge {
    ghost use Rattle.std.specs.Prelude.{List};
    ghost use Rattle.gr_edge.specs.Pass.{Wanting, wantings_code};

    ghost Value = { List Wanting };

    ghost coded = { wantings_code };

    ghost use Rattle.gr_edge.specs.Asked.{IsAsked};
    ghost use Rattle.gr_edge.specs.Lates.{wantings_of};

    ghost view = { λ e. e.listed.wantings };

    ghost invariant = { λ e. IsAsked e.listed.wantings e.is_open e.asked (wantings_of e.lates.items) };
}

impl Edge {
    /// An edge with no subscriber behind it. Takes no memory.
    pub fn new(alloc: Global) -> Edge
        ensures { result ≡ [] }
    {
        Edge {
            alloc,
            listed: Listed::new(),
            is_open: false,
            asked: MatchTree::new(alloc),
            widest: Vec::new(alloc),
            lates: Vec::new(alloc),
        }
    }

    /// Puts a subscriber at the end of the list, with a copy of its filter, and its number where it is late. `Memory`,
    /// where no memory was given, leaves the list as it was.
    pub fn add(&mut self, filter: Option<&Filter>, late: Option<u16>) -> Result<(), Memory>
        requires { length self.old < 65536 }
        ensures ok { OnOk result (self.new ≡ self.old
            ++ record { filter = option_map (λ f. tree_of f.now) filter.entry; late = late } ∷ []) }
        ensures err { OnErr result (self.new ≡ self.old) }
    {
        if let Some(subscriber) = late {
            return self.ask_late(filter, subscriber);
        }
        match filter {
            Some(filter) => self.ask(filter),
            None => {
                self.is_open = true;
                self.listed = self.listed.then(&Wish { filter, late });
                Ok(())
            }
        }
    }

    /// Puts a subscriber in time at the end of the list, with a copy of its filter, and asks that where no other one
    /// that is asked covers it.
    fn ask(&mut self, filter: &Filter) -> Result<(), Memory>
        requires { length self.old < 65536 }
        ensures ok { OnOk result (self.new ≡ self.old
            ++ record { filter = Some (tree_of filter.now); late = None } ∷ []) }
        ensures err { OnErr result (self.new ≡ self.old) }
    {
        let wish = Wish {
            filter: Some(filter),
            late: None,
        };
        let mark = first_mark(filter.root());
        if self.is_open || is_covered(&self.asked, self.widest.as_slice(), mark, filter.root()) {
            self.listed = self.listed.then(&wish);
            return Ok(());
        }
        self.begin_table()?;
        let place = self.asked.len() as u16;
        self.asked.add(filter)?;
        self.listed = self.listed.then(&wish);
        let widest = self.widest.as_mut_slice();
        widen(&self.asked, widest, mark, filter.root(), place);
        Ok(())
    }

    /// Puts a late subscriber at the end of the list, and asks a copy of its filter where none of a subscriber in time
    /// covers it.
    fn ask_late(&mut self, filter: Option<&Filter>, subscriber: u16) -> Result<(), Memory>
        ensures ok { OnOk result (self.new ≡ self.old
            ++ record { filter = option_map (λ f. tree_of f.now) filter.entry; late = Some subscriber } ∷ []) }
        ensures err { OnErr result (self.new ≡ self.old) }
    {
        let wish = Wish {
            filter,
            late: Some(subscriber),
        };
        if self.is_open || is_asked(&self.asked, self.widest.as_slice(), filter) {
            self.listed = self.listed.then(&wish);
            return Ok(());
        }
        let filter = copy_of(self.alloc, filter)?;
        self.lates.push(Late { subscriber, filter })?;
        self.listed = self.listed.then(&wish);
        Ok(())
    }

    /// Makes the table of wide filters before a second filter is asked, with the first one in it.
    fn begin_table(&mut self) -> Result<(), Memory>
        ensures { self.new ≡ self.old }
    {
        if self.asked.len() != 1 || !self.widest.is_empty() {
            return Ok(());
        }
        let mut widest = vec![in self.alloc; None; PLACES]?;
        let first = self.asked.filter(0).root();
        widen(
            &self.asked,
            widest.as_mut_slice(),
            first_mark(first),
            first,
            0,
        );
        self.widest = widest;
        Ok(())
    }

    /// What the edge passes of a piece, tick by tick: an event that nobody behind it wants becomes silence, and all
    /// else stays as it is. A late subscriber wants events past its join alone, as these joins say, and none before it
    /// has joined. `Memory` where no memory was given for the runs.
    pub fn pass(&self, piece: &Piece<K>, joins: &Joins) -> Result<Piece<K>, Memory>
        ensures { IfOk result (λ passed. RunsGive Q passed
            (λ t. pass self.now joins.now t (known_at piece.now t))) }
    {
        let mut passed = Piece::new(self.alloc);
        for i in 0..piece.len() {
            let run = piece.run(i);
            put_from(run, self.passes_from(&run.value, joins), &mut passed)?;
        }
        let _ = passed.len();
        Ok(passed)
    }

    /// The first tick from which on the edge passes a value; before it passes silence in its place.
    fn passes_from(&self, value: &K, joins: &Joins) -> u64
        ensures { (t : ℕ) → t ≤ MAX_TICK
            → pass self.now joins.now t value.now ≡ (if nat_le result t then value.now else S) }
    {
        match value {
            K::D(event) => self.wanted_from(event, joins),
            K::Q | K::S | K::F => 0,
        }
    }

    /// The first tick from which on a subscriber behind the edge wants the event. Takes no memory.
    fn wanted_from(&self, event: &Event, joins: &Joins) -> u64
        ensures { (t : ℕ) → t ≤ MAX_TICK → wanted self.now joins.now t event.now ≡ nat_le result t }
    {
        if self.is_open || self.asked.any(event) {
            return 0;
        }
        first_wanted(self.lates.as_slice(), event, joins)
    }
}

/// Puts a run at the end of a piece, as silence before a tick and with its value from there on. At want of memory a part
/// of it may be there.
fn put_from(run: &Run<K>, from: u64, passed: &mut Piece<K>) -> Result<(), Memory>
    requires alone { IsRun Q run.now }
    requires past { EndBefore passed.old run.now.first }
    ensures ok { OnOk result (RunsGive Q passed.new (λ t. if is_in t run.now
        then (if nat_le from t then run.now.value else S) else value_at Q passed.old t)) }
    ensures past { OnOk result ((t : ℕ) → run.now.last < t → EndBefore passed.new t) }
{
    if from <= run.first {
        return passed.push(Run {
            first: run.first,
            last: run.last,
            value: run.value.share(),
        });
    }
    if run.last < from {
        return passed.push(Run {
            first: run.first,
            last: run.last,
            value: K::S,
        });
    }
    passed.push(Run {
        first: run.first,
        last: from - 1,
        value: K::S,
    })?;
    passed.push(Run {
        first: from,
        last: run.last,
        value: run.value.share(),
    })
}

/// A copy of a filter, where there is one.
fn copy_of(alloc: Global, filter: Option<&Filter>) -> Result<Option<Filter>, Memory>
    ensures { IfOk result (λ copy. option_map tree_of copy ≡ option_map (λ f. tree_of f.now) filter.entry) }
{
    match filter {
        Some(filter) => Ok(Some(filter.copy(alloc)?)),
        None => Ok(None),
    }
}

/// Whether a filter that is asked covers that of a subscriber.
fn is_asked(asked: &MatchTree, widest: &[Option<Wide>], filter: Option<&Filter>) -> bool
    ensures { result ≡ true → (e : Event) → IsEvent e
        → wants (option_map (λ f. tree_of f.now) filter.entry) e ≡ true → any asked.now e ≡ true }
{
    match filter {
        Some(filter) => is_covered(asked, widest, first_mark(filter.root()), filter.root()),
        None => false,
    }
}

/// Whether a filter that is asked covers this one, as far as it is kept in mind for the mark of this one.
fn is_covered(asked: &MatchTree, widest: &[Option<Wide>], mark: u64, filter: &Node) -> bool
    ensures { result ≡ true → (e : Event) → IsEvent e → matches (tree_of filter.now) e ≡ true →
        any asked.now e ≡ true }
{
    if widest.is_empty() {
        return is_over(asked, 0, filter);
    }
    match kept(widest, mark) {
        Some(place) => is_over(asked, usize::from(place), filter),
        None => false,
    }
}

/// The place of the filter that is kept for a mark.
fn kept(widest: &[Option<Wide>], mark: u64) -> Option<u16> {
    let wide = (*widest.get(mark as usize % PLACES)?)?;
    if wide.mark == mark {
        Some(wide.place)
    } else {
        None
    }
}

/// Whether a filter at a place covers this one; none does where there is none.
fn is_over(asked: &MatchTree, place: usize, filter: &Node) -> bool
    ensures { result ≡ true → (e : Event) → IsEvent e → matches (tree_of filter.now) e ≡ true →
        any asked.now e ≡ true }
{
    place < asked.len() && is_wider(asked.filter(place).root(), filter)
}

/// Keeps the place of a filter that is asked, unless one of its mark is kept that it is not wider than.
fn widen(asked: &MatchTree, widest: &mut [Option<Wide>], mark: u64, filter: &Node, place: u16) {
    if let Some(there) = kept(widest, mark) {
        let there = usize::from(there);
        if there < asked.len() && !is_wider(filter, asked.filter(there).root()) {
            return;
        }
    }
    if let Some(wide) = widest.get_mut(mark as usize % PLACES) {
        *wide = Some(Wide { mark, place });
    }
}

/// The mark of the first comparison of a filter, as outermost ANDs join them.
fn first_mark(node: &Node) -> u64 {
    match node {
        Node::And(left, _) => first_mark(left),
        Node::Compare { left, sign, right } => mark_of(left, *sign, right),
        _ => 0,
    }
}

// The two numbers of the hash of Fowler, Noll and Vo, of 64 bits.
const FNV_OFFSET: u64 = 0xcbf2_9ce4_8422_2325;

const FNV_PRIME: u64 = 0x100_0000_01b3;

/// The mark of a comparison: by the name, and by the text that it is to equal.
fn mark_of(left: &Operand, sign: Sign, right: &Operand) -> u64 {
    match left {
        Operand::Name(name) => {
            let name = mixed(FNV_OFFSET, name.as_slice());
            match right {
                Operand::Text(text) if sign == Sign::Equal => mixed(name, text.as_slice()),
                _ => name,
            }
        }
        _ => 0,
    }
}

/// A number with some bytes mixed into it.
fn mixed(from: u64, bytes: &[u8]) -> u64 {
    let mut mark = from;
    'bytes: for byte in bytes {
        mark = (mark ^ u64::from(*byte)).wrapping_mul(FNV_PRIME);
    }
    mark ^ (mark >> 29)
}
