//! What the children of a broker ask and have acknowledged.

ghost use Rattle.std.specs.Prelude.{if◌then◌else◌, MatchOption, ◌≡◌, ◌≢◌, ◌↔◌, IsTrue, ℕ, ◌+◌, ◌^◌, ◌<◌, ◌≤◌, ◌&&◌};
ghost use Rattle.std.specs.Prelude.{nat_le, IfOk, OnOk, OnErr, List, [], length, set, replicate, slice_get, Some};
ghost use Rattle.std.specs.Prelude.{true, false};
ghost use Rattle.std.specs.Option.{ForSome, ForNone};
ghost use Rattle.gr_tick.specs.declared.TheConstants.{MAX_TICK};
ghost use Rattle.gr_tick.specs.Runs.{AreRuns};
ghost use Rattle.gr_tick.specs.Stored.{within, IsRun, EndBefore, RunsGive, StaysUntil, is_told, needed};
ghost use Rattle.gr_curio.specs.Values.{wanted_at, is_A};
ghost use Rattle.gr_curio.specs.Order.{greater_of};
ghost use Rattle.gr_curio.specs.Wants.{runs_of, wants_of, spare_of, all_A_but, any_C, is_consolidated, answered_of};
ghost use Rattle.gr_curio.specs.declared.values.Q3.TheVariants.{N, C, A};

use crate::children::{
    completed_piece, consolidated_piece, consolidated_upto, copy_children, covers_upto,
    curious_piece, quiet_children,
};
use crate::mark::mark_asked;
use crate::values::Q3;
use gr_tick::{Piece, Run, Steady, Stream};
use std::alloc::{AllocError, Global};
use std::marker::Model;

/// What each child of a broker asks and has acknowledged, for one publisher. The children are numbered from 0. It is
/// seen as the list of each child's runs and its spare, how many runs more fit before memory is asked for.
#[derive(Drop)]
pub struct Wants {
    children: Vec<Stream<Q3>>,
}

impl Model for Wants {
    ghost use Rattle.std.specs.Prelude.{List};
    ghost use Rattle.gr_tick.specs.Kept.{Kept};
    ghost use Rattle.gr_curio.specs.declared.values.Q3.{Q3};

    ghost Value = { List (Kept Q3) };

    ghost view = { λ w. w.children.items };
}

impl Wants {
    /// So many children that ask and acknowledge nothing. It fails only where memory is refused.
    pub fn new(alloc: Global, children: usize) -> Result<Wants, AllocError>
        ensures { IfOk result (λ wants. runs_of wants ≡ replicate children []) }
    {
        let children = quiet_children(alloc, children)?;
        Ok(Wants { children })
    }

    /// An object with equal runs. It fails only where memory is refused.
    pub fn copy(&self) -> Result<Wants, AllocError>
        ensures { IfOk result (λ wants. runs_of wants ≡ runs_of self.now) }
    {
        let children = copy_children(*self.children.allocator(), &self.children)?;
        Ok(Wants { children })
    }

    /// How many children there are.
    pub fn children(&self) -> usize
        ensures { result ≡ length self.now }
    {
        self.children.len()
    }

    /// How many runs a child has. They are canonical, and none ends past `MAX_TICK`.
    pub fn len(&self, child: usize) -> usize
        requires { child < length self.now }
        ensures len { result ≡ length (wants_of (runs_of self.now) child) }
        ensures canonical { AreRuns N (wants_of (runs_of self.now) child) }
        ensures in_range { EndBefore (wants_of (runs_of self.now) child) (MAX_TICK + 1) }
    {
        self.children[child].len()
    }

    /// A child's run at place `i`, from 0.
    pub fn run(&self, child: usize, i: usize) -> &Run<Q3>
        requires child { child < length self.now }
        requires place { i < length (wants_of (runs_of self.now) child) }
        ensures run { slice_get (wants_of (runs_of self.now) child) i ≡ Some result.now }
        ensures alone { IsRun N result.now }
    {
        self.children[child].run(i)
    }

    /// A child's value at a tick. It takes no memory.
    pub fn at(&self, child: usize, tick: u64) -> Q3
        requires { child < length self.now }
        ensures { result ≡ wanted_at (wants_of (runs_of self.now) child) tick }
    {
        self.children[child].at(tick)
    }

    /// The greatest tick, at most `MAX_TICK`, up to which a child's value stays that of `tick`. It takes no memory.
    pub fn steady_until(&self, child: usize, tick: u64) -> u64
        requires child { child < length self.now }
        requires tick { tick ≤ MAX_TICK }
        ensures forward { tick ≤ result }
        ensures inside { result ≤ MAX_TICK }
        ensures steady { (t : ℕ) → tick ≤ t → t ≤ result →
            wanted_at (wants_of (runs_of self.now) child) t ≡ wanted_at (wants_of (runs_of self.now) child) tick }
        ensures greatest { result < MAX_TICK → wanted_at (wants_of (runs_of self.now) child) (result + 1)
            ≢ wanted_at (wants_of (runs_of self.now) child) tick }
    {
        self.children[child].steady_until(tick)
    }

    /// A child's value at a tick and how far it stays, as `at` and `steady_until` say it, by one search. It takes no
    /// memory.
    pub fn steady_at(&self, child: usize, tick: u64) -> Steady<Q3>
        requires child { child < length self.now }
        requires tick { tick ≤ MAX_TICK }
        ensures { StaysUntil N (wants_of (runs_of self.now) child) tick result }
    {
        self.children[child].steady_at(tick)
    }

    /// Makes room for at least `n` runs more of a child. It fails only where memory is refused; then all is as it was.
    pub fn reserve(&mut self, child: usize, n: usize) -> Result<(), AllocError>
        requires { child < length self.old }
        ensures runs { runs_of self.new ≡ runs_of self.old }
        ensures spare { OnOk result (n ≤ spare_of self.new child) }
        ensures others { (i : ℕ) → i ≢ child → spare_of self.new i ≡ spare_of self.old i }
        ensures never_less { spare_of self.old child ≤ spare_of self.new child }
        ensures err { OnErr result (self.new ≡ self.old) }
    {
        let stream = &mut self.children[child];
        stream.reserve(n)?;
        Ok(())
    }

    /// The spare that is enough to join a piece to a child's curiosity, or `None` where it is no 64-bit number. It
    /// takes no memory.
    pub fn room_for(&self, child: usize, piece: &Piece<Q3>) -> Option<usize>
        requires { child < length self.now }
        ensures { MatchOption result (2 ^ 64 ≤ needed (wants_of (runs_of self.now) child) piece.now)
            (λ n. n ≡ needed (wants_of (runs_of self.now) child) piece.now) }
    {
        self.children[child].room_for(piece)
    }

    /// Joins a piece to a child's curiosity, and leaves that of the others. It fails only where memory is refused;
    /// then all is as it was.
    pub fn raise(&mut self, child: usize, piece: &Piece<Q3>) -> Result<(), AllocError>
        requires { child < length self.old }
        ensures raised { OnOk result (RunsGive N (wants_of (runs_of self.new) child)
            (λ t. greater_of (wanted_at (wants_of (runs_of self.old) child) t) (wanted_at piece.now t))) }
        ensures others { OnOk result (runs_of self.new
            ≡ set (runs_of self.old) child (wants_of (runs_of self.new) child)) }
        ensures err { OnErr result (self.new ≡ self.old) }
    {
        let stream = &mut self.children[child];
        stream.join_piece(piece)?;
        Ok(())
    }

    /// Joins a piece to a child's curiosity, and leaves that of the others, where the room for it is there, as
    /// `room_for` says. It takes no memory.
    pub fn raise_ready(&mut self, child: usize, piece: &Piece<Q3>)
        requires child { child < length self.old }
        requires room { needed (wants_of (runs_of self.old) child) piece.now ≤ spare_of self.old child }
        ensures raised { RunsGive N (wants_of (runs_of self.new) child)
            (λ t. greater_of (wanted_at (wants_of (runs_of self.old) child) t) (wanted_at piece.now t)) }
        ensures others { runs_of self.new ≡ set (runs_of self.old) child (wants_of (runs_of self.new) child) }
        ensures spare { spare_of self.old child
            ≤ spare_of self.new child + needed (wants_of (runs_of self.old) child) piece.now }
        ensures other_spares { (i : ℕ) → i ≢ child → spare_of self.new i ≡ spare_of self.old i }
    {
        let stream = &mut self.children[child];
        stream.join_ready(piece);
    }

    /// Takes a piece out of a child's curiosity: nothing is asked or acknowledged at any tick of its runs, whatever
    /// was there. It leaves what the others ask. It takes no memory: a spare of as many runs as the piece has must be
    /// there.
    pub fn take_out(&mut self, child: usize, piece: &Piece<Q3>)
        requires child { child < length self.old }
        requires room { length piece.now ≤ spare_of self.old child }
        ensures taken { RunsGive N (wants_of (runs_of self.new) child)
            (λ t. if is_told piece.now t then N else wanted_at (wants_of (runs_of self.old) child) t) }
        ensures others { runs_of self.new ≡ set (runs_of self.old) child (wants_of (runs_of self.new) child) }
        ensures spare { spare_of self.old child ≤ spare_of self.new child + length piece.now }
        ensures other_spares { (i : ℕ) → i ≢ child → spare_of self.new i ≡ spare_of self.old i }
    {
        let stream = &mut self.children[child];
        stream.lower_piece(piece);
    }

    /// Where a child asked for ticks of the range, it asks nothing now; what it has acknowledged stays, and so do the
    /// others. It fails only where memory is refused; then all is as it was.
    pub fn answered(&mut self, child: usize, first: u64, last: u64) -> Result<(), AllocError>
        requires child { child < length self.old }
        requires from_one { 1 ≤ first }
        requires ordered { first ≤ last }
        requires upto { last ≤ MAX_TICK }
        ensures answered { OnOk result (RunsGive N (wants_of (runs_of self.new) child)
            (λ t. answered_of (within first last t) (wanted_at (wants_of (runs_of self.old) child) t))) }
        ensures others { OnOk result (runs_of self.new
            ≡ set (runs_of self.old) child (wants_of (runs_of self.new) child)) }
        ensures err { OnErr result (self.new ≡ self.old) }
    {
        let stream = &mut self.children[child];
        let piece = stream.piece(first, last)?;
        mark_asked(stream, &piece, &Q3::N)?;
        Ok(())
    }

    /// A child's runs in the range, cut at its ends. It fails only where memory is refused.
    pub fn piece(&self, child: usize, first: u64, last: u64) -> Result<Piece<Q3>, AllocError>
        requires child { child < length self.now }
        requires from_one { 1 ≤ first }
        requires ordered { first ≤ last }
        requires upto { last ≤ MAX_TICK }
        ensures { IfOk result (λ piece. RunsGive N piece
            (λ t. if within first last t then wanted_at (wants_of (runs_of self.now) child) t else N)) }
    {
        self.children[child].piece(first, last)
    }

    /// Whether a child has acknowledged each tick from 1 to `upto`; for 0 it has. It takes no memory.
    pub fn covers(&self, child: usize, upto: u64) -> bool
        requires { child < length self.now }
        ensures { IsTrue result ↔ ((t : ℕ) → 1 ≤ t → t ≤ upto
            → is_A (wanted_at (wants_of (runs_of self.now) child) t) ≡ true) }
    {
        covers_upto(&self.children[child], upto)
    }

    /// Acknowledged at the ticks that every child has acknowledged, and that the horizon, if one is kept, has come
    /// to: what a broker may acknowledge upstream. There has to be a child or a horizon; a horizon is at most
    /// `MAX_TICK`. It fails only where memory is refused.
    pub fn consolidate(&self, horizon: Option<u64>) -> Result<Piece<Q3>, AllocError>
        requires some { ForNone horizon (0 < length self.now) }
        requires upto { ForSome horizon (λ h. h ≤ MAX_TICK) }
        ensures { IfOk result (λ piece. RunsGive N piece
            (λ t. if is_consolidated horizon (runs_of self.now) t then A else N)) }
    {
        consolidated_piece(*self.children.allocator(), &self.children, horizon)
    }

    /// The greatest tick up to `limit` up to which every child has acknowledged each tick, and the horizon, if one is
    /// kept, has come to it: 0 where that is not so of tick 1. There has to be a child or a horizon; a horizon and
    /// `limit` are at most `MAX_TICK`. It takes no memory.
    pub fn consolidated_upto(&self, horizon: Option<u64>, limit: u64) -> u64
        requires some { ForNone horizon (0 < length self.now) }
        requires upto { ForSome horizon (λ h. h ≤ MAX_TICK) }
        requires limit { limit ≤ MAX_TICK }
        ensures within { result ≤ limit }
        ensures each { (t : ℕ) → 1 ≤ t → t ≤ result → is_consolidated horizon (runs_of self.now) t ≡ true }
        ensures stops { result < limit → is_consolidated horizon (runs_of self.now) (result + 1) ≡ false }
    {
        consolidated_upto(&self.children, horizon, limit)
    }

    /// Acknowledged at the ticks up to `upto` that a piece acknowledges, and that every child has acknowledged, but
    /// one that may be left out: what has come to be acknowledged by all, if the piece is news of that one. It fails
    /// only where memory is refused.
    pub fn completed(
        &self,
        but: Option<usize>,
        piece: &Piece<Q3>,
        upto: u64,
    ) -> Result<Piece<Q3>, AllocError>
        ensures { IfOk result (λ done. RunsGive N done (λ t. if is_A (wanted_at piece.now t) && nat_le t upto
            && all_A_but but (runs_of self.now) t then A else N)) }
    {
        completed_piece(*self.children.allocator(), &self.children, but, piece, upto)
    }

    /// Asked at the ticks that some child asks. It fails only where memory is refused.
    pub fn curious(&self) -> Result<Piece<Q3>, AllocError>
        ensures { IfOk result (λ piece. RunsGive N piece (λ t. if any_C (runs_of self.now) t then C else N)) }
    {
        curious_piece(*self.children.allocator(), &self.children)
    }
}
