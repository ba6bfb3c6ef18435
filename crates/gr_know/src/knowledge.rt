//! What a broker knows of each tick of one publisher.

ghost use Rattle.std.specs.Prelude.{if◌then◌else◌, ◌&&◌, nat_le, take, drop, ◌++◌, ◌≡◌, ◌≢◌, ◌⊎◌, ℕ, suc, ◌+◌, ◌-◌};
ghost use Rattle.std.specs.Prelude.{◌^◌, ◌<◌, ◌≤◌, [], length, slice_get, Some, true, false, MatchOption, IfOk, IsOk};
ghost use Rattle.std.specs.Prelude.{OnOk, OnErr};
ghost use Rattle.gr_tick.specs.declared.TheConstants.{MAX_TICK};
ghost use Rattle.gr_tick.specs.Runs.{value_at, AreRuns, first_bottom_from, top_of};
ghost use Rattle.gr_tick.specs.Stored.{within, IsRun, EndBefore, RunsGive, StaysUntil, needed};
ghost use Rattle.gr_know.specs.Values.{known_at, is_D, join_K, new_K, clash_K};
ghost use Rattle.gr_know.specs.Clash.{IsLeastClash};
ghost use Rattle.gr_know.specs.Forget.{data_of, data_count, lower_data, forgotten, Forgets};
ghost use Rattle.gr_know.specs.declared.values.K.TheVariants.{Q, F};

use crate::events::{finish_counted, join_counted};
use crate::forgetting::{first_data, first_data_of, forget_data};
use crate::news::{find_clash, fresh_piece, horizon_with};
use crate::values::K;
use gr_tick::{Piece, Run, Steady, Stream};
use std::alloc::{AllocError, Global};
use std::marker::Model;

/// A tick where what came does not go with what is kept: silence against an event, or two events.
#[derive(Drop)]
pub struct Clash {
    /// The tick.
    pub tick: u64,
    /// What is known of it.
    pub kept: K,
    /// What came.
    pub came: K,
}

/// What a broker knows of each tick of one publisher, seen as the list of its runs and its spare, how many runs more
/// fit before memory is asked for.
#[derive(Drop)]
pub struct Know {
    alloc: Global,
    stream: Stream<K>,
    // How many ticks have an event.
    events: u64,
    // No tick below it has an event: forgetting begins here, and not at the first run.
    no_data_below: u64,
}

impl Model for Know {
    ghost use Rattle.std.specs.Prelude.{◌≡◌};
    ghost use Rattle.gr_tick.specs.Kept.{Kept};
    ghost use Rattle.gr_know.specs.declared.values.K.{K};
    ghost use Rattle.gr_know.specs.Forget.{data_count, NoDataBelow};

    ghost Value = { Kept K };

    ghost view = { λ k. k.stream };

    ghost invariant = { λ k. (k.events ≡ data_count k.stream.runs) × NoDataBelow k.no_data_below k.stream.runs };
}

impl Know {
    /// Nothing is known of any tick. It takes no memory.
    pub fn new(alloc: Global) -> Know
        ensures runs { result.runs ≡ [] }
        ensures spare { result.spare ≡ 0 }
    {
        Know {
            alloc,
            stream: Stream::new(alloc),
            events: 0,
            no_data_below: u64::MAX,
        }
    }

    /// An object with equal runs, which has room for the edits that follow: for as many runs more as it has, and 4. It
    /// fails only where memory is refused.
    pub fn copy(&self) -> Result<Know, AllocError>
        ensures runs { IfOk result (λ know. know.runs ≡ self.now.runs) }
        ensures spare { IfOk result (λ know. length self.now.runs + 4 ≤ know.spare) }
    {
        let stream = self.stream.copy()?;
        Ok(Know {
            alloc: self.alloc,
            stream,
            events: self.events,
            no_data_below: self.no_data_below,
        })
    }

    /// How many runs it has. They are canonical, and none ends past `MAX_TICK`.
    pub fn len(&self) -> usize
        ensures len { result ≡ length self.now.runs }
        ensures canonical { AreRuns Q self.now.runs }
        ensures in_range { EndBefore self.now.runs (MAX_TICK + 1) }
    {
        self.stream.len()
    }

    /// The run at place `i`, from 0.
    pub fn run(&self, i: usize) -> &Run<K>
        requires { i < length self.now.runs }
        ensures run { slice_get self.now.runs i ≡ Some result.now }
        ensures alone { IsRun Q result.now }
    {
        self.stream.run(i)
    }

    /// What is known of a tick. It takes no memory.
    pub fn at(&self, tick: u64) -> K
        ensures { result ≡ known_at self.now.runs tick }
    {
        self.stream.at(tick)
    }

    /// The greatest known tick, or 0 where nothing is known. It takes no memory.
    pub fn top(&self) -> u64
        ensures top { result ≡ top_of self.now.runs }
        ensures inside { result ≤ MAX_TICK }
        ensures past { EndBefore self.now.runs (result + 1) }
    {
        self.stream.top()
    }

    /// The greatest tick up to which, from the one after the horizon on, nothing is unknown: where a horizon moves to.
    /// It takes no memory.
    pub fn horizon_from(&self, horizon: u64) -> u64
        requires { horizon ≤ MAX_TICK }
        ensures horizon { result ≡ first_bottom_from self.now.runs (suc horizon) - 1 }
        ensures forward { horizon ≤ result }
        ensures inside { result ≤ MAX_TICK }
        ensures known { (t : ℕ) → horizon < t → t ≤ result → known_at self.now.runs t ≢ Q }
        ensures greatest { known_at self.now.runs (result + 1) ≡ Q }
    {
        self.stream.first_bottom_from(horizon + 1) - 1
    }

    /// Where a horizon would move to once the piece is joined, as `horizon_from` says it then. It takes no memory.
    pub fn horizon_with(&self, piece: &Piece<K>, horizon: u64) -> u64
        requires { horizon ≤ MAX_TICK }
        ensures forward { horizon ≤ result }
        ensures inside { result ≤ MAX_TICK }
        ensures known { (t : ℕ) → horizon < t → t ≤ result
            → join_K (known_at self.now.runs t) (known_at piece.now t) ≢ Q }
        ensures greatest { join_K (known_at self.now.runs (result + 1)) (known_at piece.now (result + 1)) ≡ Q }
    {
        horizon_with(&self.stream, piece, horizon)
    }

    /// The greatest tick, at most `MAX_TICK`, up to which what is known stays that of `tick`. It takes no memory.
    pub fn steady_until(&self, tick: u64) -> u64
        requires { tick ≤ MAX_TICK }
        ensures forward { tick ≤ result }
        ensures inside { result ≤ MAX_TICK }
        ensures steady { (t : ℕ) → tick ≤ t → t ≤ result → known_at self.now.runs t ≡ known_at self.now.runs tick }
        ensures greatest { result < MAX_TICK → known_at self.now.runs (result + 1) ≢ known_at self.now.runs tick }
    {
        self.stream.steady_until(tick)
    }

    /// What is known of a tick and how far it stays so, as `at` and `steady_until` say it, by one search. It takes no
    /// memory.
    pub fn steady_at(&self, tick: u64) -> Steady<K>
        requires { tick ≤ MAX_TICK }
        ensures { StaysUntil Q self.now.runs tick result }
    {
        self.stream.steady_at(tick)
    }

    /// What would be known of the range once the piece is joined, cut at its ends. It fails only where memory is
    /// refused.
    pub fn piece_with(
        &self,
        piece: &Piece<K>,
        first: u64,
        last: u64,
    ) -> Result<Piece<K>, AllocError>
        requires from_one { 1 ≤ first }
        requires ordered { first ≤ last }
        requires upto { last ≤ MAX_TICK }
        ensures { IfOk result (λ joined. RunsGive Q joined
            (λ t. if within first last t then join_K (known_at self.now.runs t) (known_at piece.now t) else Q)) }
    {
        let known = self.stream.piece(first, last)?;
        if known.is_empty() {
            return piece.cut(first, last);
        }
        let mut joined = Stream::new(self.alloc);
        joined.join_piece(&known)?;
        joined.join_piece(piece)?;
        joined.piece(first, last)
    }

    /// The least tick at which the piece clashes with what is known, if there is one. It takes no memory.
    pub fn clash(&self, piece: &Piece<K>) -> Option<Clash>
        ensures { MatchOption result ((t : ℕ) → clash_K (known_at self.now.runs t) (known_at piece.now t) ≡ false)
            (λ c. IsLeastClash (known_at self.now.runs) (known_at piece.now) c.tick c.kept c.came) }
    {
        find_clash(&self.stream, piece)
    }

    /// What is new of a piece: its values at exactly the ticks that are unknown. It fails only where memory is refused.
    pub fn news(&self, piece: &Piece<K>) -> Result<Piece<K>, AllocError>
        ensures { IfOk result (λ fresh. RunsGive Q fresh
            (λ t. new_K (known_at self.now.runs t) (known_at piece.now t))) }
    {
        fresh_piece(self.alloc, &self.stream, piece)
    }

    /// Makes room for at least `n` runs more. It fails only where memory is refused; then all is as it was.
    pub fn reserve(&mut self, n: usize) -> Result<(), AllocError>
        ensures runs { self.new.runs ≡ self.old.runs }
        ensures spare { OnOk result (n ≤ self.new.spare) }
        ensures never_less { self.old.spare ≤ self.new.spare }
        ensures succeeds { n ≤ self.old.spare → IsOk result }
        ensures err { OnErr result (self.new ≡ self.old) }
    {
        self.stream.reserve(n)?;
        Ok(())
    }

    /// The spare that is enough to join a piece, or `None` where it is no 64-bit number. It takes no memory.
    pub fn room_for(&self, piece: &Piece<K>) -> Option<usize>
        ensures { MatchOption result (2 ^ 64 ≤ needed self.now.runs piece.now)
            (λ n. n ≡ needed self.now.runs piece.now) }
    {
        self.stream.room_for(piece)
    }

    /// Joins a piece, tick by tick, where the room for it is there, as `room_for` says. It takes no memory.
    #[inline(always)]
    pub fn join(&mut self, piece: &Piece<K>)
        requires { needed self.old.runs piece.now ≤ self.old.spare }
        ensures joined { RunsGive Q self.new.runs (λ t. join_K (known_at self.old.runs t) (known_at piece.now t)) }
        ensures spare { self.old.spare ≤ self.new.spare + needed self.old.runs piece.now }
    {
        self.no_data_below = self.no_data_below.min(first_data_of(piece));
        self.events = join_counted(&mut self.stream, piece, self.events);
    }

    /// Joins a piece, and answers what is new of it: its values at exactly the ticks that were unknown. It fails only
    /// where memory is refused; then the knowledge is as it was.
    pub fn learn(&mut self, piece: &Piece<K>) -> Result<Piece<K>, AllocError>
        ensures fresh { IfOk result (λ fresh. RunsGive Q fresh
            (λ t. new_K (known_at self.old.runs t) (known_at piece.now t))) }
        ensures joined { OnOk result (RunsGive Q self.new.runs
            (λ t. join_K (known_at self.old.runs t) (known_at piece.now t))) }
        ensures err { OnErr result (self.new ≡ self.old) }
    {
        let fresh = self.news(piece)?;
        let Some(room) = self.room_for(piece) else {
            return Err(AllocError);
        };
        self.reserve(room)?;
        self.join(piece);
        Ok(fresh)
    }

    /// The runs of the range, cut at its ends. It fails only where memory is refused.
    pub fn piece(&self, first: u64, last: u64) -> Result<Piece<K>, AllocError>
        requires from_one { 1 ≤ first }
        requires ordered { first ≤ last }
        requires upto { last ≤ MAX_TICK }
        ensures { IfOk result (λ piece. RunsGive Q piece
            (λ t. if within first last t then known_at self.now.runs t else Q)) }
    {
        self.stream.piece(first, last)
    }

    /// Makes each tick of the range final, whatever was known of it. It fails only where memory is refused; then the
    /// knowledge is as it was.
    pub fn finish(&mut self, first: u64, last: u64) -> Result<(), AllocError>
        requires from_one { 1 ≤ first }
        requires ordered { first ≤ last }
        requires upto { last ≤ MAX_TICK }
        ensures finished { OnOk result (RunsGive Q self.new.runs
            (λ t. if within first last t then F else known_at self.old.runs t)) }
        ensures err { OnErr result (self.new ≡ self.old) }
    {
        self.reserve(2)?;
        self.finish_ready(first, last);
        Ok(())
    }

    /// `finish` where the room for it is there: two runs. It takes no memory.
    #[inline(always)]
    pub fn finish_ready(&mut self, first: u64, last: u64)
        requires from_one { 1 ≤ first }
        requires ordered { first ≤ last }
        requires upto { last ≤ MAX_TICK }
        requires room { 2 ≤ self.old.spare }
        ensures finished { RunsGive Q self.new.runs (λ t. if within first last t then F else known_at self.old.runs t) }
        ensures spare { self.old.spare ≤ self.new.spare + 2 }
    {
        self.events = finish_counted(&mut self.stream, first, last, self.events);
    }

    /// Makes ticks with an event unknown, the least ones first and none past `upto`, until no more than `limit` ticks
    /// with an event are left, or none up to `upto`. So a broker's cache is bounded: what it has forgotten it asks
    /// again. It takes no memory, and never fails.
    pub fn forget(&mut self, limit: u32, upto: u64) -> Result<(), AllocError>
        ensures succeeds { IsOk result }
        ensures forgotten { OnOk result (self.new.runs ≡ forgotten limit upto self.old.runs) }
        ensures forgets { OnOk result (Forgets limit upto self.old.runs self.new.runs) }
        ensures canonical { OnOk result (AreRuns Q self.new.runs) }
        ensures in_range { OnOk result (EndBefore self.new.runs (MAX_TICK + 1)) }
        ensures err { OnErr result (self.new ≡ self.old) }
    {
        // Proof only: the runs are canonical before and after.
        let _ = self.stream.len();
        let too_many = self.events.saturating_sub(u64::from(limit));
        if too_many == 0 {
            return Ok(());
        }
        self.no_data_below = first_data(&self.stream, self.no_data_below);
        let left = forget_data(&mut self.stream, self.no_data_below, too_many, upto);
        self.events -= too_many - left;
        let _ = self.stream.len();
        Ok(())
    }
}
