//! When each tick was last asked upstream.

ghost use Rattle.std.specs.Prelude.{if◌then◌else◌, ◌≡◌, ◌≢◌, ◌⊎◌, ℕ, ◌+◌, ◌*◌, ◌<◌, ◌≤◌, IfOk, IsOk, OnOk, OnErr, []};
ghost use Rattle.std.specs.Prelude.{length, slice_get, Some, false};
ghost use Rattle.gr_tick.specs.declared.TheConstants.{MAX_TICK};
ghost use Rattle.gr_tick.specs.Runs.{is_in, AreRuns};
ghost use Rattle.gr_tick.specs.Stored.{within, IsRun, EndBefore, RunsGive};
ghost use Rattle.gr_curio.specs.Moments.{is_at_most, later_of};
ghost use Rattle.gr_curio.specs.MomentLaws.{moment_laws};
ghost use Rattle.gr_curio.specs.Values.{wanted_at, asked_at, is_C, is_outstanding};
ghost use Rattle.gr_curio.specs.Due.{due_of, noted_of};
ghost use Rattle.gr_curio.specs.declared.asks.Moment.TheVariants.{Never};
ghost use Rattle.gr_curio.specs.declared.values.Q3.TheVariants.{N};

use crate::mark::{mark_asked, mark_ready};
use crate::values::{Q3, is_asked};
use gr_tick::{Lattice, Piece, Run, Stream};
use std::alloc::{AllocError, Global};
use std::marker::Model;

/// When a tick was last asked: never, or at a moment in milliseconds. The join is the later one.
#[derive(Clone, Copy, Debug, PartialEq, Eq)]
pub enum Moment {
    /// It was not asked.
    Never,
    /// It was last asked at this moment.
    At(u64),
}

impl Lattice for Moment {
    ghost least = { Never };

    ghost join_of = { later_of };

    ghost is_at_most = { is_at_most };

    ghost laws = { moment_laws };

    fn bottom() -> Moment {
        Moment::Never
    }

    fn join(self, other: Moment) -> Moment {
        match self {
            Moment::Never => other,
            Moment::At(m) => match other {
                Moment::Never => Moment::At(m),
                Moment::At(n) => Moment::At(m.max(n)),
            },
        }
    }

    fn at_most(&self, other: &Moment) -> bool {
        match self {
            Moment::Never => true,
            Moment::At(m) => match other {
                Moment::Never => false,
                Moment::At(n) => *m <= *n,
            },
        }
    }

    fn same(&self, other: &Moment) -> bool {
        *self == *other
    }

    fn share(&self) -> Moment {
        *self
    }
}

/// When a broker last asked each tick upstream, for one publisher, seen as the list of its runs and its spare, how many
/// runs more fit before memory is asked for.
#[derive(Drop)]
pub struct Asks {
    alloc: Global,
    moments: Stream<Moment>,
}

impl Model for Asks {
    ghost use Rattle.gr_tick.specs.Kept.{Kept};
    ghost use Rattle.gr_curio.specs.declared.asks.Moment.{Moment};

    ghost Value = { Kept Moment };

    ghost view = { λ a. a.moments };
}

impl Asks {
    /// Nothing was asked. It takes no memory.
    pub fn new(alloc: Global) -> Asks
        ensures runs { result.runs ≡ [] }
        ensures spare { result.spare ≡ 0 }
    {
        Asks {
            alloc,
            moments: Stream::new(alloc),
        }
    }

    /// An object with equal runs, which has room for the edits that follow. It fails only where memory is refused.
    pub fn copy(&self) -> Result<Asks, AllocError>
        ensures runs { IfOk result (λ asks. asks.runs ≡ self.now.runs) }
        ensures spare { IfOk result (λ asks. length self.now.runs + 4 ≤ asks.spare) }
    {
        let moments = self.moments.copy()?;
        Ok(Asks {
            alloc: self.alloc,
            moments,
        })
    }

    /// How many runs it has. They are canonical, and none ends past `MAX_TICK`.
    pub fn len(&self) -> usize
        ensures len { result ≡ length self.now.runs }
        ensures canonical { AreRuns Never self.now.runs }
        ensures in_range { EndBefore self.now.runs (MAX_TICK + 1) }
    {
        self.moments.len()
    }

    /// The run at place `i`, from 0.
    pub fn run(&self, i: usize) -> &Run<Moment>
        requires { i < length self.now.runs }
        ensures run { slice_get self.now.runs i ≡ Some result.now }
        ensures alone { IsRun Never result.now }
    {
        self.moments.run(i)
    }

    /// The ticks that `wanted` asks and whose last ask is not outstanding at `now`. An ask is outstanding from its
    /// moment on, for `retry` milliseconds. All moments are milliseconds. It fails only where memory is refused.
    pub fn due(&self, wanted: &Piece<Q3>, now: u64, retry: u64) -> Result<Piece<Q3>, AllocError>
        ensures { IfOk result (λ piece. RunsGive N piece (λ t.
            due_of (asked_at self.now.runs t) (wanted_at wanted.now t) now retry)) }
    {
        due_piece(self.alloc, &self.moments, wanted, now, retry)
    }

    /// Makes room for at least `n` runs more. It fails only where memory is refused; then all is as it was.
    pub fn reserve(&mut self, n: usize) -> Result<(), AllocError>
        ensures runs { self.new.runs ≡ self.old.runs }
        ensures spare { OnOk result (n ≤ self.new.spare) }
        ensures never_less { self.old.spare ≤ self.new.spare }
        ensures succeeds { n ≤ self.old.spare → IsOk result }
        ensures err { OnErr result (self.new ≡ self.old) }
    {
        self.moments.reserve(n)?;
        Ok(())
    }

    /// Notes that the ticks that a piece asks were asked at `now`: those with `C`, and no others. It fails only where
    /// memory is refused; then all is as it was.
    pub fn asked(&mut self, piece: &Piece<Q3>, now: u64) -> Result<(), AllocError>
        ensures asked { OnOk result (RunsGive Never self.new.runs (λ t.
            noted_of now (asked_at self.old.runs t) (wanted_at piece.now t))) }
        ensures other { OnOk result ((t : ℕ) → is_C (wanted_at piece.now t) ≡ false → asked_at self.new.runs t
            ≡ asked_at self.old.runs t) }
        ensures err { OnErr result (self.new ≡ self.old) }
    {
        mark_asked(&mut self.moments, piece, &Moment::At(now))?;
        Ok(())
    }

    /// `asked` where the room for it is there: two runs for each run of the piece. It takes no memory.
    pub fn asked_ready(&mut self, piece: &Piece<Q3>, now: u64)
        requires { length piece.now * 2 ≤ self.old.spare }
        ensures asked { RunsGive Never self.new.runs (λ t.
            noted_of now (asked_at self.old.runs t) (wanted_at piece.now t)) }
        ensures spare { self.old.spare ≤ self.new.spare + length piece.now * 2 }
    {
        mark_ready(&mut self.moments, piece, &Moment::At(now));
    }

    /// Keeps no moment of the ticks of a range any more, as if they had never been asked: of ticks that are final,
    /// which are asked no more. It takes no memory where there is room for one run. It fails only where memory is
    /// refused; then all is as it was.
    pub fn forget(&mut self, first: u64, last: u64) -> Result<(), AllocError>
        requires from_one { 1 ≤ first }
        requires ordered { first ≤ last }
        requires upto { last ≤ MAX_TICK }
        ensures forgotten { OnOk result (RunsGive Never self.new.runs (λ t. if within first last t then Never
            else asked_at self.old.runs t)) }
        ensures spare { self.old.spare ≤ self.new.spare + 1 }
        ensures succeeds { 1 ≤ self.old.spare → IsOk result }
        ensures err { OnErr result (self.new ≡ self.old) }
    {
        self.moments.lower_range(first, last)
    }
}

fn outstanding(moment: &Moment, now: u64, retry: u64) -> bool
    ensures { result ≡ is_outstanding moment.now now retry }
{
    match moment {
        Moment::Never => false,
        Moment::At(m) => *m <= now && now - *m < retry,
    }
}

/// What is due of what is wanted, run by run.
fn due_piece(
    alloc: Global,
    moments: &Stream<Moment>,
    wanted: &Piece<Q3>,
    now: u64,
    retry: u64,
) -> Result<Piece<Q3>, AllocError>
    ensures { IfOk result (λ piece.
        RunsGive N piece (λ t. due_of (asked_at moments.now.runs t) (wanted_at wanted.now t) now retry)) }
{
    let mut due = Piece::new(alloc);
    for i in 0..wanted.len() {
        put_due(&mut due, moments, wanted.run(i), now, retry)?;
    }
    // Proof only: the runs are canonical.
    let _ = due.len();
    Ok(due)
}

/// Puts what is due of a run at the end. Where it is asked for, this goes by pieces on which the moment of the last ask
/// stays.
fn put_due(
    due: &mut Piece<Q3>,
    moments: &Stream<Moment>,
    run: &Run<Q3>,
    now: u64,
    retry: u64,
) -> Result<(), AllocError>
    requires alone { IsRun N run.now }
    requires past { EndBefore due.old run.now.first }
    ensures values { OnOk result ((t : ℕ) → wanted_at due.new t
        ≡ (if is_in t run.now then due_of (asked_at moments.now.runs t) run.now.value now retry
        else wanted_at due.old t)) }
    ensures past { OnOk result ((t : ℕ) → run.now.last < t → EndBefore due.new t) }
{
    if !is_asked(run.value) {
        return Ok(());
    }
    let mut next = run.first;
    while next <= run.last {
        let asked = moments.steady_at(next);
        let end = asked.last.min(run.last);
        if !outstanding(&asked.value, now, retry) {
            due.push(Run {
                first: next,
                last: end,
                value: Q3::C,
            })?;
        }
        next = end + 1;
    }
    Ok(())
}
