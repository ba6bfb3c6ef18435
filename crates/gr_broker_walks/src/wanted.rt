//! What is wanted of the next broker towards the host: sets of ticks.

ghost use Rattle.std.specs.Prelude.{if◌then◌else◌, ◌≡◌, ℕ, ◌<◌, ◌≤◌, ◌&&◌, IfOk, OnOk};
ghost use Rattle.gr_tick.specs.declared.TheConstants.{MAX_TICK};
ghost use Rattle.gr_tick.specs.Runs.{is_in};
ghost use Rattle.gr_tick.specs.Stored.{within, IsRun, EndBefore, RunsGive};
ghost use Rattle.gr_know.specs.Values.{known_at, is_Q};
ghost use Rattle.gr_curio.specs.Values.{wanted_at, is_C};
ghost use Rattle.gr_curio.specs.Order.{greater_of};
ghost use Rattle.gr_curio.specs.declared.values.Q3.TheVariants.{N, C};

use crate::walks::{is_asked, put};
use gr_curio::Q3;
use gr_know::{K, Know};
use gr_tick::{MAX_TICK, Piece, Run, Stream, is_bottom};
use std::alloc::{AllocError, Global};

/// Asked at the ticks that a piece asks for and of which nothing is known.
pub fn unknown_of(alloc: Global, wanted: &Piece<Q3>, know: &Know) -> Result<Piece<Q3>, AllocError>
    ensures { IfOk result (λ piece. RunsGive N piece
        (λ t. if is_C (wanted_at wanted.now t) && is_Q (known_at know.now.runs t) then C else N)) }
{
    let mut piece = Piece::new(alloc);
    for i in 0..wanted.len() {
        put_unknown(&mut piece, wanted.run(i), know)?;
    }
    // Proof only: the runs are canonical.
    let _ = piece.len();
    Ok(piece)
}

/// Puts the ticks of a run of which nothing is known, if it asks for them.
fn put_unknown(piece: &mut Piece<Q3>, run: &Run<Q3>, know: &Know) -> Result<(), AllocError>
    requires alone { IsRun N run.now }
    requires past { EndBefore piece.old run.now.first }
    ensures values { OnOk result ((t : ℕ) → wanted_at piece.new t ≡ (if is_in t run.now
        then (if is_C run.now.value && is_Q (known_at know.now.runs t) then C else N) else wanted_at piece.old t)) }
    ensures past { OnOk result ((t : ℕ) → run.now.last < t → EndBefore piece.new t) }
{
    if !is_asked(run.value) {
        return Ok(());
    }
    let mut next = run.first;
    while next <= run.last {
        let known = know.steady_at(next);
        let end = known.last.min(run.last);
        let value = asked_unknown(&known.value);
        drop(known);
        put(piece, next, end, value)?;
        next = end + 1;
    }
    Ok(())
}

/// Asked where nothing is known.
fn asked_unknown(known: &K) -> Q3
    ensures { result ≡ (if is_Q known.now then C else N) }
{
    if is_bottom(known) { Q3::C } else { Q3::N }
}

/// All that a stream says, as a piece.
pub fn whole_of(stream: &Stream<Q3>) -> Result<Piece<Q3>, AllocError>
    ensures { IfOk result (λ piece. RunsGive N piece (λ t. wanted_at stream.now.runs t)) }
{
    // Proof only: the runs are canonical.
    let _ = stream.len();
    stream.piece(1, MAX_TICK)
}

/// What a piece asks and acknowledges, with each tick of a range asked for besides; an empty range adds nothing.
pub fn wanted_on(
    alloc: Global,
    curious: &Piece<Q3>,
    first: u64,
    last: u64,
) -> Result<Piece<Q3>, AllocError>
    requires from_one { 1 ≤ first }
    requires upto { last ≤ MAX_TICK }
    ensures { IfOk result (λ piece. RunsGive N piece
        (λ t. if within first last t then greater_of (wanted_at curious.now t) C else wanted_at curious.now t)) }
{
    let mut stream = Stream::new(alloc);
    stream.join_piece(curious)?;
    if first > last {
        return whole_of(&stream);
    }
    let Some(room) = stream.runs_in(first, last).checked_add(1) else {
        return Err(AllocError);
    };
    stream.reserve(room)?;
    stream.join_range(first, last, Q3::C);
    whole_of(&stream)
}
