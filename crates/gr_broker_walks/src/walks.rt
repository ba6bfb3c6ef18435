//! Walks over the runs of one function, and on each of them over the pieces on which a second one is steady: outside
//! the runs there is nothing to say.

ghost use Rattle.std.specs.Prelude.{if◌then◌else◌, ◌≡◌, ◌≢◌, ◌⊎◌, ℕ, ◌+◌, ◌<◌, ◌≤◌, not, ◌&&◌, IfOk, OnOk, IsTrue};
ghost use Rattle.std.specs.Prelude.{length};
ghost use Rattle.gr_tick.specs.declared.TheConstants.{MAX_TICK};
ghost use Rattle.gr_tick.specs.Runs.{is_in, value_at};
ghost use Rattle.gr_tick.specs.Stored.{within, IsRun, EndBefore, RunsGive};
ghost use Rattle.gr_know.specs.Values.{known_at, is_Q};
ghost use Rattle.gr_know.specs.declared.values.K.TheVariants.{Q};
ghost use Rattle.gr_curio.specs.Values.{wanted_at, is_C, is_A};
ghost use Rattle.gr_curio.specs.Wants.{runs_of, wants_of};
ghost use Rattle.gr_curio.specs.declared.values.Q3.TheVariants.{N, C};
ghost use Rattle.gr_broker_walks.specs.Told.{said_at, said_by, left_at, left_by};

use gr_curio::{Q3, Wants};
use gr_know::{K, Know};
use gr_tick::{Lattice, Piece, Run, Steady, is_bottom};
use std::alloc::{AllocError, Global};

/// Puts a value at the end of a piece, on a range past its last run; the least value puts nothing.
pub(crate) fn put<V: Lattice>(
    piece: &mut Piece<V>,
    first: u64,
    last: u64,
    value: V,
) -> Result<(), AllocError>
    requires from_one { 1 ≤ first }
    requires ordered { first ≤ last }
    requires upto { last ≤ MAX_TICK }
    requires past { EndBefore piece.old first }
    ensures values { OnOk result ((t : ℕ) → value_at V.least piece.new t
        ≡ (if within first last t then value else value_at V.least piece.old t)) }
    ensures past { OnOk result (EndBefore piece.new (last + 1)) }
{
    if is_bottom(&value) {
        drop(value);
        return Ok(());
    }
    piece.push(Run { first, last, value })
}

/// Whether a value is that of a tick that is asked for.
pub(crate) fn is_asked(value: Q3) -> bool
    ensures { result ≡ is_C value }
{
    matches!(value, Q3::C)
}

/// Whether a value is that of an acknowledged tick.
pub fn is_acknowledged(value: Q3) -> bool
    ensures { result ≡ is_A value }
{
    matches!(value, Q3::A)
}

/// What is sent of a tick: nothing where it was acknowledged.
fn sent_value(known: &K, wanted: Q3) -> K
    ensures { result ≡ (if is_A wanted then Q else known.now) }
{
    match wanted {
        Q3::A => K::Q,
        Q3::N | Q3::C => known.share(),
    }
}

/// What is sent to a child of what passes the edge to it: all but at the ticks that the child has acknowledged. It
/// fails only where memory is refused.
pub fn unacknowledged(
    alloc: Global,
    passed: &Piece<K>,
    wants: &Wants,
    child: usize,
) -> Result<Piece<K>, AllocError>
    requires { child < length wants.now }
    ensures { IfOk result (λ sent. RunsGive Q sent
        (λ t. if is_A (wanted_at (wants_of (runs_of wants.now) child) t) then Q else known_at passed.now t)) }
{
    let mut sent = Piece::new(alloc);
    for i in 0..passed.len() {
        put_sent(&mut sent, passed.run(i), wants, child)?;
    }
    // Proof only: the runs are canonical.
    let _ = sent.len();
    Ok(sent)
}

/// Puts what is sent of a run to a child.
fn put_sent(
    sent: &mut Piece<K>,
    run: &Run<K>,
    wants: &Wants,
    child: usize,
) -> Result<(), AllocError>
    requires child { child < length wants.now }
    requires alone { IsRun Q run.now }
    requires past { EndBefore sent.old run.now.first }
    ensures values { OnOk result ((t : ℕ) → known_at sent.new t ≡ (if is_in t run.now
        then (if is_A (wanted_at (wants_of (runs_of wants.now) child) t) then Q else run.now.value)
        else known_at sent.old t)) }
    ensures past { OnOk result ((t : ℕ) → run.now.last < t → EndBefore sent.new t) }
{
    let mut next = run.first;
    while next <= run.last {
        let wanted = wants.steady_at(child, next);
        let end = wanted.last.min(run.last);
        let value = sent_value(&run.value, wanted.value);
        put(sent, next, end, value)?;
        next = end + 1;
    }
    Ok(())
}

/// Whether a child neither asked nor acknowledged any tick that a piece tells. It looks up once, and answers yes only
/// where nothing is wanted from the first of these ticks to the last.
pub fn is_untouched(passed: &Piece<K>, wants: &Wants, child: usize) -> bool
    requires { child < length wants.now }
    ensures { IsTrue result → (t : ℕ) → (known_at passed.now t ≡ Q)
        ⊎ (wanted_at (wants_of (runs_of wants.now) child) t ≡ N) }
{
    let many = passed.len();
    if many == 0 {
        return true;
    }
    let first = passed.run(0);
    let last = passed.run(many - 1);
    is_unwanted(wants, child, first.first, last.last)
}

/// Whether a child neither asked nor acknowledged any tick of a range.
fn is_unwanted(wants: &Wants, child: usize, first: u64, last: u64) -> bool
    requires child { child < length wants.now }
    requires upto { first ≤ MAX_TICK }
    ensures { IsTrue result → (t : ℕ) → first ≤ t → t ≤ last → wanted_at (wants_of (runs_of wants.now) child) t ≡ N }
{
    let wanted = wants.steady_at(child, first);
    if !is_bottom(&wanted.value) {
        return false;
    }
    last <= wanted.last
}

/// Whether a tick was asked and is now told.
fn answered_value(known: &K, wanted: Q3) -> Q3
    ensures { result ≡ (if not (is_Q known.now) && is_C wanted then C else N) }
{
    match known {
        K::Q => Q3::N,
        K::S | K::D(_) | K::F => match wanted {
            Q3::C => Q3::C,
            Q3::N | Q3::A => Q3::N,
        },
    }
}

/// The ticks that a child asks and is sent, with `C`: what it asks no more. It fails only where memory is refused.
pub fn quenched(
    alloc: Global,
    sent: &Piece<K>,
    wants: &Wants,
    child: usize,
) -> Result<Piece<Q3>, AllocError>
    requires { child < length wants.now }
    ensures { IfOk result (λ quenched. RunsGive N quenched (λ t. if not (is_Q (known_at sent.now t))
        && is_C (wanted_at (wants_of (runs_of wants.now) child) t) then C else N)) }
{
    let mut quenched = Piece::new(alloc);
    for i in 0..sent.len() {
        put_quenched(&mut quenched, sent.run(i), wants, child)?;
    }
    // Proof only: the runs are canonical.
    let _ = quenched.len();
    Ok(quenched)
}

/// Puts the ticks of a run that a child asks, with `C`.
fn put_quenched(
    quenched: &mut Piece<Q3>,
    run: &Run<K>,
    wants: &Wants,
    child: usize,
) -> Result<(), AllocError>
    requires child { child < length wants.now }
    requires alone { IsRun Q run.now }
    requires past { EndBefore quenched.old run.now.first }
    ensures values { OnOk result ((t : ℕ) → wanted_at quenched.new t ≡ (if is_in t run.now
        then (if not (is_Q run.now.value) && is_C (wanted_at (wants_of (runs_of wants.now) child) t) then C else N)
        else wanted_at quenched.old t)) }
    ensures past { OnOk result ((t : ℕ) → run.now.last < t → EndBefore quenched.new t) }
{
    let mut next = run.first;
    while next <= run.last {
        let wanted = wants.steady_at(child, next);
        let end = wanted.last.min(run.last);
        let value = answered_value(&run.value, wanted.value);
        put(quenched, next, end, value)?;
        next = end + 1;
    }
    Ok(())
}

/// What a child is told of a tick that it asks, before the edge, and how far neither what is known changes nor what the
/// child has acknowledged: where it has acknowledged it, only that.
fn said_from(know: &Know, wants: &Wants, child: usize, tick: u64) -> Steady<K>
    requires child { child < length wants.now }
    requires upto { tick ≤ MAX_TICK }
    ensures forward { tick ≤ result.last }
    ensures inside { result.last ≤ MAX_TICK }
    ensures greatest { result.last < MAX_TICK → (known_at know.now.runs (result.last + 1) ≢ known_at know.now.runs tick)
        ⊎ (wanted_at (wants_of (runs_of wants.now) child) (result.last + 1)
        ≢ wanted_at (wants_of (runs_of wants.now) child) tick) }
    ensures steady { (t : ℕ) → tick ≤ t → t ≤ result.last → said_at (known_at know.now.runs t)
        (wanted_at (wants_of (runs_of wants.now) child) t) C ≡ result.value }
{
    let wanted = wants.steady_at(child, tick);
    if is_acknowledged(wanted.value) {
        return Steady {
            value: K::F,
            last: wanted.last,
        };
    }
    let Steady { value, last } = know.steady_at(tick);
    Steady {
        value,
        last: last.min(wanted.last),
    }
}

/// What a child is told of the ticks that it asks, before the edge: that a tick is final where it has acknowledged it,
/// and else what is known. It fails only where memory is refused.
pub fn said_of(
    alloc: Global,
    asked: &Piece<Q3>,
    know: &Know,
    wants: &Wants,
    child: usize,
) -> Result<Piece<K>, AllocError>
    requires { child < length wants.now }
    ensures { IfOk result (λ piece.
        RunsGive Q piece (said_by know.now.runs (wants_of (runs_of wants.now) child) asked.now)) }
{
    let mut piece = Piece::new(alloc);
    for i in 0..asked.len() {
        put_said(&mut piece, asked.run(i), know, wants, child)?;
    }
    // Proof only: the runs are canonical.
    let _ = piece.len();
    Ok(piece)
}

/// Puts what a child is told of a run, before the edge: nothing where it does not ask.
fn put_said(
    piece: &mut Piece<K>,
    run: &Run<Q3>,
    know: &Know,
    wants: &Wants,
    child: usize,
) -> Result<(), AllocError>
    requires child { child < length wants.now }
    requires alone { IsRun N run.now }
    requires past { EndBefore piece.old run.now.first }
    ensures values { OnOk result ((t : ℕ) → known_at piece.new t ≡ (if is_in t run.now
        then said_at (known_at know.now.runs t) (wanted_at (wants_of (runs_of wants.now) child) t) run.now.value
        else known_at piece.old t)) }
    ensures past { OnOk result ((t : ℕ) → run.now.last < t → EndBefore piece.new t) }
{
    if !is_asked(run.value) {
        return Ok(());
    }
    let mut next = run.first;
    while next <= run.last {
        let Steady { value, last } = said_from(know, wants, child, next);
        let end = last.min(run.last);
        put(piece, next, end, value)?;
        next = end + 1;
    }
    Ok(())
}

/// What is left of what a child asks and acknowledges of a tick.
fn left_value(asked: Q3, reply: &K) -> Q3
    ensures { result ≡ left_at asked (is_Q reply.now) }
{
    match asked {
        Q3::C => { if is_bottom(reply) { Q3::C } else { Q3::N } }
        Q3::A => Q3::A,
        Q3::N => Q3::N,
    }
}

/// What is left of what a child asks and acknowledges, once it is told the reply: what it acknowledges, and what it
/// asks and the reply does not tell. It fails only where memory is refused.
pub fn left_of(alloc: Global, asked: &Piece<Q3>, reply: &Piece<K>) -> Result<Piece<Q3>, AllocError>
    ensures { IfOk result (λ piece. RunsGive N piece (left_by asked.now reply.now)) }
{
    let mut piece = Piece::new(alloc);
    for i in 0..asked.len() {
        put_left(&mut piece, asked.run(i), reply)?;
    }
    // Proof only: the runs are canonical.
    let _ = piece.len();
    Ok(piece)
}

/// Puts what is left of a run, once a child is told the reply.
fn put_left(piece: &mut Piece<Q3>, run: &Run<Q3>, reply: &Piece<K>) -> Result<(), AllocError>
    requires alone { IsRun N run.now }
    requires past { EndBefore piece.old run.now.first }
    ensures values { OnOk result ((t : ℕ) → wanted_at piece.new t ≡ (if is_in t run.now
        then left_at run.now.value (is_Q (known_at reply.now t)) else wanted_at piece.old t)) }
    ensures past { OnOk result ((t : ℕ) → run.now.last < t → EndBefore piece.new t) }
{
    if is_acknowledged(run.value) {
        put(piece, run.first, run.last, Q3::A)?;
        return Ok(());
    }
    let mut next = run.first;
    while next <= run.last {
        let told = reply.steady_at(next);
        let end = told.last.min(run.last);
        let value = left_value(run.value, &told.value);
        drop(told);
        put(piece, next, end, value)?;
        next = end + 1;
    }
    Ok(())
}
