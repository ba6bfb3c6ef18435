//! From lines to steps.

ghost use Rattle.std.specs.Prelude.{◌≡◌, ◌≢◌, Err, ℕ, ◌+◌, ◌-◌, ◌<◌, ◌≤◌, ◌^◌, IfSome, IfOk, IfErr, length};
ghost use Rattle.std.specs.Prelude.{bytes_eq, codes};
ghost use Rattle.std.specs.List.{All, AllByRecursion, slice_get};
ghost use Rattle.std.specs.Option.{option_map};
ghost use Rattle.gr_sched.specs.declared.step.TheConstants.{MAX_INPUT_BYTES, MAX_STEPS};
ghost use Rattle.gr_sched.specs.declared.fault.StepFault.TheVariants.{TooMany};
ghost use Rattle.gr_sched.specs.declared.verb.Verb.TheVariants as verb;
ghost use Rattle.gr_sched.specs.Text.{counted_lines};
ghost use Rattle.gr_sched.specs.Words.{Gives, ended, first_word, known, next_word};
ghost use Rattle.gr_sched.specs.Ranges.{IsStep, IsInLimits, IsFault};
ghost use Rattle.gr_event.specs.Limits.{IsEvent};
ghost use Rattle.gr_sched.specs.Grammar.{next_name, after_pick, stop_of, next_stop, event_of, publish_of, step_by};
ghost use Rattle.gr_sched.specs.Grammar.{step_of, lines_of, steps_of};

use crate::fault::StepFault;
use crate::plain::push_lines;
use crate::step::{Line, MAX_NUMBER, MAX_STEPS, Names, Step, Steps, Stop};
use crate::text::next_counted;
use crate::verb::{Verb, verb_of};
use crate::words::{after_word, first_word, next_number, next_small, next_word, trimmed};
use gr_event::{Event, EventFault};
use std::alloc::Global;

/// A step of line `line` that nothing may follow.
fn ended(line: u32, rest: &[u8], step: Step) -> Result<Step, StepFault>
    ensures { Gives (λ s. s) result (ended line rest.now step) }
{
    if rest.is_empty() {
        Ok(step)
    } else {
        Err(StepFault::BadWord { line })
    }
}

/// The next word of line `line` as a broker's name, and what follows it.
fn next_broker<'a, N: Names>(
    line: u32,
    text: &'a [u8],
    names: &N,
) -> Result<(u16, &'a [u8]), StepFault>
    ensures { Gives (λ r. (r.0, r.1.now)) result (next_name (N.naming names.now).broker line text.now) }
{
    let (word, rest) = next_word(line, text)?;
    match names.broker(word) {
        Some(broker) => Ok((broker, rest)),
        None => Err(StepFault::BadWord { line }),
    }
}

/// The next word of line `line` as a publisher's name, and what follows it.
fn next_publisher<'a, N: Names>(
    line: u32,
    text: &'a [u8],
    names: &N,
) -> Result<(u16, &'a [u8]), StepFault>
    ensures { Gives (λ r. (r.0, r.1.now)) result (next_name (N.naming names.now).publisher line text.now) }
{
    let (word, rest) = next_word(line, text)?;
    match names.publisher(word) {
        Some(publisher) => Ok((publisher, rest)),
        None => Err(StepFault::BadWord { line }),
    }
}

/// The next word of line `line` as the name of a late subscriber, and what follows it.
fn next_subscriber<'a, N: Names>(
    line: u32,
    text: &'a [u8],
    names: &N,
) -> Result<(u16, &'a [u8]), StepFault>
    ensures { Gives (λ r. (r.0, r.1.now)) result (next_name (N.naming names.now).joiner line text.now) }
{
    let (word, rest) = next_word(line, text)?;
    match names.subscriber(word) {
        Some(subscriber) => Ok((subscriber, rest)),
        None => Err(StepFault::BadWord { line }),
    }
}

/// What follows `pick` in line `line`.
fn after_pick(line: u32, text: &[u8]) -> Result<&[u8], StepFault>
    ensures { Gives (λ r. r.now) result (after_pick line text.now) }
{
    let (word, rest) = next_word(line, text)?;
    if word == b"pick".as_slice() {
        Ok(rest)
    } else {
        Err(StepFault::BadWord { line })
    }
}

/// A stop of line `line` behind its word, and what follows it.
fn stop_of(line: u32, text: &[u8]) -> Result<(Stop, &[u8]), StepFault>
    ensures { Gives (λ r. (r.0, r.1.now)) result (stop_of line text.now) }
{
    let (call, rest) = next_small(line, 1, 4, text)?;
    let rest = after_pick(line, rest)?;
    let (pick, rest) = next_small(line, 0, 255, rest)?;
    Ok((Stop { call, pick }, rest))
}

/// Whether the next word is `stop`. An event, which begins otherwise, is not looked through for its first word's end.
#[tactic(auto, using(crate::proofs::Begins::begins_otherwise))]
fn is_stop_next(text: &[u8]) -> bool
    ensures { result ≡ bytes_eq (first_word text.now) (codes "stop") }
{
    match text {
        [b's', ..] => first_word(text) == b"stop".as_slice(),
        _ => false,
    }
}

/// A stop of line `line` where the next word is `stop`, else none, and what follows it.
fn next_stop(line: u32, text: &[u8]) -> Result<(Option<Stop>, &[u8]), StepFault>
    ensures { Gives (λ r. (r.0, r.1.now)) result (next_stop line text.now) }
{
    if is_stop_next(text) {
        let (stop, rest) = stop_of(line, after_word(text))?;
        return Ok((Some(stop), rest));
    }
    Ok((None, text))
}

/// The rest of line `line` as an event.
#[tactic(auto, using(crate::proofs::Faults::other_fault))]
fn event_of(alloc: Global, line: u32, text: &[u8]) -> Result<Event, StepFault>
    ensures gives { Gives (λ e. e) result (event_of line text.now) }
    ensures limits { IfOk result IsEvent }
{
    if text.is_empty() {
        return Err(StepFault::BadWord { line });
    }
    match Event::from_text(alloc, text) {
        Ok(event) => Ok(event),
        Err(EventFault::Memory) => Err(StepFault::Memory),
        Err(fault) => Err(StepFault::BadEvent { line, fault }),
    }
}

/// The publish of line `line` behind its word.
fn publish_of<N: Names>(alloc: Global, line: u32, text: &[u8], names: &N) -> Result<Step, StepFault>
    ensures gives { Gives (λ s. s) result (publish_of (N.naming names.now) line text.now) }
    ensures limits { IfOk result IsInLimits }
{
    let (publisher, rest) = next_publisher(line, text, names)?;
    let (number, rest) = next_number(line, 1, MAX_NUMBER, rest)?;
    let (stop, rest) = next_stop(line, rest)?;
    let event = event_of(alloc, line, rest)?;
    Ok(Step::Publish {
        publisher,
        number,
        stop,
        event,
    })
}

/// The join of line `line` behind its word.
fn join_of<N: Names>(line: u32, text: &[u8], names: &N) -> Result<Step, StepFault>
    ensures gives { Gives (λ s. s) result (step_by (N.naming names.now) line verb.Join text.now) }
    ensures limits { IfOk result IsInLimits }
{
    let (subscriber, rest) = next_subscriber(line, text, names)?;
    let (publisher, rest) = next_publisher(line, rest, names)?;
    ended(
        line,
        rest,
        Step::Join {
            subscriber,
            publisher,
        },
    )
}

/// The step of line `line` behind its word.
fn step_by<N: Names>(
    alloc: Global,
    line: u32,
    verb: Verb,
    text: &[u8],
    names: &N,
) -> Result<Step, StepFault>
    ensures gives { Gives (λ s.
        s) result (step_by (N.naming names.now) line verb text.now) }
    ensures limits { IfOk result IsInLimits }
{
    match verb {
        Verb::Clock => {
            let (now, rest) = next_number(line, 0, MAX_NUMBER, text)?;
            ended(line, rest, Step::Clock { now })
        }
        Verb::Publish => publish_of(alloc, line, text, names),
        Verb::Wake => {
            let (broker, rest) = next_broker(line, text, names)?;
            ended(line, rest, Step::Wake { broker })
        }
        Verb::Deliver => {
            let (frame, rest) = next_number(line, 0, MAX_NUMBER, text)?;
            ended(line, rest, Step::Deliver { frame })
        }
        Verb::Crash => {
            let (broker, rest) = next_broker(line, text, names)?;
            ended(line, rest, Step::Crash { broker })
        }
        Verb::Sweep => ended(line, text, Step::Sweep),
        Verb::Show => ended(line, text, Step::Show),
        Verb::Bytes => {
            let (frame, rest) = next_number(line, 0, MAX_NUMBER, text)?;
            ended(line, rest, Step::Bytes { frame })
        }
        Verb::Join => join_of(line, text, names),
    }
}

/// The step of line `number`.
fn step_of<N: Names>(alloc: Global, number: u32, line: &[u8], names: &N) -> Result<Step, StepFault>
    ensures gives { Gives (λ s. s) result (step_of (N.naming names.now) number line.now) }
    ensures limits { IfOk result IsInLimits }
{
    let (word, rest) = next_word(number, trimmed(line))?;
    match verb_of(word) {
        Some(verb) => step_by(alloc, number, verb, rest, names),
        None => Err(StepFault::BadWord { line: number }),
    }
}

/// The number of the first counted line past the limit, if there are so many.
fn past_limit(steps: &[u8]) -> Option<u64>
    ensures number { result ≡ option_map (λ c. c.0) (slice_get (counted_lines steps.now) MAX_STEPS) }
    ensures within { IfSome result (λ n. n ≤ length steps.now) }
{
    let mut seen = 0;
    let mut before = 0;
    let mut rest = steps;
    'lines: while let Some(counted) = next_counted(before, rest) {
        if seen == MAX_STEPS {
            return Some(counted.number);
        }
        seen += 1;
        before = counted.number;
        rest = counted.rest;
    }
    None
}

/// The steps of the counted lines. Reading ends at the first line past the limit at the latest.
#[inline(never)]
fn read_lines<N: Names>(alloc: Global, steps: &[u8], names: &N) -> Result<Steps, StepFault>
    requires { length steps.now ≤ MAX_INPUT_BYTES }
    ensures gives { let counted = counted_lines steps.now in length counted ≤ MAX_STEPS
        → Gives (λ s. s) result (lines_of (N.naming names.now) counted) }
    ensures few { IfOk result (λ _. length (counted_lines steps.now) ≤ MAX_STEPS) }
    ensures limits { IfOk result (λ s. AllByRecursion (λ line. IsInLimits line.step) s) }
{
    let mut found = Steps::new(alloc);
    let mut before = 0;
    let mut rest = steps;
    'lines: while !rest.is_empty() {
        let Ok((count, behind)) = push_lines(alloc, before, rest, names, &mut found) else {
            return Err(StepFault::Memory);
        };
        let Some(counted) = next_counted(before + count, behind) else {
            break;
        };
        let number = counted.number as u32;
        if found.len() as u64 == MAX_STEPS {
            return Err(StepFault::TooMany { line: number });
        }
        match step_of(alloc, number, counted.line, names) {
            Ok(step) => found.push(Line { number, step })?,
            Err(fault) => return Err(fault),
        }
        before = counted.number;
        rest = counted.rest;
    }
    Ok(found)
}

/// The steps of a schedule, or its first fault in reading order, word by word.
///
/// `TooMany` comes exactly where `count` is above `MAX_STEPS`, before any other fault. That is looked for only where
/// reading ends with a fault, so that where all is well each line is walked once.
pub fn parse<N: Names>(alloc: Global, steps: &[u8], names: &N) -> Result<Steps, StepFault>
    requires { length steps.now ≤ MAX_INPUT_BYTES }
    ensures steps { Gives (λ s. s) result (steps_of (N.naming names.now) steps.now) }
    // Every step has its numbers in their ranges, an event within its limits, and names that are known.
    ensures range { let is_step = IsStep (N.naming names.now) in
        IfOk result (λ s. All (λ line. is_step line.step) s) }
    ensures limits { IfOk result (λ s. AllByRecursion (λ line. IsInLimits line.step) s) }
    ensures all { IfOk result (λ s. length s ≡ length (counted_lines steps.now)) }
    ensures few { IfOk result (λ s. length s ≤ MAX_STEPS) }
    ensures cause { IfErr result (IsFault (length (counted_lines steps.now))) }
    // With no more counted lines than the limit there are not too many.
    ensures not_many { length (counted_lines steps.now) ≤ MAX_STEPS → (n : ℕ) → result ≢ Err (TooMany n) }
{
    match read_lines(alloc, steps, names) {
        Ok(found) => Ok(found),
        Err(fault) => match past_limit(steps) {
            Some(number) => Err(StepFault::TooMany {
                line: number as u32,
            }),
            None => Err(fault),
        },
    }
}
