//! Counts over the lines of a report.

ghost use Rattle.std.specs.Prelude.{◌≡◌, not, if◌then◌else◌, ◌+◌, ◌*◌, ◌<◌, ◌≤◌, ◌^◌, ◌++◌, IfOk, OnOk};
ghost use Rattle.std.specs.List.{count_by, sum_by, list_any};
ghost use Rattle.gr_soak.specs.Summary.{is_logged, is_got, is_behind, is_settled, frames_told, kept_told};
ghost use Rattle.gr_soak.specs.Report.{row_text, summary_text};

use gr_event::Text;
use gr_model::Report;
use gr_out::Memory;
use std::alloc::Global;

/// Counts over the report of a run that ends with a show: what a soak prints.
#[derive(Clone, Copy, Debug, PartialEq, Eq)]
pub struct Summary {
    /// How many lines of the report log an event.
    pub logged: u128,
    /// How many frames were sent, by the last step's lines.
    pub frames: u128,
    /// How many lines hand an event to a subscriber.
    pub got: u128,
    /// How many horizons the last step shows that are not what their publisher's log is settled up to.
    pub behind: u128,
    /// How many events the logs keep, by the last step's lines.
    pub kept: u128,
}

/// How many lines log an event.
pub(crate) fn logged_in(lines: &[Report]) -> u128
    ensures count { result ≡ count_by is_logged lines.now }
    ensures small { result < 2 ^ 64 }
{
    let mut logged = 0;
    'lines: for line in lines {
        logged += u128::from(logged_by(line));
    }
    logged
}

/// 1 for a line that logs an event, 0 for any other.
#[tactic(auto, unfolding(crate::specs::Summary::is_logged))]
fn logged_by(line: &Report) -> u64
    ensures one { result ≡ (if is_logged line.now then 1 else 0) }
    ensures small { result ≤ 1 }
{
    match line {
        Report::Logged { .. } => 1,
        _ => 0,
    }
}

/// How many lines hand an event to a subscriber.
pub(crate) fn got_in(lines: &[Report]) -> u128
    ensures count { result ≡ count_by is_got lines.now }
    ensures small { result < 2 ^ 64 }
{
    let mut got = 0;
    'lines: for line in lines {
        got += u128::from(got_by(line));
    }
    got
}

/// 1 for a line that hands an event to a subscriber, 0 for any other.
#[tactic(auto, unfolding(crate::specs::Summary::is_got))]
fn got_by(line: &Report) -> u64
    ensures one { result ≡ (if is_got line.now then 1 else 0) }
    ensures small { result ≤ 1 }
{
    match line {
        Report::Got { .. } => 1,
        _ => 0,
    }
}

/// How many frames were sent, by the lines of a show.
pub(crate) fn frames_in(shown: &[Report]) -> u128
    ensures { result ≡ sum_by frames_told shown.now }
{
    let mut frames = 0;
    'lines: for line in shown {
        frames += u128::from(frames_told(line));
    }
    frames
}

/// How many frames a line says were sent.
#[tactic(auto, unfolding(crate::specs::Summary::frames_told))]
fn frames_told(line: &Report) -> u64
    ensures { result ≡ frames_told line.now }
{
    match line {
        Report::Frames { count } => *count,
        _ => 0,
    }
}

/// How many events the logs keep, by the lines of a show.
pub(crate) fn kept_in(shown: &[Report]) -> u128
    ensures { result ≡ sum_by kept_told shown.now }
{
    let mut kept = 0;
    'lines: for line in shown {
        kept += u128::from(kept_told(line));
    }
    kept
}

/// How many events a line says that a log keeps.
#[tactic(auto, unfolding(crate::specs::Summary::kept_told))]
fn kept_told(line: &Report) -> u64
    ensures { result ≡ kept_told line.now }
{
    match line {
        Report::LogOf { kept, .. } => *kept,
        _ => 0,
    }
}

/// How many horizons a show tells that are not what their publisher's log is settled up to.
pub(crate) fn behind_in(shown: &[Report]) -> u128
    ensures { result ≡ count_by (is_behind shown.now) shown.now }
{
    let mut behind = 0;
    'lines: for line in shown {
        behind += u128::from(behind_by(shown, line));
    }
    behind
}

/// 1 for a line that tells a horizon that is not what its publisher's log is settled up to, 0 for any other.
#[tactic(auto, unfolding(crate::specs::Summary::is_behind))]
fn behind_by(shown: &[Report], line: &Report) -> u64
    ensures one { result ≡ (if is_behind shown.now line.now then 1 else 0) }
    ensures small { result ≤ 1 }
{
    match line {
        Report::Doubt {
            publisher,
            tick,
            ..
        } => one_unless(is_told(shown, *publisher, *tick)),
        _ => 0,
    }
}

/// 0 for what holds, 1 for what does not.
fn one_unless(holds: bool) -> u64
    ensures one { result ≡ (if not holds then 1 else 0) }
    ensures small { result ≤ 1 }
{
    if holds { 0 } else { 1 }
}

/// Whether a show tells that the log of this publisher is settled up to this tick.
fn is_told(shown: &[Report], publisher: u16, tick: u64) -> bool
    ensures { result ≡ list_any (is_settled publisher tick) shown.now }
{
    'logs: for log in shown {
        if is_settled(publisher, tick, log) {
            return true;
        }
    }
    false
}

/// Whether a line says that the log of this publisher is settled up to this tick.
#[tactic(auto, unfolding(crate::specs::Summary::is_settled))]
fn is_settled(publisher: u16, tick: u64, line: &Report) -> bool
    ensures { result ≡ is_settled publisher tick line.now }
{
    match line {
        Report::LogOf {
            publisher: of,
            settled,
            ..
        } => *of == publisher && *settled == tick,
        _ => false,
    }
}

/// The lines that are printed of a soak of `n` turns.
pub(crate) fn summary_text(alloc: Global, n: u64, summary: &Summary) -> Result<Text, Memory>
    ensures { IfOk result (λ text. text ≡ summary_text n summary.now) }
{
    let mut text = Text::new(alloc);
    put_row(alloc, &mut text, "soak", u128::from(n))?;
    put_row(alloc, &mut text, "brokers", 7)?;
    put_row(alloc, &mut text, "publishers", 2)?;
    put_row(alloc, &mut text, "subscribers", 12)?;
    put_row(alloc, &mut text, "logged", summary.logged)?;
    put_row(alloc, &mut text, "frames", summary.frames)?;
    put_row(alloc, &mut text, "got", summary.got)?;
    put_row(alloc, &mut text, "behind", summary.behind)?;
    put_row(alloc, &mut text, "kept", summary.kept)?;
    Ok(text)
}

/// Puts a word and a number, as a line.
#[tactic(auto, unfolding(crate::specs::Report::row_text))]
fn put_row(alloc: Global, text: &mut Text, word: &str, number: u128) -> Result<(), Memory>
    ensures { OnOk result (text.new ≡ text.old ++ row_text word.now number) }
{
    let row = format!(in alloc; "{word} {number}\n")?;
    text.append(row.as_bytes())
}
