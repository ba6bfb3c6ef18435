//! The words of a line and its numbers. Nothing here takes memory.

ghost use Rattle.std.specs.Prelude.{◌≡◌, ℕ, ◌+◌, ◌-◌, ◌*◌, ◌<◌, ◌≤◌, ◌^◌, IfOk, length, drop, take};
ghost use Rattle.std.specs.Prelude.{if◌then◌else◌, Some, None};
ghost use Rattle.gr_sched.specs.Words.{Gives, trimmed, trimmed_end, first_word, after_word, next_word, ended, known};
ghost use Rattle.gr_sched.specs.Words.{is_number, value_after, is_number_in, number_in, next_number};

use crate::fault::StepFault;
use crate::text::{is_gap, without_gaps, word_len};

/// The text without the spaces and tabs at its end.
#[tactic(auto, using(crate::proofs::Ends::end_falls, crate::proofs::Ends::end_stays))]
fn without_end_gaps(text: &[u8]) -> &[u8]
    ensures { result.now ≡ trimmed_end text.now }
{
    let mut end = text.len();
    'gaps: while end > 0 {
        if !is_gap(text[end - 1]) {
            break;
        }
        end -= 1;
    }
    &text[..end]
}

/// The line without the spaces and tabs at both ends.
pub fn trimmed(line: &[u8]) -> &[u8]
    ensures { result.now ≡ trimmed line.now }
{
    without_end_gaps(without_gaps(line))
}

/// The first word of a text.
#[tactic(auto, using(crate::proofs::Pieces::place_within))]
pub fn first_word(text: &[u8]) -> &[u8]
    ensures { result.now ≡ first_word text.now }
{
    &text[..word_len(text)]
}

/// What follows the first word of a text and the spaces and tabs behind it.
#[tactic(auto, using(crate::proofs::Pieces::place_within))]
pub fn after_word(text: &[u8]) -> &[u8]
    ensures { result.now ≡ after_word text.now }
{
    without_gaps(&text[word_len(text)..])
}

/// The next word of line `line`, and what follows it.
#[tactic(auto, using(crate::proofs::Pieces::place_within))]
pub fn next_word(line: u32, text: &[u8]) -> Result<(&[u8], &[u8]), StepFault>
    ensures { Gives (λ r. (r.0.now, r.1.now)) result (next_word line text.now) }
{
    if text.is_empty() {
        return Err(StepFault::BadWord { line });
    }
    let end = word_len(text);
    Ok((&text[..end], without_gaps(&text[end..])))
}

/// The value of a word of 1 to 19 digits, or None where it is no such word.
pub fn value(word: &[u8]) -> Option<u64>
    ensures { result ≡ if is_number word.now then Some (value_after 0 word.now) else None }
{
    if word.is_empty() || word.len() > 19 {
        return None;
    }
    let mut value = 0u64;
    'digits: for byte in word {
        if !byte.is_ascii_digit() {
            return None;
        }
        value = value * 10 + u64::from(*byte - b'0');
    }
    Some(value)
}

/// Whether a word is a number of at most so many digits, from `low` to `high`.
pub fn is_number_in(digits: usize, low: u64, high: u64, word: &[u8]) -> bool
    ensures { result ≡ is_number_in digits low high word.now }
{
    if word.len() > digits {
        return false;
    }
    match value(word) {
        Some(number) => low <= number && number <= high,
        None => false,
    }
}

/// A word of line `line` as a number from `low` to `high`.
fn number_in(line: u32, low: u64, high: u64, word: &[u8]) -> Result<u64, StepFault>
    ensures gives { Gives (λ n. n) result (number_in line low high word.now) }
    ensures range { IfOk result (λ n. n ≤ high) }
{
    match value(word) {
        Some(number) if low <= number && number <= high => Ok(number),
        _ => Err(StepFault::BadNumber { line }),
    }
}

/// The next word of line `line` as a number from `low` to `high`, and what follows it.
pub fn next_number(line: u32, low: u64, high: u64, text: &[u8]) -> Result<(u64, &[u8]), StepFault>
    ensures gives { Gives (λ r. (r.0, r.1.now)) result (next_number line low high text.now) }
    ensures range { IfOk result (λ r. r.0 ≤ high) }
{
    let (word, rest) = next_word(line, text)?;
    let number = number_in(line, low, high, word)?;
    Ok((number, rest))
}

/// The same for a number of one byte.
pub fn next_small(line: u32, low: u8, high: u8, text: &[u8]) -> Result<(u8, &[u8]), StepFault>
    ensures { Gives (λ r. (r.0, r.1.now)) result (next_number line low high text.now) }
{
    let (number, rest) = next_number(line, u64::from(low), u64::from(high), text)?;
    Ok((number as u8, rest))
}
