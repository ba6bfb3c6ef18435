//! Lines as they mostly stand: one space between two words, none at an end, and an LF at once behind.
//!
//! Such lines are walked once, byte by byte, with no search for their ends before. Nothing is said of other lines: of
//! those the answer is none, and they are read word by word.

ghost use Rattle.std.specs.Prelude.{◌≡◌, ◌+◌, ◌<◌, ◌≤◌, ◌^◌, ◌++◌, codes, length};
ghost use Rattle.std.specs.Prelude.{IfOk, IfSome, MatchOption};
ghost use Rattle.gr_sched.specs.declared.step.TheConstants.{MAX_STEPS};
ghost use Rattle.gr_sched.specs.Naming.{Naming};
ghost use Rattle.gr_sched.specs.Plain.{IsNumberBefore, IsNameBefore, IsObjectBefore, Adds};

use crate::step::{Line, MAX_STEPS, Names, Step, Steps};
use crate::text::find_end;
use gr_event::{Event, EventFault};
use std::alloc::{AllocError, Global};

/// How many digits a number has here at most. With so many it is not past `MAX_NUMBER`.
const DIGITS: usize = 18;

/// Puts the lines at the front of a text, as many as are plain, at the end of `found`, up to the limit of lines, where
/// `before` lines stand before the text. Gives how many they are, and what stands behind them.
pub(crate) fn push_lines<'a, N: Names>(
    alloc: Global,
    before: u64,
    text: &'a [u8],
    names: &N,
    found: &mut Steps,
) -> Result<(u64, &'a [u8]), AllocError>
    requires { before + length text.now < 2 ^ 32 }
    ensures adds { IfOk result (λ r. Adds (N.naming names.now) before text.now found.old
        r.0 r.1.now found.new) }
    ensures few { IfOk result (λ r. length found.old ≤ MAX_STEPS → length found.new ≤ MAX_STEPS) }
{
    let mut count = 0;
    let mut rest = text;
    'lines: while !rest.is_empty() && (found.len() as u64) < MAX_STEPS {
        match push_line(alloc, (before + count) as u32, rest, names, found) {
            Ok(Some(behind)) => rest = behind,
            Ok(None) => break,
            Err(refused) => return Err(refused),
        }
        count += 1;
    }
    Ok((count, rest))
}

/// Puts the first line of a text at the end of `found`, if it is plain, and gives what stands behind it.
fn push_line<'a, N: Names>(
    alloc: Global,
    before: u32,
    text: &'a [u8],
    names: &N,
    found: &mut Steps,
) -> Result<Option<&'a [u8]>, AllocError>
    requires { before + 1 < 2 ^ 32 }
    ensures { IfOk result (λ r. MatchOption r (found.new ≡ found.old) (λ rest.
        Adds (N.naming names.now) before text.now found.old 1 rest.now found.new)) }
{
    match text {
        [b'c', b'l', b'o', b'c', b'k', b' ', words @ ..] => push_clock(before, words, found),
        [b'd', b'e', b'l', b'i', b'v', b'e', b'r', b' ', words @ ..] => {
            push_deliver(before, words, found)
        }
        [b'p', b'u', b'b', b'l', b'i', b's', b'h', b' ', words @ ..] => {
            push_publish(alloc, before, words, names, found)
        }
        _ => Ok(None),
    }
}

/// The same for a clock, behind its word.
#[inline(always)]
fn push_clock<'a>(
    before: u32,
    text: &'a [u8],
    found: &mut Steps,
) -> Result<Option<&'a [u8]>, AllocError>
    requires { before + 1 < 2 ^ 32 }
    ensures { IfOk result (λ r. MatchOption r (found.new ≡ found.old) (λ rest.
        (naming : Naming)
        → Adds naming before (codes "clock " ++ text.now) found.old 1 rest.now found.new)) }
{
    let Some((now, rest)) = number_before(b'\n', text) else {
        return Ok(None);
    };
    found.push(Line {
        number: before + 1,
        step: Step::Clock { now },
    })?;
    Ok(Some(rest))
}

/// The same for a delivery, behind its word.
#[inline(always)]
fn push_deliver<'a>(
    before: u32,
    text: &'a [u8],
    found: &mut Steps,
) -> Result<Option<&'a [u8]>, AllocError>
    requires { before + 1 < 2 ^ 32 }
    ensures { IfOk result (λ r. MatchOption r (found.new ≡ found.old) (λ rest.
        (naming : Naming)
        → Adds naming before (codes "deliver " ++ text.now) found.old 1 rest.now found.new)) }
{
    let Some((frame, rest)) = number_before(b'\n', text) else {
        return Ok(None);
    };
    found.push(Line {
        number: before + 1,
        step: Step::Deliver { frame },
    })?;
    Ok(Some(rest))
}

/// The same for a publish without a stop, behind its word.
fn push_publish<'a, N: Names>(
    alloc: Global,
    before: u32,
    text: &'a [u8],
    names: &N,
    found: &mut Steps,
) -> Result<Option<&'a [u8]>, AllocError>
    requires { before + 1 < 2 ^ 32 }
    ensures { IfOk result (λ r. MatchOption r (found.new ≡ found.old) (λ rest.
        Adds (N.naming names.now) before (codes "publish " ++ text.now) found.old 1
        rest.now found.new)) }
{
    let Some((name, behind)) = name_before(text) else {
        return Ok(None);
    };
    let Some(publisher) = names.publisher(name) else {
        return Ok(None);
    };
    let Some((number, behind)) = number_before(b' ', behind) else {
        return Ok(None);
    };
    if number == 0 {
        return Ok(None);
    }
    let Some((object, rest)) = object_before(behind) else {
        return Ok(None);
    };
    let event = match Event::from_text(alloc, object) {
        Ok(event) => event,
        Err(EventFault::Memory) => return Err(AllocError),
        Err(_) => return Ok(None),
    };
    found.push(Line {
        number: before + 1,
        step: Step::Publish {
            publisher,
            number,
            stop: None,
            event,
        },
    })?;
    Ok(Some(rest))
}

/// The number whose digits stand before this byte, and what stands behind the byte. Of a text that is hardly longer
/// than a number there is none.
#[inline(always)]
fn number_before(stop: u8, text: &[u8]) -> Option<(u64, &[u8])>
    ensures { IfSome result (λ r. IsNumberBefore stop text.now r.0 r.1.now) }
{
    if text.len() <= DIGITS {
        return None;
    }
    let mut number = 0u64;
    let mut end = 0;
    'digits: while end <= DIGITS {
        let byte = text[end];
        if !byte.is_ascii_digit() {
            if byte == stop && end > 0 {
                return Some((number, &text[end + 1..]));
            }
            return None;
        }
        number = number * 10 + u64::from(byte - b'0');
        end += 1;
    }
    None
}

/// The name that stands before a space, and what stands behind the space.
fn name_before(text: &[u8]) -> Option<(&[u8], &[u8])>
    ensures { IfSome result (λ r. IsNameBefore text.now r.0.now r.1.now) }
{
    let mut end = 0;
    'bytes: while end < text.len() {
        if text[end] <= b' ' {
            if text[end] == b' ' && end > 0 {
                return Some((&text[..end], &text[end + 1..]));
            }
            return None;
        }
        end += 1;
    }
    None
}

/// The rest of a line, if it stands from a brace to a brace, and what stands behind its LF.
fn object_before(text: &[u8]) -> Option<(&[u8], &[u8])>
    ensures { IfSome result (λ r. IsObjectBefore text.now r.0.now r.1.now) }
{
    let Some(end) = find_end(text) else {
        return None;
    };
    if end > 1 && text[0] == b'{' && text[end - 1] == b'}' {
        return Some((&text[..end], &text[end + 1..]));
    }
    None
}
