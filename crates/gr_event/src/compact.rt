//! Events from their own compact text, without a reader of JSON.
//!
//! The form in bytes is guessed from the text. Where that is an event which prints the very same text, the guess was
//! right, since what is printed reads back; every other text is left to `serde_json`.

ghost use Rattle.std.specs.Prelude.{◌≡◌, ◌<◌, Ok, IfOk, IfSome, length};
ghost use Rattle.gr_event.specs.Json.{event_text};

use crate::encode::{INTEGER, TEXT, TRUTH};
use crate::event::{Event, Memory};
use crate::limits::{MAX_EVENT_BYTES, MAX_NAME, MAX_PAIRS, MAX_TEXT};
use memchr::memchr;
use std::alloc::Global;

/// Up to how many bytes a text has whose form is guessed without memory.
const SHORT: usize = 128;

/// Up to how many bytes a text has in which a quote is sought byte by byte.
const NEAR: usize = 64;

/// By how many bytes a form is longer than its text, at most: by five for an integer of one digit.
const LONGER: usize = 5 * MAX_PAIRS;

/// The event whose compact text the bytes are, if they are one. Nothing is said of other texts: of those the answer is
/// none.
pub(crate) fn from_compact(alloc: Global, bytes: &[u8]) -> Result<Option<Event>, Memory>
    ensures { IfOk result (λ found. IfSome found (λ e. event_text bytes.now ≡ Ok e)) }
{
    if bytes.len() <= SHORT {
        let mut room = [0u8; 2 * SHORT];
        return from_guess(alloc, bytes, &mut room);
    }
    if bytes.len() > 2 * MAX_EVENT_BYTES {
        return Ok(None);
    }
    let mut room = vec![in alloc; 0u8; bytes.len() + LONGER]?;
    from_guess(alloc, bytes, &mut room)
}

/// The same, with room for the form that is guessed.
fn from_guess(alloc: Global, bytes: &[u8], room: &mut [u8]) -> Result<Option<Event>, Memory>
    ensures { IfOk result (λ found. IfSome found (λ e. event_text bytes.now ≡ Ok e)) }
{
    let Some(size) = guess(bytes, room) else {
        return Ok(None);
    };
    let Some(form) = room.get(..size) else {
        return Ok(None);
    };
    let Some(event) = Event::from_form(alloc, form)? else {
        return Ok(None);
    };
    if event.prints(bytes) {
        return Ok(Some(event));
    }
    Ok(None)
}

/// Writes the form in bytes that a text may stand for, if it looks like the compact text of an event, to the front of a
/// room, and gives its size. It is only a guess.
fn guess(text: &[u8], room: &mut [u8]) -> Option<usize> {
    let size = room.len();
    let rest = text.strip_prefix(b"{")?;
    let [first, free @ ..] = room else {
        return None;
    };
    let (count, left) = put_pairs(rest, free)?;
    *first = count;
    Some(size.wrapping_sub(left))
}

/// Writes the pairs of an object, and gives their count and how much room is left.
fn put_pairs(text: &[u8], room: &mut [u8]) -> Option<(u8, usize)> {
    let mut rest = text;
    let mut free = room;
    for count in 1..=MAX_PAIRS {
        let (behind, left) = put_pair(rest, free)?;
        match behind {
            [b'}'] => return Some((count as u8, left.len())),
            [b',', others @ ..] => {
                rest = others;
                free = left;
            }
            _ => return None,
        }
    }
    None
}

/// Writes the pair at the front of a text, and gives what stands behind it and the room that is left.
fn put_pair<'a, 'b>(text: &'a [u8], room: &'b mut [u8]) -> Option<(&'a [u8], &'b mut [u8])> {
    let (name, behind) = quoted(text)?;
    if name.len() > MAX_NAME {
        return None;
    }
    let left = put(name, put(&[name.len() as u8], room)?)?;
    match behind {
        [b':', value @ ..] => put_value(value, left),
        _ => None,
    }
}

/// Writes the value at the front of a text, and gives what stands behind it and the room that is left.
fn put_value<'a, 'b>(text: &'a [u8], room: &'b mut [u8]) -> Option<(&'a [u8], &'b mut [u8])> {
    match text {
        [b'"', ..] => put_text(text, room),
        [b't', b'r', b'u', b'e', rest @ ..] => Some((rest, put(&[TRUTH, 1], room)?)),
        [b'f', b'a', b'l', b's', b'e', rest @ ..] => Some((rest, put(&[TRUTH, 0], room)?)),
        [b'-', digits @ ..] => put_integer(true, digits, room),
        _ => put_integer(false, text, room),
    }
}

/// Writes the text between quotes at the front, and gives what stands behind it and the room that is left.
fn put_text<'a, 'b>(text: &'a [u8], room: &'b mut [u8]) -> Option<(&'a [u8], &'b mut [u8])> {
    let (inside, rest) = quoted(text)?;
    if inside.len() > MAX_TEXT {
        return None;
    }
    let [high, low] = (inside.len() as u16).to_be_bytes();
    Some((rest, put(inside, put(&[TEXT, high, low], room)?)?))
}

/// Writes the integer that the digits at the front are, and gives what stands behind them and the room that is left.
fn put_integer<'a, 'b>(
    negative: bool,
    text: &'a [u8],
    room: &'b mut [u8],
) -> Option<(&'a [u8], &'b mut [u8])> {
    let mut value = 0u64;
    let mut rest = text;
    'digits: while let [digit @ b'0'..=b'9', others @ ..] = rest {
        value = value
            .wrapping_mul(10)
            .wrapping_add(u64::from(digit.wrapping_sub(b'0')));
        rest = others;
    }
    if negative {
        value = value.wrapping_neg();
    }
    Some((rest, put(&value.to_be_bytes(), put(&[INTEGER], room)?)?))
}

/// Writes bytes to the front of a room, and gives what is left of it.
fn put<'a>(bytes: &[u8], room: &'a mut [u8]) -> Option<&'a mut [u8]> {
    let (front, left) = room.split_at_mut_checked(bytes.len())?;
    front.copy_from_slice(bytes);
    Some(left)
}

/// What stands between the quotes at the front of a text, up to the next quote, and what stands behind that.
fn quoted(text: &[u8]) -> Option<(&[u8], &[u8])> {
    let [b'"', inside @ ..] = text else {
        return None;
    };
    let end = place_of_quote(inside)?;
    Some((&inside[..end], &inside[end + 1..]))
}

/// Where the first quote of a text stands. In a short text it is sought byte by byte.
#[inline]
fn place_of_quote(text: &[u8]) -> Option<usize>
    ensures { IfSome result (λ place. place < length text.now) }
{
    if text.len() <= NEAR {
        return text.iter().position(|byte| *byte == b'"');
    }
    far_quote(text)
}

/// The same in a long text. Never inlined, so that the search in a short one can be.
#[inline(never)]
fn far_quote(text: &[u8]) -> Option<usize>
    ensures { IfSome result (λ place. place < length text.now) }
{
    memchr(b'"', text)
}
