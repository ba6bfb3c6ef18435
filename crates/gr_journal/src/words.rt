//! The words of a journal's line, its moments and its bytes.

ghost use Rattle.std.specs.Prelude.{◌≡◌, ◌+◌, ◌<◌, ◌≤◌, ◌∷◌, length, if◌then◌else◌, Some, None, option_map};
ghost use Rattle.std.specs.Prelude.{IfOk, IfSome};
ghost use Rattle.std.specs.List.{list_all, position, position_or_len};
ghost use Rattle.gr_journal.specs.Words.{is_space, words_of, more_words, only_word, moment_of, is_hex_digit, is_hex};
ghost use Rattle.gr_journal.specs.Words.{digit_value, hex_bytes, datagram_of};

use gr_event::Bytes;
use gr_sched::{MAX_NUMBER, value};
use std::alloc::{AllocError, Global};

/// Where the first space stands, if any.
fn find_space(text: &[u8]) -> Option<usize>
    ensures { result ≡ position is_space text.now }
{
    text.iter().position(|byte| *byte == b' ')
}

/// Where the first word ends: at the first space, or with the text.
#[tactic(auto, using(crate::proofs::Cuts::place_is))]
fn word_len(text: &[u8]) -> usize
    ensures { result ≡ position_or_len is_space text.now }
{
    find_space(text).unwrap_or(text.len())
}

/// The first word of a text, and what stands behind the space that ends it, if one does.
pub(crate) fn cut(text: &[u8]) -> (&[u8], Option<&[u8]>)
    ensures words { words_of text.now ≡ result.0.now ∷ more_words (option_map (λ r. r.now) result.1) }
    ensures shorter { IfSome result.1 (λ r. length r.now < length text.now) }
{
    let end = word_len(text);
    if end < text.len() {
        return (&text[..end], Some(&text[end + 1..]));
    }
    (text, None)
}

/// The one word of a text, if it is one.
pub(crate) fn only_word(text: Option<&[u8]>) -> Option<&[u8]>
    ensures { option_map (λ w. w.now) result ≡ only_word (more_words (option_map (λ t. t.now) text.entry)) }
{
    let Some(text) = text else {
        return None;
    };
    let (word, behind) = cut(text);
    match behind {
        None => Some(word),
        Some(_) => None,
    }
}

/// The moment that a word is; one past the greatest stands as the greatest.
pub(crate) fn moment_of(word: &[u8]) -> Option<u64>
    ensures { result ≡ moment_of word.now }
{
    match value(word) {
        Some(moment) => Some(moment.min(MAX_NUMBER)),
        None => None,
    }
}

/// Whether a byte is one of 0 to 9 and a to f.
fn is_hex_digit(byte: u8) -> bool
    ensures { result ≡ is_hex_digit byte }
{
    (byte >= b'0' && byte <= b'9') || (byte >= b'a' && byte <= b'f')
}

/// Whether each byte is one.
fn are_hex_digits(word: &[u8]) -> bool
    ensures { result ≡ list_all is_hex_digit word.now }
{
    word.iter().all(|byte| is_hex_digit(*byte))
}

/// Whether a word is pairs of hexadecimal digits, one or more.
pub(crate) fn is_hex(word: &[u8]) -> bool
    ensures { result ≡ is_hex word.now }
{
    !word.is_empty() && word.len() % 2 == 0 && are_hex_digits(word)
}

/// The value of a hexadecimal digit.
fn digit_value(byte: u8) -> u8
    ensures value { result ≡ digit_value byte }
    ensures most { result < 16 }
{
    if byte >= b'0' && byte <= b'9' {
        return byte - b'0';
    }
    if byte >= b'a' && byte <= b'f' {
        return byte - 87;
    }
    0
}

/// The bytes of pairs of hexadecimal digits.
fn hex_bytes(alloc: Global, word: &[u8]) -> Result<Bytes, AllocError>
    ensures { IfOk result (λ bytes. bytes ≡ hex_bytes word.now) }
{
    let mut bytes = Bytes::new(alloc);
    let mut at = 0;
    'pairs: while at + 1 < word.len() {
        let high = digit_value(word[at]);
        let low = digit_value(word[at + 1]);
        bytes.push(high * 16 + low)?;
        at += 2;
    }
    Ok(bytes)
}

/// The bytes of a datagram that a word says, if it does; `-` says none.
pub(crate) fn datagram_of(alloc: Global, word: &[u8]) -> Result<Option<Bytes>, AllocError>
    ensures { IfOk result (λ bytes. bytes ≡ datagram_of word.now) }
{
    if word == b"-".as_slice() {
        return Ok(Some(Bytes::new(alloc)));
    }
    if !is_hex(word) {
        return Ok(None);
    }
    Ok(Some(hex_bytes(alloc, word)?))
}
