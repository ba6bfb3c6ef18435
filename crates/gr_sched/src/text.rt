//! The lines of a text: the separator, the blank text and the counted lines. Nothing here takes memory.

ghost use Rattle.std.specs.Prelude.{◌≡◌, ℕ, ◌+◌, ◌-◌, ◌<◌, ◌≤◌, ◌^◌, ◌∷◌, ◌==◌, [], length, take, drop, MatchOption};
ghost use Rattle.std.specs.Prelude.{not};
ghost use Rattle.std.specs.List.{position, position_or_len};
ghost use Rattle.std.specs.Io.BufRead.{ends_with_byte, strip_last};
ghost use Rattle.gr_sched.specs.Text.{is_gap, is_blank, is_separator, is_counted, line_of, pieces_of, before_separator};
ghost use Rattle.gr_sched.specs.Text.{after_separator, without_gaps, counted_after, counted_lines};

use memchr::memchr;

/// Whether a byte is a space or a tab.
pub(crate) fn is_gap(byte: u8) -> bool
    ensures { result ≡ is_gap byte }
{
    byte == b' ' || byte == b'\t'
}

/// Whether there is nothing but spaces, tabs, CR and LF.
pub fn is_blank(bytes: &[u8]) -> bool
    ensures { result ≡ is_blank bytes.now }
{
    bytes
        .iter()
        .all(|byte| is_gap(*byte) || *byte == b'\r' || *byte == b'\n')
}

/// Where the first space or tab stands, if any.
fn find_gap(text: &[u8]) -> Option<usize>
    ensures { result ≡ position is_gap text.now }
{
    text.iter().position(|byte| is_gap(*byte))
}

/// Where the first byte stands that is neither space nor tab, if any.
fn find_word(text: &[u8]) -> Option<usize>
    ensures { result ≡ position (λ b. not (is_gap b)) text.now }
{
    text.iter().position(|byte| !is_gap(*byte))
}

/// Where the first LF stands, if any.
pub(crate) fn find_end(text: &[u8]) -> Option<usize>
    ensures { result ≡ position (λ b. b == 10) text.now }
{
    memchr(b'\n', text)
}

/// Where the first word ends: at the first space or tab, or with the text.
#[tactic(auto, using(crate::proofs::Pieces::place_is))]
pub(crate) fn word_len(text: &[u8]) -> usize
    ensures { result ≡ position_or_len is_gap text.now }
{
    find_gap(text).unwrap_or(text.len())
}

/// How many spaces and tabs stand at the front.
#[tactic(auto, using(crate::proofs::Pieces::place_is))]
fn gaps_len(text: &[u8]) -> usize
    ensures { result ≡ position_or_len (λ b. not (is_gap b)) text.now }
{
    find_word(text).unwrap_or(text.len())
}

/// How long the first line is without its LF.
#[tactic(auto, using(crate::proofs::Pieces::place_is))]
fn line_len(text: &[u8]) -> usize
    ensures { result ≡ position_or_len (λ b. b == 10) text.now }
{
    find_end(text).unwrap_or(text.len())
}

/// The text without the spaces and tabs at its front.
#[tactic(auto, using(crate::proofs::Pieces::place_within))]
pub(crate) fn without_gaps(text: &[u8]) -> &[u8]
    ensures { result.now ≡ without_gaps text.now }
{
    let start = gaps_len(text);
    &text[start..]
}

/// The text without its last byte, if it is this one.
fn strip_last(byte: u8, text: &[u8]) -> &[u8]
    ensures { result.now ≡ strip_last byte text.now }
{
    if ends_with_byte(byte, text) {
        return &text[..text.len() - 1];
    }
    text
}

/// Whether the text ends with this byte.
fn ends_with_byte(byte: u8, text: &[u8]) -> bool
    ensures { result ≡ ends_with_byte byte text.now }
{
    !text.is_empty() && text[text.len() - 1] == byte
}

/// The line that stands in a piece of a text.
pub fn line_of(piece: &[u8]) -> &[u8]
    ensures { result.now ≡ line_of piece.now }
{
    if ends_with_byte(b'\n', piece) {
        return strip_last(b'\r', strip_last(b'\n', piece));
    }
    piece
}

/// Whether the line that stands in a piece is the separator.
fn is_separator(piece: &[u8]) -> bool
    ensures { result ≡ is_separator piece.now }
{
    line_of(piece) == b"---".as_slice()
}

/// Whether a line is neither blank nor a comment.
fn is_counted(line: &[u8]) -> bool
    ensures { result ≡ is_counted line.now }
{
    match without_gaps(line) {
        [] => false,
        [first, ..] => *first != b'#',
    }
}

/// How long the first piece of a text is: up to its LF, or all of it.
#[tactic(auto, using(crate::proofs::Pieces::piece_cut, crate::proofs::Pieces::piece_whole, crate::proofs::Pieces::place_within))]
pub fn piece_len(text: &[u8]) -> usize
    requires { 0 < length text.now }
    ensures some { 0 < result }
    ensures within { result ≤ length text.now }
    ensures cut { pieces_of text.now ≡ take result text.now ∷ pieces_of (drop result text.now) }
{
    let end = line_len(text);
    if end < text.len() { end + 1 } else { end }
}

/// The topology part and the step part of a scenario: what stands before the first separator, and what stands
/// after it. The separator is a line that is exactly `---`. Without one all is the first part.
pub fn split(bytes: &[u8]) -> (&[u8], &[u8])
    ensures topology { result.0.now ≡ before_separator (pieces_of bytes.now) }
    ensures steps { result.1.now ≡ after_separator (pieces_of bytes.now) }
    ensures within { length result.0.now + length result.1.now ≤ length bytes.now }
{
    let mut start = 0;
    'pieces: while start < bytes.len() {
        let rest = &bytes[start..];
        let end = piece_len(rest);
        if is_separator(&rest[..end]) {
            return (&bytes[..start], &rest[end..]);
        }
        start += end;
    }
    (bytes, &bytes[bytes.len()..])
}

/// A counted line with its number, and the text after it.
#[derive(Clone, Copy)]
pub struct Counted<'a> {
    /// Its number, from 1, among all lines of the text.
    pub number: u64,
    /// The line without its line end.
    pub line: &'a [u8],
    /// What stands behind its line end.
    pub rest: &'a [u8],
}

/// The first counted line of a text that `before` lines stand before, or None where there is none.
pub fn next_counted(before: u64, text: &[u8]) -> Option<Counted<'_>>
    requires { before + length text.now < 2 ^ 64 }
    ensures found { MatchOption result (counted_after before (pieces_of text.now) ≡ []) (λ c.
        counted_after before (pieces_of text.now) ≡ (c.number, c.line.now) ∷
        counted_after c.number (pieces_of c.rest.now)) }
    ensures shorter { MatchOption result (Unit {0}) (λ c. (before < c.number) ×
        (c.number + length c.rest.now ≤ before + length text.now)) }
{
    let mut number = before;
    let mut rest = text;
    'lines: while !rest.is_empty() {
        let end = piece_len(rest);
        let line = line_of(&rest[..end]);
        rest = &rest[end..];
        number += 1;
        if is_counted(line) {
            return Some(Counted { number, line, rest });
        }
    }
    None
}

/// How many counted lines there are: lines that are neither blank, of nothing but spaces and tabs, nor comments,
/// whose first character past spaces and tabs is `#`.
pub fn count(steps: &[u8]) -> u64
    ensures { result ≡ length (counted_lines steps.now) }
{
    let mut total = 0;
    let mut before = 0;
    let mut rest = steps;
    'lines: while let Some(counted) = next_counted(before, rest) {
        total += 1;
        before = counted.number;
        rest = counted.rest;
    }
    total
}

/// How many lines there are: each ends with an LF, and what stands behind the last LF is one more where there is
/// anything.
pub fn line_count(text: &[u8]) -> u64
    ensures { result ≡ length (pieces_of text.now) }
{
    let mut total = 0;
    let mut rest = text;
    'lines: while !rest.is_empty() {
        rest = &rest[piece_len(rest)..];
        total += 1;
    }
    total
}
