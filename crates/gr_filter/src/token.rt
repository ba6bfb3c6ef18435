//! The tokens of a filter's text.

ghost use Rattle.std.specs.Prelude.{◌≡◌, ◌+◌, ◌-◌, ◌≤◌, ◌<◌, ◌^◌, length, take, IfSome, Some, IfOk, OnOk, ◌++◌};
ghost use Rattle.std.specs.Option.{ForSome};
ghost use Rattle.std.specs.Str.{is_utf8};
ghost use Rattle.gr_filter.specs.Token.{is_space, is_digit, begins_name, goes_on, front, capital, is_word, word_token};
ghost use Rattle.gr_filter.specs.Token.{number_from, integer_token, number_token, text_len, undoubled, text_token};
ghost use Rattle.gr_filter.specs.declared.parser.TheConstants.{MAX_FILTER_BYTES};
ghost use Rattle.gr_filter.specs.Token.{sign_token, less_token, greater_token, minus_token, token_of, lexeme};

use crate::fault::Memory;
use crate::node::Sign;
use gr_event::Text;

/// What a piece of text is.
#[derive(Clone, Copy)]
pub enum Token {
    /// The end of the text.
    End,
    /// A name.
    Name,
    /// An integer of 64 bits, with its minus if it has one.
    Integer(i64),
    /// A text with its quotes.
    Text,
    /// The word AND, in any case, as all words.
    And,
    /// The word OR.
    Or,
    /// The word NOT.
    Not,
    /// The word BETWEEN.
    Between,
    /// The word IN.
    In,
    /// The word LIKE.
    Like,
    /// The word IS.
    Is,
    /// The word NULL.
    Null,
    /// The word TRUE.
    True,
    /// The word FALSE.
    False,
    /// A sign that compares.
    Sign(Sign),
    /// An opening parenthesis.
    Open,
    /// A closing parenthesis.
    Close,
    /// A comma.
    Comma,
    /// No token begins here.
    Bad,
    /// An integer of more than 64 bits.
    Wide,
}

/// A token and the bytes `from..to` that it has.
#[derive(Clone, Copy)]
pub struct Lexeme {
    /// What it is.
    pub token: Token,
    /// The place of its first byte, counted from 0 in the text.
    pub from: usize,
    /// The place behind its last byte.
    pub to: usize,
}

/// The first token from a place on.
pub(crate) fn next_token(bytes: &[u8], at: usize) -> Lexeme
    requires few { length bytes.now ≤ MAX_FILTER_BYTES }
    requires inside { at ≤ length bytes.now }
    ensures is { result ≡ lexeme bytes.now at }
    ensures rises { at ≤ result.from }
    ensures forward { result.from ≤ result.to }
    ensures within { result.to ≤ length bytes.now }
{
    let from = at + spaces(&bytes[at..]);
    let (token, len) = token_of(&bytes[from..]);
    Lexeme {
        token,
        from,
        to: from + len,
    }
}

/// Whether a byte is a space, a tab, CR or LF.
fn is_space(byte: u8) -> bool
    ensures { result ≡ is_space byte }
{
    byte == b' ' || byte == b'\t' || byte == b'\r' || byte == b'\n'
}

/// Whether a byte is a digit.
fn is_digit(byte: u8) -> bool
    ensures { result ≡ is_digit byte }
{
    byte >= b'0' && byte <= b'9'
}

/// Whether a name or a word may begin with this byte.
fn begins_name(byte: u8) -> bool
    ensures { result ≡ begins_name byte }
{
    (byte >= b'A' && byte <= b'Z') || (byte >= b'a' && byte <= b'z') || byte == b'_' || byte == b'$'
}

/// Whether a name or a word may go on with this byte.
fn goes_on(byte: u8) -> bool
    ensures { result ≡ goes_on byte }
{
    begins_name(byte) || is_digit(byte) || byte == b'.'
}

/// How many spaces the text begins with.
fn spaces(text: &[u8]) -> usize
    ensures is { result ≡ front is_space text.now }
    ensures within { result ≤ length text.now }
{
    for i in 0..text.len() {
        if !is_space(text[i]) {
            return i;
        }
    }
    text.len()
}

/// How many digits the text begins with.
fn digits(text: &[u8]) -> usize
    ensures is { result ≡ front is_digit text.now }
    ensures within { result ≤ length text.now }
{
    for i in 0..text.len() {
        if !is_digit(text[i]) {
            return i;
        }
    }
    text.len()
}

/// How many bytes of a name the text begins with.
fn name_bytes(text: &[u8]) -> usize
    ensures is { result ≡ front goes_on text.now }
    ensures within { result ≤ length text.now }
{
    for i in 0..text.len() {
        if !goes_on(text[i]) {
            return i;
        }
    }
    text.len()
}

/// The capital of a small letter; any other byte as it is.
fn capital(byte: u8) -> u8
    ensures { result ≡ capital byte }
{
    if byte >= b'a' && byte <= b'z' {
        byte - 32
    } else {
        byte
    }
}

/// Whether the word is the keyword, in any case.
fn is_word(word: &[u8], keyword: &[u8]) -> bool
    ensures { result ≡ is_word word.now keyword.now }
{
    match word {
        [] => keyword.is_empty(),
        [first, rest @ ..] => match keyword {
            [] => false,
            [letter, letters @ ..] => capital(*first) == *letter && is_word(rest, letters),
        },
    }
}

/// The keyword that a word is, or a name.
#[tactic(auto, unfolding(crate::specs::Token::word_token))]
fn word_token(word: &[u8]) -> Token
    ensures { result ≡ word_token word.now }
{
    if is_word(word, b"AND") {
        Token::And
    } else if is_word(word, b"OR") {
        Token::Or
    } else if is_word(word, b"NOT") {
        Token::Not
    } else if is_word(word, b"BETWEEN") {
        Token::Between
    } else if is_word(word, b"IN") {
        Token::In
    } else if is_word(word, b"LIKE") {
        Token::Like
    } else if is_word(word, b"IS") {
        Token::Is
    } else if is_word(word, b"NULL") {
        Token::Null
    } else if is_word(word, b"TRUE") {
        Token::True
    } else if is_word(word, b"FALSE") {
        Token::False
    } else {
        Token::Name
    }
}

/// The number that digits spell behind those that were read, or 2^64 - 1 where it is above 2^63.
#[tactic(auto, using(crate::proofs::Numbers::passes))]
fn number_from(read: u64, digits: &[u8]) -> u64
    ensures exact { number_from read digits.now ≤ 2 ^ 63 → result ≡ number_from read digits.now }
    ensures above { 2 ^ 63 < number_from read digits.now → 2 ^ 63 < result }
{
    match digits {
        [] => read,
        [first, rest @ ..] => {
            if read >= 1_000_000_000_000_000_000 {
                u64::MAX
            } else {
                number_from(10 * read + u64::from(first.saturating_sub(48)), rest)
            }
        }
    }
}

/// The token of a number of at most 2^63, behind a minus or not.
fn integer_token(minus: bool, number: u64) -> Token
    ensures { result ≡ integer_token minus number }
{
    if minus {
        if number < 1 << 63 {
            Token::Integer(-(number as i64))
        } else if number == 1 << 63 {
            Token::Integer(i64::MIN)
        } else {
            Token::Wide
        }
    } else if number < 1 << 63 {
        Token::Integer(number as i64)
    } else {
        Token::Wide
    }
}

/// The token of the digits that the text begins with, behind a minus or not.
#[tactic(auto, unfolding(crate::specs::Token::number_token))]
fn number_token(minus: bool, text: &[u8]) -> Token
    ensures { result ≡ number_token minus text.now }
{
    let len = digits(text);
    match &text[len..] {
        [next, ..] if goes_on(*next) => Token::Bad,
        _ => integer_token(minus, number_from(0, &text[..len])),
    }
}

/// How many bytes a text has behind its first quote, with its last one. Two quotes inside stand for one.
fn text_len(text: &[u8]) -> Option<usize>
    ensures is { result ≡ text_len text.now }
    ensures some { ForSome result (λ n. 1 ≤ n) }
    ensures within { ForSome result (λ n. n ≤ length text.now) }
{
    let mut at = 0;
    'bytes: while at < text.len() {
        if text[at] != b'\'' {
            at += 1;
        } else if at + 1 < text.len() && text[at + 1] == b'\'' {
            at += 2;
        } else {
            return Some(at + 1);
        }
    }
    None
}

/// The text behind its first quote.
fn text_token(text: &[u8]) -> (Token, usize)
    ensures is { result ≡ text_token text.now (text_len text.now) }
    ensures within { result.1 ≤ length text.now + 1 }
{
    match text_len(text) {
        None => (Token::Bad, 1),
        Some(len) => {
            if is_text(&text[..len - 1]) {
                (Token::Text, len + 1)
            } else {
                (Token::Bad, 1)
            }
        }
    }
}

/// Whether bytes are UTF-8.
fn is_text(bytes: &[u8]) -> bool
    ensures { result ≡ is_utf8 bytes.now }
{
    std::str::from_utf8(bytes).is_ok()
}

/// The sign that begins with `<`, by what stands behind it, and how many bytes it has.
fn less_token(text: &[u8]) -> (Token, usize)
    ensures is { result ≡ less_token text.now }
    ensures within { result.1 ≤ length text.now + 1 }
{
    match text {
        [b'>', ..] => (Token::Sign(Sign::Differs), 2),
        [b'=', ..] => (Token::Sign(Sign::AtMost), 2),
        _ => (Token::Sign(Sign::Less), 1),
    }
}

/// The sign that begins with `>`, by what stands behind it, and how many bytes it has.
fn greater_token(text: &[u8]) -> (Token, usize)
    ensures is { result ≡ greater_token text.now }
    ensures within { result.1 ≤ length text.now + 1 }
{
    match text {
        [b'=', ..] => (Token::Sign(Sign::AtLeast), 2),
        _ => (Token::Sign(Sign::Greater), 1),
    }
}

/// The sign or mark that begins with a byte, by what stands behind it, and how many bytes it has.
fn sign_token(first: u8, rest: &[u8]) -> (Token, usize)
    ensures is { result ≡ sign_token first rest.now }
    ensures within { result.1 ≤ length rest.now + 1 }
{
    match first {
        b'(' => (Token::Open, 1),
        b')' => (Token::Close, 1),
        b',' => (Token::Comma, 1),
        b'=' => (Token::Sign(Sign::Equal), 1),
        b'<' => less_token(rest),
        b'>' => greater_token(rest),
        _ => (Token::Bad, 1),
    }
}

/// The number behind a minus, and how many bytes it has with the minus.
fn minus_token(rest: &[u8]) -> (Token, usize)
    requires { length rest.now ≤ MAX_FILTER_BYTES }
    ensures is { result ≡ minus_token rest.now }
    ensures within { result.1 ≤ length rest.now + 1 }
{
    let len = digits(rest);
    if len == 0 {
        (Token::Bad, 1)
    } else {
        (number_token(true, rest), 1 + len)
    }
}

/// The token at the front of a text that begins with no space, and how many bytes it has.
#[tactic(auto, unfolding(crate::specs::Token::token_of))]
fn token_of(text: &[u8]) -> (Token, usize)
    requires { length text.now ≤ MAX_FILTER_BYTES }
    ensures is { result ≡ token_of text.now }
    ensures within { result.1 ≤ length text.now }
{
    match text {
        [] => (Token::End, 0),
        [first, rest @ ..] => {
            if begins_name(*first) {
                let len = name_bytes(text);
                (word_token(&text[..len]), len)
            } else if is_digit(*first) {
                (number_token(false, text), digits(text))
            } else if *first == b'-' {
                minus_token(rest)
            } else if *first == b'\'' {
                text_token(rest)
            } else {
                sign_token(*first, rest)
            }
        }
    }
}

/// Puts what stands between quotes behind a text, each doubled quote once.
pub(crate) fn put_undoubled(out: &mut Text, text: &[u8]) -> Result<(), Memory>
    ensures { OnOk result (out.new ≡ out.old ++ undoubled text.now) }
{
    let mut at = 0;
    'bytes: while at < text.len() {
        out.push(text[at])?;
        if text[at] == b'\'' && at + 1 < text.len() {
            at += 2;
        } else {
            at += 1;
        }
    }
    Ok(())
}
